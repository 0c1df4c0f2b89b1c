ghost use Rattle.std.specs.Prelude.{◌≡◌};
ghost use Rattle.timetable.specs.Meaning.{turn_of};

// The slot of the period in which a channel carries the page of a slot; `None` where there is no such channel, or nothing repeats.
pub fn turn_in(channels: u8, period: u32, channel: u8, slot: u32) -> Option<u32>
    ensures slot_of_period { result ≡ turn_of channels period channel slot }
{
    if channel == 0 || channel > channels {
        return None;
    }
    slot.checked_rem(period)
}
