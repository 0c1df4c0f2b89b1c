ghost use Rattle.std.specs.Prelude.{◌≡◌};
ghost use Rattle.timetable.specs.Meaning.{Meaning, Lawful};

// What each of some channels carries in each slot, again and again after a period. A question changes nothing.
pub trait Timetable {
    // The channels, the period and the page at each channel and slot.
    ghost meaning: { Self → Meaning };

    // The pages repeat with the period, only the channels 1 to `channels` carry any, and each has 16 bits.
    ghost lawful: { (x : Self) → Lawful (meaning x) };

    // The number of channels.
    fn channels(&self) -> u8
        ensures answers_channels { result ≡ (meaning self.now).channels };

    // The slots after which the timetable begins again.
    fn period(&self) -> u32
        ensures answers_period { result ≡ (meaning self.now).period };

    // The page on a channel, counted from 1, in a slot, counted from 0; 0 is silence.
    fn page_at(&self, channel: u8, slot: u32) -> u16
        ensures answers_page { result ≡ (meaning self.now).page channel slot };
}
