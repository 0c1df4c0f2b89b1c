ghost use Rattle.std.specs.Prelude.{◌≡◌};
ghost use Rattle.timetable.specs.Closed.{aired, aired_lawful, closed_in};

use super::interface::Timetable;
use records::kinds::Closure;

// A timetable of which some entries are closed: what is sent.
#[derive_where(Clone, Copy)]
pub struct Aired<'a, T> {
    pub table: &'a T,
    pub closed: &'a [Closure],
}

// Whether the entry of a channel in a slot of the period is among the closed ones.
pub fn is_closed(closed: &[Closure], channel: u8, slot: u32) -> bool
    ensures among_closed { result ≡ closed_in closed.now channel slot }
{
    closed.contains(&Closure { channel, slot })
}

impl<T: Timetable> Timetable for Aired<'_, T> {
    ghost meaning = { λ a. aired (T.Timetable.meaning a.table.now) a.closed.now };

    ghost lawful = { λ a. aired_lawful (T.Timetable.meaning a.table.now) a.closed.now (T.Timetable.lawful a.table.now) };

    fn channels(&self) -> u8 {
        self.table.channels()
    }

    fn period(&self) -> u32 {
        self.table.period()
    }

    fn page_at(&self, channel: u8, slot: u32) -> u16 {
        let place = slot.checked_rem(self.table.period()).unwrap_or(slot);
        if is_closed(self.closed, channel, place) {
            return 0;
        }
        self.table.page_at(channel, slot)
    }
}
