// Going on air, sending slot by slot, and going off air.
ghost use Rattle.std.specs.Prelude.{◌≡◌, ◌≤◌, ◌++◌, length, drop};
ghost use Rattle.timetable.specs.Closed.{line};
ghost use Rattle.station.specs.Calls.{written};
ghost use Rattle.station.specs.States.{seen, Is, airs, ticks, withdraws, goes_on_air, withdrawn, by_unit, by_tick};

use super::Station;
use crate::phase::Phase;
use crate::refusal::Refusal;
use timetable::interface::Timetable;

// Writes what is sent in a slot, channel by channel, into the first places of the list.
fn write_line<T: Timetable>(table: &T, slot: u32, list: &mut [u16])
    requires room { (T.meaning table.now).channels ≤ length list.old }
    ensures line_in_front { list.new ≡ line (T.meaning table.now) slot ++ drop (T.meaning table.now).channels list.old }
{
    let (front, _) = list.split_at_mut(usize::from(table.channels()));
    for (place, page) in front.iter_mut().enumerate() {
        *page = table.page_at(place as u8 + 1, slot);
    }
}

impl<T: Timetable> Station<T> {
    // Goes on air with the clock at 0, where it is passed.
    pub fn air(&mut self) -> Result<(), Refusal>
        ensures airs_or_refuses { Is (airs (seen (T.meaning self.old.table) self.old)) (by_unit goes_on_air result) (seen (T.meaning self.new.table) self.new) }
    {
        match self.phase {
            Phase::Open => Err(Refusal::NotPassed),
            Phase::Passed => {
                self.phase = Phase::OnAir(0);
                Ok(())
            }
            Phase::OnAir(_) => Err(Refusal::OnAir),
        }
    }

    // Sends the slot that the clock shows: writes it into the list, channel by channel, and answers it. The clock goes on by one.
    pub fn tick(&mut self, list: &mut [u16]) -> Result<u32, Refusal>
        ensures ticks_or_refuses { Is (ticks (seen (T.meaning self.old.table) self.old) (length list.old)) (by_tick (T.meaning self.old.table).channels list.new result) (seen (T.meaning self.new.table) self.new) }
        ensures list_after { list.new ≡ written (by_tick (T.meaning self.old.table).channels list.new result) list.old }
    {
        let Phase::OnAir(clock) = self.phase else {
            return Err(Refusal::NotOnAir);
        };
        if list.len() < usize::from(self.table.channels()) {
            return Err(Refusal::ShortList);
        }
        let next = clock.checked_add(1).ok_or(Refusal::ClockFull)?;
        write_line(&self.sent(), clock, list);
        self.phase = Phase::OnAir(next);
        Ok(clock)
    }

    // Goes off air; the station is open then.
    pub fn withdraw(&mut self) -> Result<(), Refusal>
        ensures withdraws_or_refuses { Is (withdraws (seen (T.meaning self.old.table) self.old)) (by_unit withdrawn result) (seen (T.meaning self.new.table) self.new) }
    {
        if !self.is_on_air() {
            return Err(Refusal::NotOnAir);
        }
        self.phase = Phase::Open;
        Ok(())
    }
}
