ghost use Rattle.std.specs.Prelude.{◌*◌, ◌≤◌, length};
ghost use Rattle.survey.specs.Surveys.{Airable, PeakOf};

use crate::{arrivals, comings};
use timetable::interface::Timetable;

// The greatest peak of all tune-ins, and the first slot that reaches it.
pub(crate) fn greatest_peak<T: Timetable>(
    table: &T,
    delay: u16,
    film: u16,
    cells: &mut [u32],
) -> (u16, u32)
    requires short { (T.meaning table.now).period ≤ 4096 }
    requires room { 2 * film ≤ length cells.old }
    ensures surveyed { Airable (T.meaning table.now) delay film
        → PeakOf (T.meaning table.now) delay film result.0 result.1 }
{
    let (nexts, rest) = cells.split_at_mut(usize::from(film));
    let (arrivals, _) = rest.split_at_mut(usize::from(film));
    let period = table.period();
    let end = period + u32::from(delay) + u32::from(film);
    nexts.fill(end);
    for after in (period..end).rev() {
        comings::note_slot(table, nexts, after);
    }
    let mut best = 0;
    let mut first = 0;
    for slot in (0..period).rev() {
        comings::note_slot(table, nexts, slot);
        let peak = arrivals::peak_from(nexts, arrivals, delay, slot);
        if peak >= best {
            best = peak;
            first = slot;
        }
    }
    (best, first)
}
