ghost use Rattle.std.specs.Prelude.{◌≡◌};
ghost use Rattle.station.specs.States.{seen, fresh, sent_by, on_air};
ghost use Rattle.timetable.specs.Closed.{aired};

use crate::phase::Phase;
use crate::table::ClosureTable;
use timetable::aired::Aired;
use timetable::interface::Timetable;

mod airing;
mod checking;
mod closing;
mod performing;

// A timetable that sends a film of so many pages with such a delay, and the entries of it that are closed. The mark is the
// number of the house.
// Kept so: the clauses name the state as `seen (T.meaning s.table) s`: a model's Value has to be data with a code, and a timetable's meaning holds functions.
#[derive(Drop)]
pub struct Station<T> {
    delay: u16,
    pages: u16,
    mark: u32,
    table: T,
    phase: Phase,
    closures: ClosureTable,
}

impl<T: Timetable> Station<T> {
    // A station with nothing closed, which is not checked yet.
    pub fn new(delay: u16, pages: u16, table: T, mark: u32) -> Station<T>
        ensures is_fresh { seen (T.meaning result.table) result ≡ fresh (T.meaning table) delay pages mark }
    {
        Station {
            delay,
            pages,
            mark,
            table,
            phase: Phase::Open,
            closures: ClosureTable::none(),
        }
    }

    // What the station sends: its timetable, and silence where an entry is closed.
    fn sent(&self) -> Aired<'_, T>
        ensures airs_open_entries { aired (T.meaning result.table.now) result.closed.now ≡ sent_by (seen (T.meaning self.now.table) self.now) }
        ensures same_table { result.table.now ≡ self.now.table }
    {
        Aired {
            table: &self.table,
            closed: self.closures.closed(),
        }
    }

    fn is_on_air(&self) -> bool
        ensures by_phase { result ≡ on_air self.now.phase }
    {
        matches!(self.phase, Phase::OnAir(_))
    }
}
