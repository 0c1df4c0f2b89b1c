// A rehearsal: any list of calls on a station that is just built, and a receiver that is fed what is sent.
ghost use Rattle.std.specs.Prelude.{◌≡◌, if◌then◌else◌, MatchResult};
ghost use Rattle.runs.specs.Rehearsals.{Rehearsed};

use crate::lines::lines_after;
use crate::performing::perform_all;
use crate::rehearsal::{Rehearsal, Script, Viewer};
use feeding::feed;
use station::call::Call;
use station::station::Station;
use std::alloc::{AllocError, Global};
use timetable::interface::Timetable;

// Kept so: as an `if` in `rehearse` it would keep the other list, with the memory that its calls hold, until the whole run is made.
// One of two lists of calls; the other is let go here.
fn chosen(first: bool, one: Vec<Call>, other: Vec<Call>) -> Vec<Call>
    ensures one_or_other { result.items ≡ (if first then one.items else other.items) }
{
    if first { one } else { other }
}

// Builds a station over a timetable, makes the calls of a script on it, and feeds a receiver what was sent. Without memory for
// that, nothing is answered and the store stays as it was.
// Kept so: delay, pages, table and mark are those of `Station::new`; a struct for them would be taken apart in the first line.
pub fn rehearse<T: Timetable + Drop>(
    heap: Global,
    delay: u16,
    pages: u16,
    table: T,
    mark: u32,
    script: Script,
    viewer: Viewer,
    store: &mut [u8],
) -> Result<Rehearsal, AllocError>
    ensures guarantee { MatchResult result (λ v. Rehearsed (T.meaning table) delay pages mark script viewer store.old v store.new) (λ _. store.new ≡ store.old) }
{
    let Script {
        opening,
        passed,
        otherwise,
    } = script;
    let mut station = Station::new(delay, pages, table, mark);
    let mut replies = Vec::new(heap);
    perform_all(heap, &mut station, opening, &mut replies)?;
    let rest = chosen(station.is_passed(), passed, otherwise);
    perform_all(heap, &mut station, rest, &mut replies)?;
    let lines = lines_after(heap, replies.as_slice(), viewer.tick)?;
    let viewing = feed(heap, delay, pages, viewer.capacity, store, lines.as_slice())?;
    Ok(Rehearsal { replies, viewing })
}
