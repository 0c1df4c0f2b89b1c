// Calls on a station, one after the other.
ghost use Rattle.std.specs.Prelude.{OnOk};
ghost use Rattle.runs.specs.Rehearsals.{Performs};
ghost use Rattle.station.specs.States.{seen};

use station::call::{Call, Reply};
use station::station::Station;
use std::alloc::{AllocError, Global};
use timetable::interface::Timetable;

// Makes the calls in order, and notes the replies after those that there are.
pub(crate) fn perform_all<T: Timetable>(
    heap: Global,
    station: &mut Station<T>,
    calls: Vec<Call>,
    replies: &mut Vec<Reply>,
) -> Result<(), AllocError>
    ensures performs_all { OnOk result (Performs (seen (T.meaning station.old.table) station.old) calls.items replies.old.items replies.new.items (seen (T.meaning station.new.table) station.new)) }
{
    for call in calls {
        replies.push(station.perform(heap, call)?)?;
    }
    Ok(())
}
