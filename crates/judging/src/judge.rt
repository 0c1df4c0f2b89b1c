// The judgement of a plan, by a rehearsal of it.
ghost use Rattle.std.specs.Prelude.{IfOk};
ghost use Rattle.timetable.specs.Closed.{aired};
ghost use Rattle.timetable.specs.Windows.{InRange};
ghost use Rattle.judging.specs.Judgements.{Bookable, Judgement};
ghost use Rattle.judging.specs.Telling.{Tells};

use crate::script::script_of;
use crate::telling::lines_of;
use line::Line;
use records::kinds::Closure;
use runs::rehearsal::Viewer;
use runs::rehearse::rehearse;
use std::alloc::{AllocError, Global};
use timetable::interface::Timetable;

// The mark of the station that judges.
const MARK: u32 = 0;

// What is said of a film of so many pages with such a delay over a timetable of which some entries are closed: the check, what
// starves where it does not pass, and how much a receiver has to hold where it does.
pub fn judge<T: Timetable + Drop>(
    heap: Global,
    delay: u16,
    pages: u16,
    table: T,
    closures: &[Closure],
) -> Result<Vec<Line>, AllocError>
    ensures tells_the_run { IfOk result (λ v. Tells (T.meaning table) delay pages closures.now v.items) }
    ensures judges { IfOk result (λ v. Bookable (T.meaning table) closures.now → InRange (T.meaning table) delay pages → Judgement (aired (T.meaning table) closures.now) delay pages v.items) }
{
    let script = script_of(heap, pages, closures)?;
    let mut store = Vec::from_elem(heap, 0u8, usize::from(pages))?;
    let viewer = Viewer {
        tick: 0,
        capacity: pages,
    };
    let rehearsal = rehearse(
        heap,
        delay,
        pages,
        table,
        MARK,
        script,
        viewer,
        store.as_mut_slice(),
    )?;
    lines_of(heap, rehearsal.replies.as_slice())
}
