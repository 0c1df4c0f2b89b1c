// The check of a timetable.
ghost use Rattle.std.specs.Prelude.{◌≡◌, length, replicate};
ghost use Rattle.checker.specs.Judged.{Judged, verdict_of};

use crate::range::{Asked, begin};
use crate::refusal::CheckRefusal;
use crate::sweep::{Swept, sweep};
use scratch::Scratch;
use timetable::interface::Timetable;

// Whether no entry of the timetable lies beyond the film and no tune-in starves, in whatever slot; or the first reason why not.
pub fn check<T: Timetable>(
    table: &T,
    delay: u16,
    pages: u16,
    scratch: &mut [u32],
) -> Result<(), CheckRefusal>
    ensures judges { Judged (T.meaning table.now) delay pages (length scratch.old) (verdict_of result) }
    ensures scratch_zeroed { scratch.new ≡ replicate (length scratch.old) 0 }
{
    let guard = Scratch { cells: scratch };
    let film = Asked { delay, pages };
    let end = begin(table, film, guard.cells)?;
    sweep(table, film, end, pages, guard.cells)?;
    let swept = Swept {
        cells: guard.cells,
        film,
        end,
    };
    match swept.lowest() {
        Some(finding) => Err(CheckRefusal::Starves(finding)),
        None => Ok(()),
    }
}
