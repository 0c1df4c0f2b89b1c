// The lines on a plan file.
ghost use Rattle.judged.specs.Reports.{Told, Reported};
ghost use Rattle.report.specs.Reports.{Untold, FaultLine};
ghost use Rattle.std.specs.Prelude.{IfOk, MatchResult};

use judging::judge::judge;
use line::Line;
use load::loading::{Loaded, load};
use report::fault::*;
use std::alloc::{AllocError, Global};
use timetable::interface::Timetable;

// The lines on a file that holds a plan.
fn plan_lines(heap: Global, bytes: &[u8]) -> Result<Vec<Line>, ReportFault>
    ensures tells_the_plan { MatchResult result (λ v. Told bytes.now v.items) (Untold bytes.now) }
{
    let Loaded {
        film,
        schedule,
        closures,
    } = load(heap, bytes)?;
    let mut lines = vec![in heap;
        Line::Film(film.delay, film.pages, film.channels),
        Line::Period(schedule.period()),
    ]?;
    let judged = judge(heap, film.delay, film.pages, schedule, closures.as_slice())?;
    lines.extend_from_slice(judged.as_slice())?;
    lines.push(Line::Wait(film.delay))?;
    Ok(lines)
}

// Kept so: with the report crate's `or_fault_line` in its place, a must-fail edit that tells another byte has to take the finished line apart, and is refused for that form and not for the byte.
// The one line on a fault, unless it is want of memory.
fn fault_line(heap: Global, fault: ReportFault) -> Result<Vec<Line>, AllocError>
    ensures tells_the_fault { IfOk result (λ v. FaultLine fault v.items) }
{
    match fault {
        ReportFault::Memory => Err(AllocError),
        ReportFault::Loading(loading) => {
            let (number, byte, lower) = loading.numbers().ok_or(AllocError)?;
            Ok(vec![in heap; Line::Fault(number, byte, lower)]?)
        }
    }
}

// The lines on a file: of the plan that it holds, or of its one fault.
pub fn report(heap: Global, bytes: &[u8]) -> Result<Vec<Line>, AllocError>
    ensures reports { IfOk result (λ v. Reported bytes.now v.items) }
{
    plan_lines(heap, bytes).or_else(|fault| fault_line(heap, fault))
}
