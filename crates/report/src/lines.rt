// The lines on a plan file.
ghost use Rattle.report.specs.Reports.{Told, Untold, FaultLine, Reported};
ghost use Rattle.std.specs.Prelude.{◌≡◌, IfOk, MatchResult, Ok as Given};

use crate::fault::*;
use line::Line;
use load::loading::load;
use std::alloc::{AllocError, Global};
use timetable::interface::Timetable;

// The lines on a file that holds a plan.
fn plan_lines(heap: Global, bytes: &[u8]) -> Result<Vec<Line>, ReportFault>
    ensures tells_the_plan { MatchResult result (λ v. Told bytes.now v.items) (Untold bytes.now) }
{
    let loaded = load(heap, bytes)?;
    let film = loaded.film;
    Ok(vec![in heap;
        Line::Film(film.delay, film.pages, film.channels),
        Line::Period(loaded.schedule.period()),
        Line::Wait(film.delay),
    ]?)
}

// The one line on a fault, unless it is want of memory.
fn fault_line(heap: Global, fault: ReportFault) -> Result<Vec<Line>, AllocError>
    ensures tells_the_fault { IfOk result (λ v. FaultLine fault v.items) }
{
    match fault {
        ReportFault::Memory => Err(AllocError),
        ReportFault::Loading(loading) => {
            let (number, byte, lower) = loading.numbers().ok_or(AllocError)?;
            Ok(vec![in heap; Line::Fault(number, byte, lower)]?)
        }
    }
}

// The lines of a plan, or, where it has none, the one line on its fault.
pub fn or_fault_line(
    heap: Global,
    lines: Result<Vec<Line>, ReportFault>,
) -> Result<Vec<Line>, AllocError>
    ensures lines_or_fault { MatchResult lines (λ v. result ≡ Given v) (λ fault. IfOk result (λ v. FaultLine fault v.items)) }
{
    lines.or_else(|fault| fault_line(heap, fault))
}

// The lines on a file: of the plan that it holds, or of its one fault.
pub fn report(heap: Global, bytes: &[u8]) -> Result<Vec<Line>, AllocError>
    ensures reports { IfOk result (λ v. Reported bytes.now v.items) }
{
    or_fault_line(heap, plan_lines(heap, bytes))
}
