// From the records of a plan to its timetable.
ghost use Rattle.schedule.specs.Planning.{PagodaAnswered, Scheduled};

use crate::schedule::Schedule;
use format::plan::Parts;
use nodes::period::tree_period;
use planner::pagoda::Pagoda;
use plans::refusal::Refusal;
use records::kinds::{Channel, Film};
use rows::period::rows_period;
use rows::rows::Rows;
use std::alloc::Global;
use tree::plan::Tree;

// The pagoda plan of a film, which has to have as many channels and pages as the film.
fn pagoda_of(heap: Global, film: Film, channels: &[Channel]) -> Result<Pagoda, Refusal>
    ensures plans_or_refuses { PagodaAnswered film channels.now result }
{
    if channels.len() != usize::from(film.channels) {
        return Err(Refusal::OutOfRange);
    }
    let plan = Pagoda::plan(heap, film.delay, channels)?;
    if plan.pages() != film.pages {
        return Err(Refusal::OutOfRange);
    }
    Ok(plan)
}

// The timetable of a film's plan records, of whichever sort they are.
pub fn schedule_of(heap: Global, film: Film, parts: Parts) -> Result<Schedule, Refusal>
    ensures plans_or_refuses { Scheduled film parts result }
{
    if !film.is_in_range() {
        return Err(Refusal::OutOfRange);
    }
    let channels = film.channels;
    match parts {
        Parts::Pagoda(list) => Ok(Schedule::Pagoda(pagoda_of(heap, film, list.as_slice())?)),
        Parts::Rows(rows) => {
            let period = rows_period(rows.as_slice())?;
            Ok(Schedule::Rows(Rows {
                rows,
                channels,
                period,
            }))
        }
        Parts::Tree(nodes) => {
            let period = tree_period(heap, nodes.as_slice(), channels)?;
            Ok(Schedule::Tree(Tree {
                nodes,
                channels,
                period,
            }))
        }
    }
}
