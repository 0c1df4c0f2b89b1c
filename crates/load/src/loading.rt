// Loading a plan file.
ghost use Rattle.load.specs.Loading.{Loads, LoadRefused};
ghost use Rattle.load.specs.Told.{told_load};
ghost use Rattle.std.specs.Result.{MatchResult};

use crate::closing::judge_all;
use crate::fault::*;
use codec::record::Record;
use format::plan::Plan;
use planfile::reader::read_plan;
use records::kinds::{Closure, Film};
use schedule::planning::schedule_of;
use schedule::schedule::Schedule;
use std::alloc::Global;
use timetable::interface::Timetable;

// A plan that can be sent: the film, its timetable, and the entries that are closed.
#[derive(Drop)]
pub struct Loaded {
    pub film: Film,
    pub schedule: Schedule,
    pub closures: Vec<Closure>,
}

// The bytes of a closure's record.
const CLOSURE_BYTES: usize = 1 + Closure::LENGTH;

// The plan that a file holds, with its timetable, or the first fault of the file, of the plan or of a closure.
pub fn load(heap: Global, bytes: &[u8]) -> Result<Loaded, LoadFault>
    ensures loads_or_refuses { MatchResult result (Loads bytes.now) (λ f. LoadRefused bytes.now (told_load f).0 (told_load f).1) }
{
    let Plan {
        film,
        parts,
        closures,
    } = read_plan(heap, bytes)?;
    let schedule = schedule_of(heap, film, parts)?;
    // Kept so: in `map_err` with a closure and `?` the proof did not close (the subtractions in the closure, and the fault it leaves).
    if let Err((index, fault)) = judge_all(closures.as_slice(), film.channels, schedule.period()) {
        let byte = bytes.len() - 1 - CLOSURE_BYTES * (closures.len() - index);
        return Err(LoadFault::Closing(byte, fault));
    }
    Ok(Loaded {
        film,
        schedule,
        closures,
    })
}
