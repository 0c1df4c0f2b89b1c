// Writing a plan that can be loaded again.
ghost use Rattle.load.specs.Saving.{Saved};

use crate::fault::*;
use crate::loading::load;
use format::plan::Plan;
use planwriter::writer::{plan_bytes, put_bytes};
use std::alloc::Global;

// Writes a plan to the beginning of `out`, and answers how many bytes it took. What loading would refuse is not written, and then `out` stays as it was.
pub fn save(heap: Global, plan: &Plan, out: &mut [u8]) -> Result<usize, SaveFault>
    ensures saves_or_refuses { Saved plan.now out.old out.new result }
{
    let bytes = plan_bytes(heap, plan)?;
    load(heap, bytes.as_slice())?;
    let length = put_bytes(bytes.as_slice(), out).ok_or(SaveFault::NoRoom)?;
    Ok(length)
}
