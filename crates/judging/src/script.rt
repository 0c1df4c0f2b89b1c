// The calls that judge a plan.
ghost use Rattle.std.specs.Prelude.{◌≡◌, ◌*◌, [], ◌∷◌, ◌++◌, map, length, IfOk};
ghost use Rattle.judging.specs.Telling.{Cells, Scripted};
ghost use Rattle.station.specs.declared.call.Call.TheVariants.{Close as CloseCall};

use records::kinds::Closure;
use runs::rehearsal::Script;
use station::call::Call;
use std::alloc::{AllocError, Global};

// Scratch with two cells a page.
fn cells(heap: Global, pages: u16) -> Result<Vec<u32>, AllocError>
    ensures two_a_page { IfOk result (λ v. Cells pages v) }
{
    Vec::from_elem(heap, 0u32, 2 * usize::from(pages))
}

// Books each closure.
fn bookings(heap: Global, closures: &[Closure]) -> Result<Vec<Call>, AllocError>
    ensures closes_each { IfOk result (λ v. v.items ≡ map CloseCall closures.now) }
{
    closures
        .iter()
        .map(|closure| Call::Close(*closure))
        .collect(heap)
}

// Books each closure and checks; then surveys what passes, and has what starves found where it does not.
pub(crate) fn script_of(
    heap: Global,
    pages: u16,
    closures: &[Closure],
) -> Result<Script, AllocError>
    ensures judging_calls { IfOk result (λ script. Scripted pages closures.now script) }
{
    let mut opening = bookings(heap, closures)?;
    opening.push(Call::Check(cells(heap, pages)?))?;
    let passed = vec![in heap; Call::Survey(cells(heap, pages)?)]?;
    let otherwise = vec![in heap; Call::Findings(cells(heap, pages)?, usize::from(pages))]?;
    Ok(Script {
        opening,
        passed,
        otherwise,
    })
}
