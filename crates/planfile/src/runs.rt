// Lists of records in a plan file.
ghost use Rattle.std.specs.Prelude.{◌≡◌, ◌++◌, map, MatchResult};
ghost use Rattle.format.specs.Format.{encoded};
ghost use Rattle.format.specs.Runs.{Run, RunFault, Unappended};

use crate::limits::MOST_BYTES;
use crate::listed::Listed;
use records::fault::*;
use std::alloc::Global;

// All records of one sort from `start` on, at most `most` of them, and where they end.
pub fn read_run<L: Listed + Drop>(
    heap: Global,
    bytes: &[u8],
    start: usize,
    most: usize,
) -> Result<(Vec<L>, usize), Fault>
    ensures reads_all { MatchResult result (λ p. Run L.Listed.item bytes.now start most p.1 p.0.items) (RunFault L.Listed.item bytes.now start most) }
{
    let mut all = Vec::new(heap);
    let mut at = start;
    while let Some((one, next)) = L::read_at(bytes, at)? {
        if all.len() >= most {
            return Err(Fault::OutOfPlace(at));
        }
        all.push(one)?;
        at = next;
    }
    Ok((all, at))
}

// Appends records one after the other, and stops where the bytes are more than any file has.
pub fn append_run<L: Listed>(items: &[L], out: &mut Vec<u8>) -> Result<(), Fault>
    ensures appends_all { MatchResult result (λ _. out.new.items ≡ out.old.items ++ encoded (map L.Listed.item items.now)) (Unappended (out.old.items ++ encoded (map L.Listed.item items.now))) }
{
    for item in items {
        item.append_to(out)?;
        if out.len() > MOST_BYTES {
            return Err(Fault::TooLong);
        }
    }
    Ok(())
}
