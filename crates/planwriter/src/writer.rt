// Writing a plan file.
ghost use Rattle.std.specs.Prelude.{◌≡◌, ◌++◌, map, MatchResult};
ghost use Rattle.format.specs.Answers.{file_of, listed as parts_of};
ghost use Rattle.format.specs.Format.{encoded};
ghost use Rattle.format.specs.Items.{part};
ghost use Rattle.format.specs.Runs.{Unappended};
ghost use Rattle.format.specs.Writing.{PutAll, Written, ReadsBack, WritesBack};

use codec::record::*;
use codec::scan::append_record;
use format::fault::*;
use format::plan::*;
use planfile::listed::*;
use planfile::reader::read_plan;
use planfile::runs::append_run;
use records::fault::*;
use records::kinds::*;
use std::alloc::Global;

// Appends the plan records.
fn append_parts(parts: &Parts, out: &mut Vec<u8>) -> Result<(), Fault>
    ensures appends_all { MatchResult result (λ _. out.new.items ≡ out.old.items ++ encoded (map part (parts_of parts.now))) (Unappended (out.old.items ++ encoded (map part (parts_of parts.now)))) }
{
    match parts {
        Parts::Pagoda(channels) => append_run(channels.as_slice(), out),
        Parts::Rows(rows) => append_run(rows.as_slice(), out),
        Parts::Tree(nodes) => append_run(nodes.as_slice(), out),
    }
}

// The bytes of a plan. They may be more than a file may have: then they are not made.
pub fn plan_bytes(heap: Global, plan: &Plan) -> Result<Vec<u8>, Fault>
    ensures makes_the_bytes { MatchResult result (λ v. v.items ≡ file_of plan.now) (Unappended (file_of plan.now)) }
{
    let mut out = Vec::new(heap);
    append_record(&plan.film, &mut out)?;
    append_parts(&plan.parts, &mut out)?;
    append_run(plan.closures.as_slice(), &mut out)?;
    append_record(&End {}, &mut out)?;
    Ok(out)
}

// Puts bytes at the beginning of a list and answers how many they are, or changes nothing where the list is shorter.
pub fn put_bytes(bytes: &[u8], out: &mut [u8]) -> Option<usize>
    ensures puts_all_or_nothing { PutAll bytes.now out.old out.new result }
{
    let (front, _) = out.split_at_mut_checked(bytes.len())?;
    front.copy_from_slice(bytes);
    Some(bytes.len())
}

// Writes a plan to the beginning of `out`, and answers how many bytes it took. What reading would refuse is not written, and then `out` stays as it was.
// Kept so: one function for this and the load crate's `save` would take the reading as a closure, and a public function must ask its callers then that the closure may be called.
pub fn write_plan(heap: Global, plan: &Plan, out: &mut [u8]) -> Result<usize, WriteFault>
    ensures writes { Written plan.now out.old out.new result }
    ensures reads_back { ReadsBack plan.now out.new result }
    ensures writes_back { WritesBack plan.now out.old out.new result }
{
    let bytes = plan_bytes(heap, plan)?;
    read_plan(heap, bytes.as_slice())?;
    let length = put_bytes(bytes.as_slice(), out).ok_or(WriteFault::NoRoom)?;
    Ok(length)
}
