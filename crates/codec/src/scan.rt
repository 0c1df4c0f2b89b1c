// One record, of whichever kind: the generic text by which each kind is read and written.
ghost use Rattle.std.specs.Prelude.{◌≡◌, ◌∷◌, ◌++◌, is_ok, if◌then◌else◌};
ghost use Rattle.records.specs.Places.{Found};

use crate::record::Record;
use records::fault::*;
use std::alloc::AllocError;

// The record of kind R that begins at `at`, with the place where the next one begins, or `None` where no record of that kind begins there.
pub fn read_record<R: Record>(bytes: &[u8], at: usize) -> Result<Option<(R, usize)>, Fault>
    ensures finds { Found R.Record.KIND R.Record.LENGTH R.Record.body bytes.now at result }
{
    if at >= bytes.len() || bytes[at] != R::KIND {
        return Ok(None);
    }
    if bytes.len() - at - 1 < R::LENGTH {
        return Err(Fault::CutShort(at));
    }
    let next = at + 1 + R::LENGTH;
    let record = R::from_body(&bytes[at + 1..next]).ok_or(Fault::CutShort(at))?;
    Ok(Some((record, next)))
}

// Appends a record, its kind byte and its body, or nothing where there is no memory for it.
pub fn append_record<R: Record>(item: &R, out: &mut Vec<u8>) -> Result<(), AllocError>
    ensures appends_all_or_nothing { out.new.items ≡ (if is_ok result then out.old.items ++ (R.Record.KIND ∷ R.Record.body item.now) else out.old.items) }
{
    let length = out.len();
    out.push(R::KIND)?;
    if let Err(e) = item.append_body(out) {
        out.truncate(length);
        return Err(e);
    }
    Ok(())
}
