// Reading a plan file.
ghost use Rattle.std.specs.Prelude.{ℕ, MatchResult};
ghost use Rattle.format.specs.Answers.{Answers, OnlyAnswer, listed as parts_of};
ghost use Rattle.format.specs.Steps.{KindLength, Misfit, PartsAt, AfterFilm};

use crate::limits::*;
use crate::listed::*;
use crate::runs::read_run;
use codec::record::*;
use codec::scan::read_record;
use format::plan::*;
use records::fault::*;
use records::kinds::*;
use std::alloc::Global;

// The length of the body of a record of this kind, where there is such a kind.
// Kept so: the fixed file format numbers the kinds.
fn length_of_kind(kind: u8) -> Option<usize>
    ensures is_kind_length { KindLength kind result }
{
    match kind {
        End::KIND => Some(End::LENGTH),
        Film::KIND => Some(Film::LENGTH),
        Channel::KIND => Some(Channel::LENGTH),
        Row::KIND => Some(Row::LENGTH),
        Leaf::KIND => Some(Leaf::LENGTH),
        Inner::KIND => Some(Inner::LENGTH),
        Closure::KIND => Some(Closure::LENGTH),
        _ => None,
    }
}

// What is wrong at `at`, where no record that begins there is in its place.
fn misfit(bytes: &[u8], at: usize) -> Fault
    ensures is_wrong { Misfit bytes.now at result }
{
    if at >= bytes.len() {
        return Fault::CutShort(at);
    }
    let Some(length) = length_of_kind(bytes[at]) else {
        return Fault::UnknownKind(at);
    };
    if bytes.len() - at - 1 < length {
        Fault::CutShort(at)
    } else {
        Fault::OutOfPlace(at)
    }
}

// The plan records, all of one sort, that begin at `at`, and where they end.
// Kept so: each sort has a type, a limit and a case of its own, and a trait that tells the three is longer than the three readings.
fn read_parts(heap: Global, bytes: &[u8], at: usize) -> Result<(Parts, usize), Fault>
    ensures reads_one_sort { MatchResult result (λ p. PartsAt bytes.now at p.1 (parts_of p.0)) (AfterFilm bytes.now at) }
{
    let (channels, end) = read_run::<Channel>(heap, bytes, at, MOST_CHANNELS)?;
    if !channels.is_empty() {
        return Ok((Parts::Pagoda(channels), end));
    }
    let (rows, end) = read_run::<Row>(heap, bytes, at, MOST_ROWS)?;
    if !rows.is_empty() {
        return Ok((Parts::Rows(rows), end));
    }
    let (nodes, end) = read_run::<Node>(heap, bytes, at, MOST_NODES)?;
    if !nodes.is_empty() {
        return Ok((Parts::Tree(nodes), end));
    }
    Err(misfit(bytes, at))
}

// The plan that a file holds, or the first fault that it has.
// Kept so: `no_other_answer` of the function below follows from `answers` alone; here it would be proved at each of the nine returns, in place of once.
fn parse_plan(heap: Global, bytes: &[u8]) -> Result<Plan, Fault>
    ensures answers { Answers bytes.now result }
{
    if bytes.len() > MOST_BYTES {
        return Err(Fault::TooLong);
    }
    let (film, after_film) = read_record::<Film>(bytes, 0)?.ok_or_else(
        ||
            ensures is_wrong { Misfit bytes.entry.now 0 result }
        { misfit(bytes, 0) },
    )?;
    let (parts, after_parts) = read_parts(heap, bytes, after_film)?;
    let (closures, after_closures) = read_run::<Closure>(heap, bytes, after_parts, MOST_CLOSURES)?;
    let (End {}, after_end) = read_record::<End>(bytes, after_closures)?.ok_or_else(
        ||
            ensures is_wrong { Misfit bytes.entry.now after_closures result }
        { misfit(bytes, after_closures) },
    )?;
    if after_end < bytes.len() {
        return Err(Fault::AfterEnd(after_end));
    }
    Ok(Plan {
        film,
        parts,
        closures,
    })
}

// The same, and no answer but that one is right.
pub fn read_plan(heap: Global, bytes: &[u8]) -> Result<Plan, Fault>
    ensures answers { Answers bytes.now result }
    ensures no_other_answer { OnlyAnswer bytes.now result }
{
    parse_plan(heap, bytes)
}
