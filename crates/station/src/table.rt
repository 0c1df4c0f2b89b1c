use arrayvec::ArrayVec;
use records::kinds::Closure;

mod calls;

// The most entries that a station keeps closed.
const MOST_CLOSED: usize = 64;

// The closed entries of a station, in the order in which they were closed.
#[derive(Drop)]
pub struct ClosureTable {
    entries: ArrayVec<Closure, MOST_CLOSED>,
}
