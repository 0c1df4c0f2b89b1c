// The calls of a station as values, and what they answer.
use crate::refusal::Refusal;
use bag::finding::Finding;
use records::kinds::Closure;

// One of the calls, with what the caller hands in.
#[derive(Drop)]
pub enum Call {
    // Closes an entry.
    Close(Closure),
    // Opens an entry again, by a slip of this mark.
    Reopen(u32, Closure),
    // Checks what is sent, with this scratch.
    Check(Vec<u32>),
    // Tells what starves, with this scratch and a bag of so many places.
    Findings(Vec<u32>, usize),
    // Surveys what is sent, with this scratch.
    Survey(Vec<u32>),
    // Goes on air.
    Air,
    // Sends the next slot, into this list.
    Tick(Vec<u16>),
    // Goes off air.
    Withdraw,
}

// What a call answers that is granted.
#[derive(Drop)]
pub enum Answer {
    // The entry is closed; the slip had this mark.
    Closed(u32, Closure),
    // The entry is open again.
    Reopened,
    // The check passed.
    Passed,
    // What starves, in order.
    Found(Vec<Finding>),
    // The peak, and the first tune-in slot that reaches it.
    Surveyed(u16, u32),
    // The station is on air.
    OnAir,
    // What was sent in this slot, channel by channel.
    Ticked(u32, Vec<u16>),
    // The station is off air.
    Withdrawn,
}

// What a call answered, or why it was refused, with the memory that it was lent as it is afterwards.
#[derive(Drop)]
pub struct Reply {
    pub answer: Result<Answer, Refusal>,
    pub scratch: Vec<u32>,
    pub list: Vec<u16>,
}
