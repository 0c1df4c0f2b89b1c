// Plan files: what a plan is in memory, and why one is not written. The format itself is defined in specs/, and proofs/
// shows that a file holds one plan at most.
#![tactic(auto)]

pub mod fault;
pub mod plan;
