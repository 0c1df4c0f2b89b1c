// The plain records that plans are made of, and the faults of a file that holds them.
#![tactic(auto)]

pub mod fault;
pub mod kinds;
