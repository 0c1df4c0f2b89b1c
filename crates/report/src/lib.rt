// What the bench prints of a plan file, as values.
#![tactic(auto)]

pub mod fault;
pub mod lines;
