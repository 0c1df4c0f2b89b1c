// The nodes of a tree plan: what they carry, and the period that they have.
#![tactic(auto)]

pub mod period;
