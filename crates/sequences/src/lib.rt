// Free sequences of slots, and the order in which pages take them.
#![tactic(auto)]

pub mod sequence;
