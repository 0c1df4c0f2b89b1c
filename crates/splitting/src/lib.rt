// Plans by splitting: each page takes a share of a free sequence of slots, and the rest of the sequence stays free.
#![tactic(auto)]

pub mod planner;
