// Timetables: which page each channel carries in each slot, over and over.
#![tactic(auto)]

pub mod aired;
pub mod grid;
pub mod interface;
pub mod turns;
