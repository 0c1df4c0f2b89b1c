// The check: whether a timetable serves every tune-in of a film, and which pages starve if not.
#![tactic(auto)]

pub mod checking;
pub mod findings;
mod range;
pub mod refusal;
mod sweep;
