// The station: a timetable with its closed entries, checked before it goes on air.
#![tactic(auto)]

pub mod call;
pub mod phase;
pub mod refusal;
pub mod slip;
pub mod station;
mod table;
