// From the records of a plan to a timetable, of whichever sort they are.
#![tactic(auto)]

pub mod planning;
pub mod schedule;
