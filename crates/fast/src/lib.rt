// Fast plans: from a number of channels to a timetable that starves nobody, or to a refusal.
#![tactic(auto)]

pub mod fast;
