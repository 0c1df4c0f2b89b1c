// Pagoda plans: from the numbers of a film to a timetable that starves nobody, or to a refusal.
#![tactic(auto)]

pub mod pagoda;
pub mod subchannel;
