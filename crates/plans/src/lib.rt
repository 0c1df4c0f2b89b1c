// What every planner needs: the refusals, and the period of a plan.
#![tactic(auto)]

pub mod period;
pub mod refusal;
