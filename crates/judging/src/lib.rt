// What is said of a plan: whether it passes a check, what starves, and how much a receiver has to hold.
#![tactic(auto)]

pub mod judge;
mod script;
mod telling;
