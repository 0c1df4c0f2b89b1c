// Runs: a station meets a list of calls, side by side with a receiver, and what holds of every such run.
#![tactic(auto)]

mod lines;
mod performing;
pub mod rehearsal;
pub mod rehearse;
