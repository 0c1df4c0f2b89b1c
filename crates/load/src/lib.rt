// From a plan file to a plan that can be sent: what is read is planned, and its closures are judged.
#![tactic(auto)]

mod closing;
pub mod fault;
pub mod loading;
pub mod saving;
