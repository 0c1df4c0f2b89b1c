// Bags: records in memory that the caller lends, put in any order and taken out the first one first.
#![tactic(auto)]

pub mod bag;
pub mod draining;
pub mod finding;
pub mod ranked;
