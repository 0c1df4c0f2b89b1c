// Reading plan files, and lists of records in them.
#![tactic(auto)]

pub mod limits;
pub mod listed;
pub mod reader;
pub mod runs;
