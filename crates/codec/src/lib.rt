// Records as bytes: how each kind is read from a file, and how it is written.
#![tactic(auto)]

pub mod record;
pub mod scan;
