// Writing plan files.
#![tactic(auto)]

pub mod writer;
