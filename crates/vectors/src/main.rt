// Reads plan files written as hexadecimal text, one to a line, and prints what the bench would print of each.
#![tactic(auto)]

use console::{Reports, show_cases};
use line::Line;
use report::lines::report;
use std::alloc::{AllocError, Global};

struct Vectors {}

impl Reports for Vectors {
    fn report(heap: Global, bytes: &[u8]) -> Result<Vec<Line>, AllocError> {
        report(heap, bytes)
    }
}

fn main(rt: HostRuntime) -> anyhow::Result<()> {
    show_cases::<Vectors, HostRuntime>(&rt)
}
