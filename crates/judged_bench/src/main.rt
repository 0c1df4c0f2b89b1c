// judged_bench [FILE]: prints what is to be said of a plan file, with the judgement of its plan, or of standard input where no file is named.
#![tactic(auto)]

use console::{Reports, show, status};
use judged::lines::report;
use line::Line;
use std::alloc::{AllocError, Global};
use std::process::ExitCode;

struct Bench {}

impl Reports for Bench {
    fn report(heap: Global, bytes: &[u8]) -> Result<Vec<Line>, AllocError> {
        report(heap, bytes)
    }
}

fn main(rt: HostRuntime) -> ExitCode {
    status(&rt, show::<Bench, HostRuntime>(&rt, "judged_bench"))
}
