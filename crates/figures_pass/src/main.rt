// Runs the figures and the refusals of the single pass. Its stdout is written by hand from document 01.
#![tactic(auto)]

mod carries;
mod passes;

use std::io;

fn main(rt: HostRuntime) -> io::Result<()> {
    passes::run(&rt)?;
    carries::run(&rt)
}
