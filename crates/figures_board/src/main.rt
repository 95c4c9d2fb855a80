// Runs the figures and the refusals of segments and merging. Its stdout is written by hand from document 01.
#![tactic(auto)]

mod merges;
mod segments;

use std::io;

fn main(rt: HostRuntime) -> io::Result<()> {
    segments::run(&rt)?;
    merges::run(&rt)
}
