// Runs the figures and the refusals of cut sheets. Its stdout is written by hand from document 01.
#![tactic(auto)]

mod sheets;

use std::io;

fn main(rt: HostRuntime) -> io::Result<()> {
    sheets::run(&rt)
}
