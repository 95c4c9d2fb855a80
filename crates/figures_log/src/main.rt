// Runs the figures and the refusals of the whole log and amending. Its stdout is written by hand from document 01.
#![tactic(auto)]

mod amends;
mod whole;

use std::io;

fn main(rt: HostRuntime) -> io::Result<()> {
    whole::run(&rt)?;
    amends::run(&rt)
}
