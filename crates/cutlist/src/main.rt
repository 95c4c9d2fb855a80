// Prints the cuts of standard input. Here it is held to an input over several blocks; a program is held to one input, so it has three twins.
#![tactic(auto)]

fn main(rt: HostRuntime) {
    cutlist_program::list_input(&rt, &mut rt.stdin());
}
