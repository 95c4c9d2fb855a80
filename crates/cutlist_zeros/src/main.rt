// The program cutlist, held to what it prints for 70,000 zero bytes: a program is held to one input, so this is a twin of the crate cutlist.
#![tactic(auto)]

fn main(rt: HostRuntime) {
    cutlist_program::list_input(&rt, &mut rt.stdin());
}
