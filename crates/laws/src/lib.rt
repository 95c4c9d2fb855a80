// Laws of numbers and lists that the kit lacks and several crates cite. No code stands here: see proofs/.
#![tactic(auto)]
