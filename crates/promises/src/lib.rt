// The three demands as theorems over the definitions that the calls' contracts cite: see proofs/. No code stands here.
#![tactic(auto)]
