// The one-pass rule over any marks: definitions in specs/, laws in proofs/. No code stands here.
#![tactic(auto)]
