// A true board, whose bays hold their segments' records: it is accepted, its walk is the log's list, and segments may be recorded in any order.
// Theorems alone, in proofs/: no code stands here.
#![tactic(auto)]
