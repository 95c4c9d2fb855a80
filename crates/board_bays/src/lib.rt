// Segments of a log, and the board: its shape, and whether its bays are done and not malformed.
#![tactic(auto)]

pub mod judging;
pub mod reading;
pub mod segments;
pub mod shapes;
