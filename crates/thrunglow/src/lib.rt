// The calls of the library for C and Rust, exported as `thrunglow_NAME`. Nothing is decided here: each export answers what its call
// answers, as structs by value with document 01's number in front (0 for a success).
#![tactic(auto)]

pub mod amends;
pub mod answers;
pub mod passes;
pub mod segments;
pub mod sheets;
pub mod whole;
