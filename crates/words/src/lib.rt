// Bytes that stand for something: big-endian numbers of any width, and runs of bytes that are compared.
#![tactic(auto)]

pub mod numbers;
pub mod runs;
