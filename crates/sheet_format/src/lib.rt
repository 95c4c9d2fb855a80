// The form of a cut sheet: its trailer each way, its body, its check word, and the judging of bytes that end with one. What writes or
// reads sheets stands on this.
#![tactic(auto)]

pub mod body;
pub mod check;
pub mod judging;
pub mod sealing;
pub mod trailer;
