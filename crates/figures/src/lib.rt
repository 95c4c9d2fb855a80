// What the programs that run the figures share: the logs of document 01, and lines of text.
#![tactic(auto)]

pub mod logs;
pub mod show;
