// The verdict on a log: which reads of it are legal, as one answer for a program in Rust and as one number for the
// station firmware, which is C and hands over the bytes of the log.
#![tactic(auto)]

pub mod firmware;
pub mod log;
mod steps;
pub mod task;
pub mod verdict;
