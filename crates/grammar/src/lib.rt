// The forms of a trace's lines, one line at a time: numbers, places, steps, header fields and remarks. Every part that
// is read is a part of the caller's bytes.
#![tactic(auto)]

pub mod header_line;
pub mod item;
pub mod kind;
mod number;
pub mod step_line;
pub mod trace_step;
