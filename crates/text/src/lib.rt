// Traces as text. A reader walks over the caller's bytes and copies none of them; a trace that is opened hands over its
// steps one by one, each with its line, up to the end or to the first fault.
#![tactic(auto)]

pub mod check;
pub mod fault;
pub mod header;
pub mod input;
pub mod placed_step;
mod position;
pub mod reader;
pub mod trace;
