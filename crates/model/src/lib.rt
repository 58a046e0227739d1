// The vocabulary that every other crate speaks: why a call is refused and by which number, what a board does to a
// cell, and the one search for the newest record of a board and a cell.
#![tactic(auto)]

pub mod answer;
pub mod carry;
pub mod entry;
pub mod event;
pub mod limits;
pub mod refusal;
pub mod search;
pub mod step;
