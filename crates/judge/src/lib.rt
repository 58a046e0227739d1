// The judge: notes the events of a bench, and says which writes a board may read and which words a read may answer.
#![tactic(auto)]

pub mod hearing;
mod history;
pub mod judge;
mod views;
