// Write backs in flight: what their lines are and what may be done to them, and the table that paths keep them in.
#![tactic(auto)]

pub mod limits;
pub mod table;
