// The memory model: how the events on a cell are ordered, which writes a board may read, and who owns a cell. The
// definitions stand in specs/, with the laws that hold of every history.
#![tactic(auto)]

pub mod owner;
pub mod view;
