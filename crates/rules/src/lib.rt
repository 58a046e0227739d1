// The rules on reads, for every list of calls of a bench over any home and any path: specs/ has them. They stand on the
// contract of `replay`, which opens a bench and runs a list of steps on it.
#![tactic(auto)]

pub mod cases;
pub mod replay;
