// The bench: boards with caches and ownership, over any home and any path. Every step does and answers what the
// definition of a step says, for some choice that it leaves open, and at each cell what the cache protocol does.
#![tactic(auto)]

pub mod bench;
pub mod owners;
