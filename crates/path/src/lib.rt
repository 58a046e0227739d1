// What a path is, the path that lands what was started first, and runs of any path.
#![tactic(auto)]

// The table that paths keep their carries in, under the name by which callers of this crate know it.
pub use carries::table;

pub mod first_come;
pub mod order;
pub mod path;
pub mod run;
