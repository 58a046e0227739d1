// Tests of the bench at its edges, over several homes and both paths; and what a caller knows of its own home and path.
#![tactic(auto)]

#[cfg(test)]
mod tests;
pub mod tied;
