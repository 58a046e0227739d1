// The caches of the boards: eight places each, of which no two hold the same cell. What a cache has of a cell does not
// depend on the order in which its places are looked at, and a new entry takes any place that was empty.
#![tactic(auto)]

pub mod cache;
pub mod caches;
pub mod place;
pub mod places;
