// What the judge answers on the worked examples and on bad input, and that a refused call changes nothing.
#![tactic(auto)]

pub mod flat;
pub mod lent;
#[cfg(test)]
mod tests;
