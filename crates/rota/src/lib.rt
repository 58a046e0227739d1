// The path that lands by turns.
#![tactic(auto)]

pub mod rota;
