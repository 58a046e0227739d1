// The text reader in use: tests of the forms of a trace, of its faults and their order, of its limits and of the walk
// over its steps.
#![tactic(auto)]

#[cfg(test)]
mod faults;
#[cfg(test)]
mod first_fault;
#[cfg(test)]
mod forms;
#[cfg(test)]
mod limits;
#[cfg(test)]
mod walks;
