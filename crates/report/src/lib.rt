// What the program `bench` prints of a trace: the whole text, as a function of the trace's bytes. The bench runs over a
// holding buffer, a pair home and a first-come path; the definition of the text knows of none of them, nor of the places
// of a cache.
#![tactic(auto)]

mod judged;
pub mod line;
mod lines;
mod run;
mod steps;
pub mod whole;
