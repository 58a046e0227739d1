// A run lists steps to take; a log lists steps that were taken, each read with the word it answered.
#[derive(Clone, Copy, PartialEq, Eq, Debug)]
pub enum Kind {
    Run,
    Log,
}
