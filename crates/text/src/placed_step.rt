use grammar::trace_step::TraceStep;

// A step of a trace and the line that it stands on; every line of the text counts, from 1.
#[derive(Clone, Copy, PartialEq, Eq, Debug)]
pub struct PlacedStep {
    pub line: u32,
    pub step: TraceStep,
}
