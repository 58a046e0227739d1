// The size of the bench that a trace is for, and the word in every cell at the start.
#[derive(Clone, Copy, PartialEq, Eq, Debug)]
pub struct Header {
    pub boards: u32,
    pub cells: u32,
    pub entries: u32,
    pub start: u32,
}
