// Lines serve as many boards and cells as a bench can have.
pub use model::limits::{BOARDS, CELLS};

// The most carries that a line holds.
pub const LONGEST_LINE: u32 = 8;
