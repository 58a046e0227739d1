// A bench has so many boards at most, each cache of it so many entries, and its memory so many cells. Boards and cells
// count from 0.
pub const BOARDS: u32 = 8;

pub const CELLS: u32 = 64;

pub const ENTRIES: u32 = 8;
