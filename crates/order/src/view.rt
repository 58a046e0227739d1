// Who can have made a write of a cell: one of eight boards, or, at the initial write, no board.
pub const WRITERS: usize = 9;

// The place of no board among the writers. It is a place and no `None`, since writers are only ever used as places.
pub const NO_BOARD: usize = 8;

// What is known of the writes of a cell, at one point of the order. For each writer, its writes numbered below `known`
// stand at this point or before it, and those numbered below `over` stand before a write that does. Two rows, and no row
// of pairs: a write takes all of `known` for `over`.
#[derive(Clone, Copy)]
pub struct View {
    pub known: [u32; WRITERS],
    pub over: [u32; WRITERS],
}

// The views of a cell after some events: at each board's latest event there, and at the cell's latest release.
#[derive(Clone, Copy)]
pub struct Views {
    pub boards: [View; 8],
    pub released: View,
}
