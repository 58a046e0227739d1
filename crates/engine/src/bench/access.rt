ghost use Rattle.std.specs.Prelude.{◌<◌};

// A board and a cell that a step names and that were checked.
#[derive(Clone, Copy)]
pub(crate) struct Access {
    pub(crate) board: u32,
    pub(crate) cell: u32,
    ghost board_there: { board < 8 },
    ghost cell_there: { cell < 64 },
}
