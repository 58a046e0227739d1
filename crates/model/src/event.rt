ghost use Rattle.std.specs.Prelude.{◌≡◌};

use super::search::Located;

// What a board did to a cell; reads are no events.
#[derive(Clone, Copy, PartialEq, Eq, Debug)]
pub enum Action {
    Write(u32),
    Acquire,
    Release,
}

// An accepted write, acquire or release.
#[derive(Clone, Copy, PartialEq, Eq, Debug)]
pub struct Event {
    pub board: u32,
    pub cell: u32,
    pub action: Action,
}

// Carry's impl reads alike: five lines each are plainer than a struct in both that would hold the board and the cell.
impl Located for Event {
    ghost board_of = { λ x. x.board };

    ghost cell_of = { λ x. x.cell };

    fn board(&self) -> u32 {
        self.board
    }

    fn cell(&self) -> u32 {
        self.cell
    }
}
