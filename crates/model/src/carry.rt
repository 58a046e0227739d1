ghost use Rattle.std.specs.Prelude.{◌≡◌};

use super::search::Located;

// A write back in flight: the word that a board has sent to a cell of the memory and that has not arrived yet.
#[derive(Clone, Copy, PartialEq, Eq, Debug, Default)]
pub struct Carry {
    pub board: u32,
    pub cell: u32,
    pub word: u32,
}

impl Located for Carry {
    ghost board_of = { λ x. x.board };

    ghost cell_of = { λ x. x.cell };

    fn board(&self) -> u32 {
        self.board
    }

    fn cell(&self) -> u32 {
        self.cell
    }
}
