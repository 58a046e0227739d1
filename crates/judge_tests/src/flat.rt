ghost use Rattle.std.specs.Prelude.{min, replicate};

use home::source::{MOST_CELLS, Source};
use model::refusal::Refusal;

// A source with the same word in every cell.
#[derive(Clone, Copy)]
pub struct Flat {
    pub cells: u32,
    pub word: u32,
}

impl Source for Flat {
    ghost words = { λ s. replicate (min s.cells 65536) s.word };

    fn size(&self) -> u32 {
        self.cells.min(MOST_CELLS)
    }

    fn read(&self, cell: u32) -> Result<u32, Refusal> {
        if cell < self.size() {
            Ok(self.word)
        } else {
            Err(Refusal::NoSuchCell)
        }
    }
}
