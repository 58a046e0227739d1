#![tactic(auto, using(crate::proofs::Kept::pair_laws))]

ghost use Rattle.std.specs.Prelude.{◌≡◌, ◌<◌, length, ◌==◌, replicate, position, slice_set, unwrap_or};
ghost use Rattle.home.specs.Pairs.{word_in};
ghost use Rattle.home.specs.PairHome.{words_of, size_for};

use super::PairHome;
use crate::pair::Pair;
use crate::source::{Home, Source, check_cell};
use arrayvec::ArrayVec;
use model::limits::CELLS;
use model::refusal::Refusal;

// The most cells of a pair home.
pub const MOST_PAIRS: u32 = CELLS;

impl PairHome {
    // Asked for more than 64 cells it has none.
    pub fn new(cells: u32, start: u32) -> Self
        ensures { words_of result ≡ replicate (size_for cells) start }
    {
        PairHome {
            cells: if cells > MOST_PAIRS { 0 } else { cells },
            start,
            pairs: ArrayVec::new(),
        }
    }

    // The word of the cell's pair, or the starting word.
    fn word_of(&self, cell: u32) -> u32
        ensures { result ≡ unwrap_or (word_in self.now.pairs.items cell) self.now.start }
    {
        self.pairs
            .iter()
            .find(|pair| pair.cell == cell)
            .map_or(self.start, |pair| pair.word)
    }

    // Where the cell's pair stands.
    fn place_of(&self, cell: u32) -> Option<usize>
        ensures { result ≡ position (λ pair. pair.cell == cell) self.now.pairs.items }
    {
        self.pairs.iter().position(|pair| pair.cell == cell)
    }

    // The cell's pair is replaced, or the first one follows the others.
    fn put(&mut self, cell: u32, word: u32)
        requires { cell < length (words_of self.old) }
        ensures { words_of self.new ≡ slice_set (words_of self.old) cell word }
    {
        match self.place_of(cell) {
            Some(at) => self.pairs[at] = Pair { cell, word },
            None => self.pairs.push(Pair { cell, word }),
        }
    }
}

impl Source for PairHome {
    ghost words = { words_of };

    fn size(&self) -> u32 {
        self.cells
    }

    fn read(&self, cell: u32) -> Result<u32, Refusal> {
        check_cell(cell, self.size())?;
        Ok(self.word_of(cell))
    }
}

impl Home for PairHome {
    fn write(&mut self, cell: u32, word: u32) -> Result<(), Refusal> {
        check_cell(cell, self.size())?;
        self.put(cell, word);
        Ok(())
    }
}
