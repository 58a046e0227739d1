#![tactic(auto, using(crate::proofs::Overlays::overlays))]

ghost use Rattle.std.specs.Prelude.{◌≡◌, ◌%◌, ◌<◌, ◌≤◌, length, Some, None, slice_index_or, slice_set};
ghost use Rattle.home.specs.Words.{write_at, written};
ghost use Rattle.home.specs.Buffer.{Own, held_for, sent, overlay, below_after, held_after, pair_of};

use super::pair::Pair;
use super::source::{Home, Source, check_cell};
use model::refusal::Refusal;

// A home over any home that holds back at most eight pairs of cell and word: cell c belongs in place c modulo 8. A
// write first sends the pair of another cell in that place below, then takes the place; a read takes none.
#[derive(Drop)]
pub struct HoldingBuffer<H> {
    below: H,
    places: [Option<Pair>; 8],
    ghost own: { Own places },
}

impl<H: Home> HoldingBuffer<H> {
    pub fn new(below: H) -> Self
        ensures words { overlay (H.words result.below) result.places ≡ H.words below }
        ensures below { result.below ≡ below }
    {
        HoldingBuffer {
            below,
            places: [None; 8],
        }
    }

    // The home below as it is now, without what is held back.
    pub fn below(&self) -> &H
        ensures { result.now ≡ self.now.below }
    {
        &self.below
    }

    // The word that the cell's place holds for it.
    fn held(&self, cell: u32) -> Option<u32>
        ensures { result ≡ held_for (slice_index_or self.now.places (cell % 8) None) cell }
    {
        self.places[place_of(cell)]
            .filter(|pair| pair.cell == cell)
            .map(|pair| pair.word)
    }

    // The pair of another cell in the cell's place is written below.
    fn send(&mut self, cell: u32)
        ensures below { H.words self.new.below ≡ sent (H.words self.old.below) (slice_index_or self.old.places (cell % 8) None) cell }
        ensures held { self.new.places ≡ self.old.places }
    {
        if let Some(pair) = self.places[place_of(cell)]
            && pair.cell != cell
        {
            let _ = self.below.write(pair.cell, pair.word);
        }
    }
}

fn place_of(cell: u32) -> usize
    ensures { result ≡ cell % 8 }
{
    cell as usize % 8
}

impl<H: Home> Source for HoldingBuffer<H> {
    ghost words = { λ s. overlay (H.words s.below) s.places };

    fn size(&self) -> u32 {
        self.below.size()
    }

    // A held word goes before the one below.
    fn read(&self, cell: u32) -> Result<u32, Refusal> {
        check_cell(cell, self.size())?;
        self.held(cell).map_or_else(|| self.below.read(cell), Ok)
    }
}

impl<H: Home> Home for HoldingBuffer<H> {
    fn write(&mut self, cell: u32, word: u32) -> Result<(), Refusal>
        ensures answer { result ≡ write_at (⟦<Self as Source>⟧.words self.old) cell }
        ensures after { ⟦<Self as Source>⟧.words self.new ≡ written (⟦<Self as Source>⟧.words self.old) cell word }
        ensures below { H.words self.new.below ≡ below_after (H.words self.old.below) self.old.places cell }
        ensures held { self.new.places ≡ held_after (H.words self.old.below) self.old.places cell word }
    {
        check_cell(cell, self.size())?;
        self.send(cell);
        self.places[place_of(cell)] = Some(Pair { cell, word });
        Ok(())
    }
}
