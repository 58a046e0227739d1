#![tactic(auto, using(crate::proofs::Images::image_laws))]

ghost use Rattle.std.specs.Prelude.{◌≡◌, ◌≤◌, length, map};
ghost use Rattle.std.specs.Int.{from_be_bytes, w32};
ghost use Rattle.home.specs.FrozenImage.{image_of};

use super::source::{Source, first_words};
use model::refusal::Refusal;

// Words in the caller's bytes, four to a cell with the highest first; they can only be read. Bytes left over at the
// end are ignored, and a longer image counts up to the most cells of a source.
#[derive(Clone, Copy)]
pub struct FrozenImage<'a> {
    bytes: &'a [u8],
}

impl<'a> FrozenImage<'a> {
    pub fn new(bytes: &'a [u8]) -> Self
        ensures { image_of result.bytes.now ≡ image_of bytes.now }
    {
        FrozenImage { bytes }
    }

    // The words that count, in bytes. How few they are is told again: `size` counts fours of bytes, and the other clause
    // tells of the numbers that they are.
    fn words(&self) -> &[[u8; 4]]
        ensures words { map (from_be_bytes w32) result.now ≡ image_of self.now.bytes.now }
        ensures few { length result.now ≤ 65536 }
    {
        let (words, _) = self.bytes.as_chunks();
        first_words(words)
    }
}

impl Source for FrozenImage<'_> {
    ghost words = { λ s. image_of s.bytes.now };

    fn size(&self) -> u32 {
        self.words().len() as u32
    }

    fn read(&self, cell: u32) -> Result<u32, Refusal> {
        self.words()
            .get(cell as usize)
            .map(|word| u32::from_be_bytes(*word))
            .ok_or(Refusal::NoSuchCell)
    }
}
