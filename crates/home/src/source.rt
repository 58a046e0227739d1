ghost use Rattle.std.specs.Prelude.{◌≡◌, ℕ, ◌≤◌, if◌then◌else◌, List, length, take, Ok, Err, nat_lt};
ghost use Rattle.model.specs.declared.refusal.Refusal.TheVariants.{NoSuchCell};
ghost use Rattle.home.specs.Words.{read_at, write_at, written};

use model::refusal::Refusal;

// The most cells that a source has; what is longer counts up to here.
pub const MOST_CELLS: u32 = 65_536;

// What can be read cell by cell. A source means a list of words, one for each cell; its size never changes.
pub trait Source {
    ghost words: { Self → List ℕ };

    fn size(&self) -> u32
        ensures value { result ≡ length (words self.now) }
        ensures bound { result ≤ 65536 };

    fn read(&self, cell: u32) -> Result<u32, Refusal>
        ensures { result ≡ read_at (words self.now) cell };
}

// A home is the memory that a bench works on: a source that can also be written.
pub trait Home: Source {
    fn write(&mut self, cell: u32, word: u32) -> Result<(), Refusal>
        ensures answer { result ≡ write_at (Self.words self.old) cell }
        ensures after { Self.words self.new ≡ written (Self.words self.old) cell word };
}

// A cell at or past the size is refused. It takes the size, since `read` calls it: a function over any source could call
// `read` again, so the check does not take it here.
pub(crate) fn check_cell(cell: u32, size: u32) -> Result<(), Refusal>
    ensures { result ≡ (if nat_lt cell size then Ok tt else Err NoSuchCell) }
{
    if cell < size {
        Ok(())
    } else {
        Err(Refusal::NoSuchCell)
    }
}

// The words that count, of all that are at hand.
#[tactic(auto, using(std::proofs::lemmas::List::take_min))]
pub(crate) fn first_words<T>(words: &[T]) -> &[T]
    ensures first { result.now ≡ take 65536 words.now }
    ensures few { length result.now ≤ 65536 }
{
    &words[..(MOST_CELLS as usize).min(words.len())]
}
