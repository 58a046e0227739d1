ghost use Rattle.std.specs.Prelude.{◌≡◌, length};
ghost use Rattle.home.specs.Words.{read_back, OthersKept};

use super::source::Home;
use model::refusal::Refusal;

// Writes a word and answers what the cell then reads: that word, or the refusal outside the memory. No other cell
// moves, whatever the home is.
pub fn write_and_read<H: Home>(home: &mut H, cell: u32, word: u32) -> Result<u32, Refusal>
    ensures answer { result ≡ read_back (H.words home.old) cell word }
    ensures others { OthersKept (H.words home.old) (H.words home.new) cell }
    ensures size { length (H.words home.new) ≡ length (H.words home.old) }
{
    home.write(cell, word)?;
    home.read(cell)
}
