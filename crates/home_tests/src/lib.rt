// The homes in use: one generic call at each of them, with what it then promises, and tests of the edges.
#![tactic(auto)]

ghost use Rattle.std.specs.Prelude.{◌≡◌, replicate};
ghost use Rattle.home.specs.Words.{read_back};
ghost use Rattle.home.specs.WordHome.{counted, listed};
ghost use Rattle.home.specs.PairHome.{size_for};

use home::holding_buffer::HoldingBuffer;
use home::pair_home::PairHome;
use home::read_back::write_and_read;
use home::source::Home;
use home::word_home::WordHome;
use model::refusal::Refusal;

#[cfg(test)]
mod tests;

pub fn through_words(list: &mut [u32], cell: u32, word: u32) -> Result<u32, Refusal>
    ensures { result ≡ read_back (counted list.old) cell word }
{
    let mut home = WordHome::new(list);
    write_and_read(&mut home, cell, word)
}

// The caller's list holds what was written, once the home is gone.
pub fn stored(list: &mut [u32], cell: u32, word: u32)
    ensures { list.new ≡ listed list.old cell word }
{
    let mut home = WordHome::new(list);
    let _ = home.write(cell, word);
}

pub fn through_pairs(cells: u32, start: u32, cell: u32, word: u32) -> Result<u32, Refusal>
    ensures { result ≡ read_back (replicate (size_for cells) start) cell word }
{
    let mut home = PairHome::new(cells, start);
    write_and_read(&mut home, cell, word)
}

pub fn through_buffer(cells: u32, start: u32, cell: u32, word: u32) -> Result<u32, Refusal>
    ensures { result ≡ read_back (replicate (size_for cells) start) cell word }
{
    let mut home = HoldingBuffer::new(PairHome::new(cells, start));
    write_and_read(&mut home, cell, word)
}

// Buffers pile: the same code, at a buffer over a buffer.
pub fn through_pile(cells: u32, start: u32, cell: u32, word: u32) -> Result<u32, Refusal>
    ensures { result ≡ read_back (replicate (size_for cells) start) cell word }
{
    let mut home = HoldingBuffer::new(HoldingBuffer::new(PairHome::new(cells, start)));
    write_and_read(&mut home, cell, word)
}
