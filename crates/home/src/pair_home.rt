ghost use Rattle.std.specs.Prelude.{◌≡◌, ◌≤◌, true};
ghost use Rattle.home.specs.Pairs.{within, Once};

use super::pair::Pair;
use arrayvec::ArrayVec;

pub mod calls;

// A home that keeps a pair for each cell written so far, and one starting word for all others. The list of pairs lies
// in the home itself, so that no write can fail for want of memory.
#[derive(Drop)]
pub struct PairHome {
    cells: u32,
    start: u32,
    pairs: ArrayVec<Pair, 64>,
    ghost few: { cells ≤ 64 },
    ghost inside: { within cells pairs.items ≡ true },
    ghost once: { Once pairs.items },
}
