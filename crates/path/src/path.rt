ghost use Rattle.std.specs.Prelude.{◌≡◌, ℕ, ◌≤◌, false, List, is_some, is_ok, Option};
ghost use Rattle.model.specs.declared.carry.Carry.{Carry};
ghost use Rattle.carries.specs.Lines.{start_at, started, newest_at, count_at, Landed, Proper};

// A path serves so many boards and cells, and its lines have this length at most: the limits of the lines of carries.
pub use carries::limits::{BOARDS, CELLS, LONGEST_LINE};
use model::carry::Carry;
use model::refusal::Refusal;

// The way that write backs take from the boards to the memory. A path means eight lines of carries, one for each
// board and each in the order started; the carries of one board and one cell are a lane. Within a lane nothing
// overtakes; which lane lands next is the path's own choice.
pub trait Path {
    // How many carries a line holds at most: with so many, the next is refused.
    const LENGTH: u32;

    // The constant, as clauses name it.
    ghost LENGTH: { ℕ };

    // The eight lines, by board.
    ghost lines: { Self → List (List Carry) };

    // The lines leave open which lane lands. By these two a kind of path can say what it does with its own carries, so
    // that whoever runs a bench over it knows the landing; it may also say nothing. A start: the path before, the carry,
    // accepted or refused, and the path after.
    ghost starts: { Self → Carry → Self → Type 0 };

    // A landing: the path before, the answer, and the path after.
    ghost lands: { Self → Option Carry → Self → Type 0 };

    // The constant, as a call.
    fn capacity() -> u32
        ensures { result ≡ LENGTH };

    // Starts a carry: it joins its board's line. A refusal leaves the path as it is.
    fn start(&mut self, carry: Carry) -> Result<(), Refusal>
        ensures answer { result ≡ start_at LENGTH (lines self.old) carry }
        ensures after { lines self.new ≡ started LENGTH (lines self.old) carry }
        ensures own { starts self.old carry self.new }
        ensures refused { is_ok result ≡ false → self.new ≡ self.old };

    // Lands the oldest carry of some lane, if anything waits; if not, the path stays as it is.
    fn land(&mut self) -> Option<Carry>
        ensures landed { Landed (lines self.old) result (lines self.new) }
        ensures own { lands self.old result self.new }
        ensures idle { is_some result ≡ false → self.new ≡ self.old };

    // The newest carry of a lane.
    fn newest(&self, board: u32, cell: u32) -> Result<Option<Carry>, Refusal>
        ensures { result ≡ newest_at (lines self.now) board cell };

    // How many carries wait in a line.
    fn count(&self, board: u32) -> Result<u32, Refusal>
        ensures { result ≡ count_at (lines self.now) board };

    ghost bounded: { (1 ≤ LENGTH) × (LENGTH ≤ 8) };

    ghost proper: { (p : Self) → Proper LENGTH (lines p) };
}
