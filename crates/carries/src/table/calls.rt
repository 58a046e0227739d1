ghost use Rattle.std.specs.Prelude.{◌≡◌, ℕ, min, true, false, [], ◌∷◌, ◌++◌, ◌==◌, length, drop, filter, position, is_some, is_ok, Ok, slice_set};
ghost use Rattle.carries.specs.Held.{held, lines_in};
ghost use Rattle.carries.specs.Lines.{line, of_lane, oldest, newest, checked, start_at, if_started, started, newest_at, count_at, Landed};
ghost use Rattle.carries.specs.Tables.{line_of, Short, without_first};

use super::Table;
use crate::limits::{BOARDS, CELLS, LONGEST_LINE};
use arrayvec::ArrayVec;
use model::carry::Carry;
use model::refusal::Refusal;
use model::search;

// Refuses a board or a cell that does not exist, the board first. A bench and a judge each check so too, against other
// limits: a bench by its own boards and the size of its home.
fn check(board: u32, cell: u32) -> Result<(), Refusal>
    ensures { result ≡ checked board cell (Ok tt) }
{
    if board >= BOARDS {
        return Err(Refusal::NoSuchBoard);
    }
    if cell >= CELLS {
        return Err(Refusal::NoSuchCell);
    }
    Ok(())
}

// The place of a board's oldest carry. A call of its own, so that each clause of `land_of` is proved from this one fact.
fn first_of(carries: &[Carry], board: u32) -> Option<usize>
    ensures { result ≡ position (λ x. x.board == board) carries.now }
{
    carries.iter().position(|x| x.board == board)
}

// The newest carry of a board and a cell. A call of its own, so that `newest` is proved from this one fact.
fn newest_of(carries: &[Carry], board: u32, cell: u32) -> Option<Carry>
    ensures { result ≡ newest (filter (of_lane board cell) carries.now) }
{
    search::newest(carries, board, cell).map(|place| carries[place])
}

impl<const LENGTH: u32> Table<LENGTH> {
    // A table in which nothing waits.
    pub fn new() -> Self
        ensures { held result ≡ [] }
    {
        Table {
            carries: ArrayVec::new(),
        }
    }

    // How many carries wait in the line of a board.
    fn waiting(&self, board: u32) -> u32
        ensures { result ≡ length (line_of board (held self.now)) }
    {
        self.carries.iter().filter(|x| x.board == board).count() as u32
    }

    // Starts a carry, if its board and its cell exist and its line has room.
    #[tactic(auto, using(crate::proofs::ByBoard::least_again))]
    pub fn start(&mut self, carry: Carry) -> Result<(), Refusal>
        ensures answer { result ≡ start_at (min LENGTH 8) (lines_in self.old) carry }
        ensures after { lines_in self.new ≡ started (min LENGTH 8) (lines_in self.old) carry }
        ensures behind { held self.new ≡ if_started result (held self.old ++ carry ∷ []) (held self.old) }
        ensures refused { is_ok result ≡ false → self.new ≡ self.old }
    {
        self.start_within(LENGTH, carry)
    }

    // The same in a line that is to hold `length` carries at most, a length that is known only when the program runs.
    #[tactic(auto, using(crate::proofs::ByBoard::lines))]
    pub fn start_within(&mut self, length: u32, carry: Carry) -> Result<(), Refusal>
        ensures answer { result ≡ start_at (min length (min LENGTH 8)) (lines_in self.old) carry }
        ensures after { lines_in self.new ≡ started (min length (min LENGTH 8)) (lines_in self.old) carry }
        ensures behind { held self.new ≡ if_started result (held self.old ++ carry ∷ []) (held self.old) }
        ensures short { Short (min length 8) (held self.old) → Short (min length 8) (held self.new) }
        ensures refused { is_ok result ≡ false → self.new ≡ self.old }
    {
        check(carry.board, carry.cell)?;
        if self.waiting(carry.board) >= length.min(LENGTH.min(LONGEST_LINE)) {
            return Err(Refusal::LineFull);
        }
        self.carries.push(carry);
        Ok(())
    }

    // The newest carry of a lane, which a board reads back in the memory's place.
    #[tactic(auto, using(crate::proofs::ByBoard::newest_in))]
    pub fn newest(&self, board: u32, cell: u32) -> Result<Option<Carry>, Refusal>
        ensures { result ≡ newest_at (lines_in self.now) board cell }
    {
        check(board, cell)?;
        Ok(newest_of(&self.carries, board, cell))
    }

    // How many carries wait in a line.
    #[tactic(auto, using(crate::proofs::ByBoard::lines))]
    pub fn count(&self, board: u32) -> Result<u32, Refusal>
        ensures { result ≡ count_at (lines_in self.now) board }
    {
        // no `check`: a count is of no cell
        if board >= BOARDS {
            return Err(Refusal::NoSuchBoard);
        }
        Ok(self.waiting(board))
    }

    // Lands the carry that was started first of all.
    pub fn land(&mut self) -> Option<Carry>
        ensures answer { result ≡ oldest (held self.old) }
        ensures rest { held self.new ≡ drop 1 (held self.old) }
        ensures landed { Landed (lines_in self.old) result (lines_in self.new) }
        ensures idle { is_some result ≡ false → self.new ≡ self.old }
    {
        self.carries.pop_at(0)
    }

    // Lands the oldest carry of a board; there is none on a board that does not exist.
    pub fn land_of(&mut self, board: u32) -> Option<Carry>
        ensures answer { result ≡ oldest (line (lines_in self.old) board) }
        ensures after { lines_in self.new ≡ slice_set (lines_in self.old) board (drop 1 (line (lines_in self.old) board)) }
        ensures rest { held self.new ≡ without_first board (held self.old) }
        ensures landed { is_some result ≡ true → Landed (lines_in self.old) result (lines_in self.new) }
        ensures short { (n : ℕ) → Short n (held self.old) → Short n (held self.new) }
        ensures idle { is_some result ≡ false → self.new ≡ self.old }
    {
        let place = first_of(&self.carries, board)?;
        Some(self.carries.remove(place))
    }
}
