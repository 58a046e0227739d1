ghost use Rattle.std.specs.Prelude.{◌≡◌, ℕ};
ghost use Rattle.model.specs.Search.{is_of, last_place};

// A record that tells its board and its cell, as a carry and an event do.
pub trait Located {
    ghost board_of: { Self → ℕ };

    ghost cell_of: { Self → ℕ };

    fn board(&self) -> u32
        ensures { result ≡ board_of self.now };

    fn cell(&self) -> u32
        ensures { result ≡ cell_of self.now };
}

// Whether a record is of that board and that cell.
fn is_of<R: Located>(it: &R, board: u32, cell: u32) -> bool
    ensures { result ≡ is_of R.Located.board_of R.Located.cell_of board cell it.now }
{
    it.board() == board && it.cell() == cell
}

// The place of the newest record of a board and a cell, in a list that has the oldest first.
pub fn newest<R: Located>(records: &[R], board: u32, cell: u32) -> Option<usize>
    ensures { result ≡ last_place (is_of R.Located.board_of R.Located.cell_of board cell) records.now }
{
    records
        .iter()
        .rposition(|record| is_of(record, board, cell))
}
