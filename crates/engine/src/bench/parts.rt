ghost use Rattle.std.specs.Prelude.{◌≡◌, false, is_ok, Some, nat_lt};
ghost use Rattle.home.specs.Words.{written};
ghost use Rattle.carries.specs.Lines.{lane, newest};
ghost use Rattle.cache.specs.Places.{taken_in};
ghost use Rattle.cache.specs.Caches.{table_of};
ghost use Rattle.state.specs.States.{cells_of, cache_of, owner_of, with_entry, with_owner, with_words};
ghost use Rattle.state.specs.Steps.{fetched, unsettled, carry_of, send};
ghost use Rattle.model.specs.Answers.{done_answer};
ghost use Rattle.engine.specs.Parts.{Checked, Added, entry_at};

use super::Bench;
use super::access::Access;
use cache::cache::Cache;
use home::source::{Home, Source};
use model::carry::Carry;
use model::entry::Entry;
use model::limits::CELLS;
use model::refusal::Refusal;
use path::path::Path;

impl<H: Home, P: Path> Bench<H, P> {
    // Each step of a board on a cell begins so: board, then cell, as lines of carries and a judge check them too, but by
    // the bench's own boards and cells.
    pub(crate) fn checked(&self, board: u32, cell: u32) -> Result<Access, Refusal>
        ensures { Checked self.now.state board cell result }
    {
        if board >= self.boards {
            return Err(Refusal::NoSuchBoard);
        }
        if cell >= self.cells() {
            return Err(Refusal::NoSuchCell);
        }
        Ok(Access { board, cell })
    }

    fn cells(&self) -> u32
        ensures { result ≡ cells_of self.now.state }
    {
        self.home.size().min(CELLS)
    }

    fn cache(&self, at: Access) -> Cache
        ensures { table_of result ≡ cache_of self.now.state at.board }
    {
        self.caches.of(at.board).unwrap()
    }

    pub(crate) fn entry(&self, at: Access) -> Entry
        ensures { result ≡ entry_at self.now.state at }
    {
        self.cache(at).entry(at.cell)
    }

    pub(crate) fn owner(&self, cell: u32) -> Option<u32>
        ensures { result ≡ owner_of self.now.state cell }
    {
        self.owners.of(cell)
    }

    pub(crate) fn set_owner(&mut self, cell: u32, owner: Option<u32>)
        ensures state { self.new.state ≡ with_owner self.old.state cell owner }
        ensures path { self.new.path ≡ self.old.path }
    {
        self.owners.put(cell, owner);
    }

    // Another entry for a cell that the board has cached.
    pub(crate) fn set_entry(&mut self, at: Access, entry: Entry)
        ensures state { self.new.state ≡ with_entry self.old.state at.board at.cell entry }
        ensures path { self.new.path ≡ self.old.path }
    {
        let cache = self.cache(at).replace(at.cell, entry);
        self.caches.put(at.board, cache);
    }

    // The word that a read finds where the board has none cached: the newest of its own lane, or else the home's. The cell
    // was checked, so the home never refuses it; nor does the path below.
    pub(crate) fn fetch(&self, at: Access) -> u32
        ensures { result ≡ fetched self.now.state at.board at.cell }
    {
        self.newest(at).map_or_else(|| self.home.read(at.cell).unwrap_or(0), |carry| carry.word)
    }

    // The board's newest carry of the cell.
    fn newest(&self, at: Access) -> Option<Carry>
        ensures { result ≡ newest (lane self.now.state.lines at.board at.cell) }
    {
        self.path.newest(at.board, at.cell).unwrap_or(None)
    }

    // Whether a write of the board to the cell is dirty or in flight.
    pub(crate) fn unsettled(&self, at: Access) -> bool
        ensures { result ≡ unsettled self.now.state at.board at.cell }
    {
        matches!(self.entry(at), Entry::Dirty(_)) || self.newest(at).is_some()
    }

    // Whether the board may have one more entry.
    fn has_room(&self, at: Access) -> bool
        ensures { result ≡ nat_lt (taken_in (cache_of self.now.state at.board)) self.now.state.entries }
    {
        self.cache(at).taken() < self.entries
    }

    // A new entry takes an empty place, if the board may have one more.
    pub(crate) fn add(&mut self, at: Access, entry: Entry) -> Result<(), Refusal>
        ensures added { Added self.old.state at.board at.cell entry result self.new.state }
        ensures path { self.new.path ≡ self.old.path }
        ensures refused { is_ok result ≡ false → self.new ≡ self.old }
    {
        if !self.has_room(at) {
            return Err(Refusal::CacheFull);
        }
        let cache = self.cache(at).store(at.cell, entry).unwrap();
        self.caches.put(at.board, cache);
        Ok(())
    }

    // A carry that landed is written to the home.
    pub(crate) fn store(&mut self, carry: Carry)
        ensures state { self.new.state ≡ with_words self.old.state (written self.old.state.words carry.cell carry.word) }
        ensures path { self.new.path ≡ self.old.path }
    {
        let _ = self.home.write(carry.cell, carry.word);
    }

    // A carry of the word starts, and the cell's entry becomes as given; or the path refuses the carry.
    pub(crate) fn send(&mut self, at: Access, word: u32, entry: Entry) -> Result<(), Refusal>
        ensures step { send self.old.state at.board at.cell word entry ≡ Some (done_answer result, self.new.state) }
        ensures path { P.Path.starts self.old.path (carry_of at.board at.cell word) self.new.path }
        ensures refused { is_ok result ≡ false → self.new ≡ self.old }
    {
        self.path.start(Carry {
            board: at.board,
            cell: at.cell,
            word,
        })?;
        self.set_entry(at, entry);
        Ok(())
    }
}
