ghost use Rattle.std.specs.Prelude.{◌≡◌};
ghost use Rattle.cache.specs.Places.{entry_of, holds, is_taken, place_for};

use model::entry::Entry;

// One place of a cache: empty, or the word of one cell, clean or dirty. No `Option` of a pair with a flag: code that
// has a word is told at once which of the two it is.
#[derive(Clone, Copy, PartialEq, Eq, Debug)]
pub enum Place {
    Empty,
    Clean { cell: u32, word: u32 },
    Dirty { cell: u32, word: u32 },
}

impl Place {
    // The place of a cell with that entry. No `From`, here and back: an entry has no cell.
    pub fn new(cell: u32, entry: Entry) -> Place
        ensures { result ≡ place_for cell entry }
    {
        match entry {
            Entry::Invalid => Place::Empty,
            Entry::Clean(word) => Place::Clean { cell, word },
            Entry::Dirty(word) => Place::Dirty { cell, word },
        }
    }

    pub fn entry(self) -> Entry
        ensures { result ≡ entry_of self }
    {
        match self {
            Place::Empty => Entry::Invalid,
            Place::Clean { word, .. } => Entry::Clean(word),
            Place::Dirty { word, .. } => Entry::Dirty(word),
        }
    }

    pub fn holds(self, cell: u32) -> bool
        ensures { result ≡ holds self cell }
    {
        match self {
            Place::Empty => false,
            Place::Clean { cell: held, .. } | Place::Dirty { cell: held, .. } => held == cell,
        }
    }

    pub fn is_taken(self) -> bool
        ensures { result ≡ is_taken self }
    {
        self != Place::Empty
    }
}
