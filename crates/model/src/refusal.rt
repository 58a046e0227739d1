ghost use Rattle.std.specs.Prelude.{◌≡◌};
ghost use Rattle.model.specs.Refusals.{number_of};

use thiserror::Error;

// Why a call is refused. A refused call changes nothing.
#[derive(Clone, Copy, PartialEq, Eq, Debug, Error)]
pub enum Refusal {
    // What the input itself shows.
    #[error("no such board")]
    NoSuchBoard = 1,
    #[error("no such cell")]
    NoSuchCell = 2,
    #[error("a number of boards, cells or entries is out of range")]
    SizeOutOfRange = 3,
    #[error("a line is not of the form")]
    MalformedLine = 4,
    #[error("the list of answers is shorter than the list of steps")]
    AnswersTooShort = 5,
    #[error("the text has too many bytes or steps")]
    TextTooLong = 6,
    #[error("the event is no write of that cell")]
    NotAWrite = 7,
    // What only the state shows.
    #[error("the path is not empty")]
    PathNotEmpty = 10,
    #[error("another board owns the cell")]
    OwnedByAnother = 11,
    #[error("the board owns the cell already")]
    OwnedAlready = 12,
    #[error("the board does not own the cell")]
    NotOwner = 13,
    #[error("all places of the cache are taken")]
    CacheFull = 14,
    #[error("the cell is not in the cache")]
    NotCached = 15,
    #[error("the entry is clean")]
    NotDirty = 16,
    #[error("a write of the cell has not reached memory")]
    UnsettledWrite = 17,
    #[error("the line has its full length")]
    LineFull = 18,
    #[error("the list of events is full")]
    EventsFull = 19,
}

impl Refusal {
    // The number that programs, logs and the station firmware know a refusal by.
    pub fn number(self) -> u32
        ensures { result ≡ number_of self }
    {
        self as u32
    }
}
