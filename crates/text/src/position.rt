ghost use Rattle.std.specs.Prelude.{◌≡◌, ◌+◌, ◌<◌};

// How far a text was read: the byte that comes next, and how many lines end before it.
#[derive(Clone, Copy)]
pub(crate) struct Position {
    pub(crate) byte: usize,
    pub(crate) line: u32,
}

impl Position {
    // The position after a line of so many bytes and its byte 10.
    pub(crate) fn past(self, bytes: usize) -> Position
        requires { (self.byte + bytes < 60000) × (self.line < 60000) }
        ensures { result ≡ record { byte = self.byte + bytes + 1; line = self.line + 1 } }
    {
        Position {
            byte: self.byte + bytes + 1,
            line: self.line + 1,
        }
    }
}

// Holds the position at the start of a line that is tried. When the guard is dropped the position is that start again,
// so that every way out of a line that is given up leaves the reader at the line's first byte.
pub(crate) struct LineGuard<'p> {
    pub(crate) at: &'p mut Position,
    start: Position,
}

impl Drop for LineGuard<'_> {
    fn drop(self)
        ensures { self.exit.0.now ≡ self.entry.start }
    {
        *self.at = self.start;
        let LineGuard { at: _, start: _ } = self;
    }
}

impl<'p> LineGuard<'p> {
    pub(crate) fn new(at: &'p mut Position) -> LineGuard<'p>
        ensures value { (result.start ≡ at.old) × (result.at.now ≡ at.old) }
        ensures named { result.at.ghost_name ≡ at.entry.ghost_name }
    {
        let start = *at;
        LineGuard { at, start }
    }

    // The line is taken: the position stays where it is.
    pub(crate) fn keep(self)
        ensures { self.exit.0.now ≡ self.entry.at.now }
    {
        let LineGuard { at: _, start: _ } = self;
    }
}
