ghost use Rattle.std.specs.Prelude.{◌≡◌, ◌≤◌, length, nat_lt};
ghost use Rattle.carries.specs.Lines.{line};
ghost use Rattle.state.specs.Opening.{quiet, refusal_of, opened};
ghost use Rattle.engine.specs.Seen.{IsWhole};

use super::Bench;
use crate::owners::Owners;
use cache::caches::Caches;
use home::source::{Home, Source};
use model::limits::{BOARDS, CELLS, ENTRIES};
use model::refusal::Refusal;
use path::path::Path;

impl<H: Home, P: Path> Bench<H, P> {
    // A bench with that many boards and entries, over a home whose size is the number of its cells, and over an empty
    // path. A refused one has no boards, so that every step of it is refused.
    pub fn open(boards: u32, entries: u32, home: H, path: P) -> Bench<H, P>
        ensures home { result.home ≡ home }
        ensures path { result.path ≡ path }
        ensures state { result.state ≡ opened boards entries (H.Source.words home) (P.Path.lines path) P.Path.LENGTH }
        ensures whole { IsWhole H.Source.words P.Path.lines P.Path.LENGTH result }
    {
        let refusal = refusal_of(boards, entries, &home, &path);
        let (boards, entries) = match refusal {
            None => (boards, entries),
            Some(_) => (0, 0),
        };
        Bench {
            refusal,
            boards,
            entries,
            caches: Caches::new(),
            owners: Owners::new(),
            home,
            path,
        }
    }

    // Does nothing: it opens the bench, so that a caller's proof sees what holds of every bench by its make.
    pub(crate) fn whole(&self)
        ensures { IsWhole H.Source.words P.Path.lines P.Path.LENGTH self.now }
    {
        let _ = &self.boards;
    }

    // Why the opening was refused, if it was.
    pub fn refusal(&self) -> Option<Refusal>
        ensures refusal { result ≡ self.now.state.refusal }
        ensures whole { IsWhole H.Source.words P.Path.lines P.Path.LENGTH self.now }
    {
        self.whole();
        self.refusal
    }

    // The home as it is now, without what is cached or on its way.
    pub fn home(&self) -> &H
        ensures home { result.now ≡ self.now.home }
        ensures whole { IsWhole H.Source.words P.Path.lines P.Path.LENGTH self.now }
    {
        self.whole();
        &self.home
    }
}

fn refusal_of<H: Home, P: Path>(boards: u32, entries: u32, home: &H, path: &P) -> Option<Refusal>
    ensures { result ≡ refusal_of boards entries (H.Source.words home.now) (P.Path.lines path.now) }
{
    if !(1..=BOARDS).contains(&boards)
        || !(1..=CELLS).contains(&home.size())
        || !(1..=ENTRIES).contains(&entries)
    {
        return Some(Refusal::SizeOutOfRange);
    }
    if !is_quiet(path) {
        return Some(Refusal::PathNotEmpty);
    }
    None
}

// Whether no carry waits.
fn is_quiet<P: Path>(path: &P) -> bool
    ensures { result ≡ quiet (P.Path.lines path.now) }
{
    (0..BOARDS).all(|board| !waits(path, board))
}

// Whether a carry of the board waits.
fn waits<P: Path>(path: &P, board: u32) -> bool
    requires { board ≤ 7 }
    ensures { result ≡ nat_lt 0 (length (line (P.Path.lines path.now) board)) }
{
    path.count(board).is_ok_and(|count| count > 0)
}
