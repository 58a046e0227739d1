ghost use Rattle.std.specs.Prelude.{◌≡◌, ◌≤◌, length, MatchOption};
ghost use Rattle.std.specs.Option.{option_map};
ghost use Rattle.grammar.specs.Pieces.{shown};
ghost use Rattle.text.specs.Lines.{readable, lines};
ghost use Rattle.text.specs.Readers.{lines_ahead, first_piece, no_lines, left, Kept, Passed};
ghost use Rattle.text.specs.Telling.{left_from};

use super::super::position::Position;
use super::Reader;
use grammar::item::Item;

// The most bytes of a text that is read.
pub const MOST_BYTES: usize = 60_000;

impl<'a> Reader<'a> {
    // A reader at the first byte of a text. Of a text that is too long it reads no line.
    pub fn new(text: &'a [u8]) -> Reader<'a>
        ensures ahead { lines_ahead result ≡ lines (readable text.now) }
        ensures line { result.at.line ≡ 0 }
        ensures whole { left result ≡ left_from 1 (lines (readable text.now)) }
    {
        let text = if text.len() > MOST_BYTES { &[] } else { text };
        Reader {
            text,
            at: Position { byte: 0, line: 0 },
        }
    }

    #[tactic(auto, using(crate::proofs::Cuts::none_left))]
    pub fn at_end(&self) -> bool
        ensures { result ≡ no_lines (lines_ahead self.now) }
    {
        self.at.byte == self.text.len()
    }

    // The next line, a header field, a step or a remark. A line without an end or of no form is not passed.
    pub fn next(&mut self) -> Option<Item<'a>>
        ensures item { option_map shown result ≡ first_piece (lines_ahead self.old) }
        ensures at { MatchOption result (Kept self.old self.new) (λ _. Passed self.old self.new) }
    {
        self.try_line(Ok).ok()
    }
}
