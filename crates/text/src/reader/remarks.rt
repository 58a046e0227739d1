ghost use Rattle.std.specs.Prelude.{◌≡◌, ◌+◌, false, MatchBool};
ghost use Rattle.grammar.specs.Pieces.{is_remark};
ghost use Rattle.text.specs.Readers.{lines_ahead, first_piece, left, Kept, Passed};

use super::Reader;
use grammar::item::Item;
use model::refusal::Refusal;

impl Reader<'_> {
    // Passes the next line if it is a remark. The refusal only gives the line up: nobody is told of it.
    fn pass_remark(&mut self) -> bool
        ensures answer { result ≡ is_remark (first_piece (lines_ahead self.old)) }
        ensures at { MatchBool result (Passed self.old self.new) (Kept self.old self.new) }
    {
        self.try_line(|item| match item {
            Item::Remark(_) => Ok(()),
            _ => Err(Refusal::MalformedLine),
        })
        .is_ok()
    }

    // Passes remarks up to a line that is none.
    pub(crate) fn skip_remarks(&mut self)
        ensures same { left self.new ≡ left self.old }
        ensures fresh { is_remark (first_piece (lines_ahead self.new)) ≡ false }
    {
        while self.pass_remark() {}
    }

    // The number of the line that comes next.
    pub(crate) fn line(&self) -> u32
        ensures { result ≡ self.now.at.line + 1 }
    {
        self.at.line + 1
    }
}
