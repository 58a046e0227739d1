ghost use Rattle.std.specs.Prelude.{◌≡◌, Err, MatchOption, MatchResult};
ghost use Rattle.model.specs.declared.refusal.Refusal.TheVariants.{MalformedLine};
ghost use Rattle.grammar.specs.declared.item.Item.{Item};
ghost use Rattle.grammar.specs.Pieces.{shown};
ghost use Rattle.text.specs.Readers.{lines_ahead, first_piece, left, Kept, Passed};
ghost use Rattle.text.specs.Telling.{Says, taken};

use super::super::fault::{Fault, at_line};
use super::super::position::LineGuard;
use super::Reader;
use super::lines::take_item;
use grammar::item::Item;
use model::refusal::Refusal;

impl<'a> Reader<'a> {
    // Tries the next line: it is passed if something is made of it, and else given up.
    pub(crate) fn try_line<T, F>(&mut self, said: F) -> Result<T, Refusal>
    where
        F: FnOnce(Item<'a>) -> Result<T, Refusal> + Drop,
        requires { F.IsAlwaysCallable said }
        ensures answer { MatchOption (first_piece (lines_ahead self.old)) (result ≡ Err MalformedLine) (λ p. (item : Item) × (shown item ≡ p) × F.post said item result) }
        ensures at { MatchResult result (λ _. Passed self.old self.new) (λ _. Kept self.old self.new) }
    {
        let guard = LineGuard::new(&mut self.at);
        let item = take_item(self.text, guard.at).ok_or(Refusal::MalformedLine)?;
        let value = said(item)?;
        guard.keep();
        Ok(value)
    }

    // Takes the next line that is no remark for what is made of it; a refusal becomes a fault at that line.
    pub(crate) fn next_line<T, F>(&mut self, said: F) -> Result<T, Fault>
    where
        F: FnOnce(Item<'a>) -> Result<T, Refusal> + Drop,
        requires { F.IsAlwaysCallable said }
        ensures answer { (f : _) → Says (F.post said) f → result ≡ (taken f (left self.old)).0 }
        ensures after { (f : _) → Says (F.post said) f → left self.new ≡ (taken f (left self.old)).1 }
    {
        self.skip_remarks();
        let line = self.line();
        at_line(self.try_line(said), line)
    }
}
