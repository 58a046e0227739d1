ghost use Rattle.std.specs.Prelude.{◌≡◌, false, is_ok, Some};
ghost use Rattle.state.specs.Runs.{Carries, sent_from};
ghost use Rattle.state.specs.States.{owner_of};
ghost use Rattle.state.specs.Steps.{read, write, acquire, release, write_back, eject};
ghost use Rattle.model.specs.Answers.{done_answer, word_answer};
ghost use Rattle.engine.specs.Parts.{entry_at, dropped, TakesBy};

use super::Bench;
use super::access::Access;
use home::source::Home;
use model::entry::Entry;
use model::refusal::Refusal;
use path::path::Path;

// What each step does once its board and its cell are checked. That the path stays, and that a refused call changes
// nothing, stands as a clause at each such call here and in the parts: no type carries either of them, and an inner struct
// without the path would split the bench's state in two.
impl<H: Home, P: Path> Bench<H, P> {
    pub(crate) fn read_at(&mut self, at: Access) -> Result<u32, Refusal>
        ensures step { TakesBy (λ k. read k self.old.state at.board at.cell (entry_at self.old.state at)) (word_answer result) self.new.state }
        ensures path { self.new.path ≡ self.old.path }
        ensures refused { is_ok result ≡ false → self.new ≡ self.old }
    {
        match self.entry(at) {
            Entry::Clean(word) | Entry::Dirty(word) => Ok(word),
            Entry::Invalid => {
                let word = self.fetch(at);
                self.add(at, Entry::Clean(word))?;
                Ok(word)
            }
        }
    }

    pub(crate) fn write_at(&mut self, at: Access, word: u32) -> Result<(), Refusal>
        ensures step { TakesBy (λ k. write k self.old.state at.board at.cell word (entry_at self.old.state at)) (done_answer result) self.new.state }
        ensures path { self.new.path ≡ self.old.path }
        ensures refused { is_ok result ≡ false → self.new ≡ self.old }
    {
        match self.entry(at) {
            Entry::Invalid => self.add(at, Entry::Dirty(word)),
            Entry::Clean(_) | Entry::Dirty(_) => {
                self.set_entry(at, Entry::Dirty(word));
                Ok(())
            }
        }
    }

    pub(crate) fn acquire_at(&mut self, at: Access) -> Result<(), Refusal>
        ensures step { acquire self.old.state at.board at.cell (owner_of self.old.state at.cell) ≡ Some (done_answer result, self.new.state) }
        ensures path { self.new.path ≡ self.old.path }
        ensures refused { is_ok result ≡ false → self.new ≡ self.old }
    {
        match self.owner(at.cell) {
            Some(owner) if owner == at.board => Err(Refusal::OwnedAlready),
            Some(_) => Err(Refusal::OwnedByAnother),
            None => {
                self.drop_clean(at);
                self.set_owner(at.cell, Some(at.board));
                Ok(())
            }
        }
    }

    // A clean entry is emptied; a dirty one stays, since the memory lacks its word.
    fn drop_clean(&mut self, at: Access)
        ensures state { self.new.state ≡ dropped self.old.state at.board at.cell (entry_at self.old.state at) }
        ensures path { self.new.path ≡ self.old.path }
    {
        if let Entry::Clean(_) = self.entry(at) {
            self.set_entry(at, Entry::Invalid);
        }
    }

    pub(crate) fn release_at(&mut self, at: Access) -> Result<(), Refusal>
        ensures step { release self.old.state at.board at.cell ≡ Some (done_answer result, self.new.state) }
        ensures path { self.new.path ≡ self.old.path }
        ensures refused { is_ok result ≡ false → self.new ≡ self.old }
    {
        if self.owner(at.cell) != Some(at.board) {
            return Err(Refusal::NotOwner);
        }
        if self.unsettled(at) {
            return Err(Refusal::UnsettledWrite);
        }
        self.set_owner(at.cell, None);
        Ok(())
    }

    pub(crate) fn write_back_at(&mut self, at: Access) -> Result<(), Refusal>
        ensures step { write_back self.old.state at.board at.cell (entry_at self.old.state at) ≡ Some (done_answer result, self.new.state) }
        ensures path { Carries P.Path.starts P.Path.lands self.old.path (sent_from at.board at.cell (entry_at self.old.state at)) self.new.path }
        ensures refused { is_ok result ≡ false → self.new ≡ self.old }
    {
        match self.entry(at) {
            Entry::Invalid => Err(Refusal::NotCached),
            Entry::Clean(_) => Err(Refusal::NotDirty),
            // the word is on its way, so the entry is clean from here on
            Entry::Dirty(word) => self.send(at, word, Entry::Clean(word)),
        }
    }

    pub(crate) fn eject_at(&mut self, at: Access) -> Result<(), Refusal>
        ensures step { eject self.old.state at.board at.cell (entry_at self.old.state at) ≡ Some (done_answer result, self.new.state) }
        ensures path { Carries P.Path.starts P.Path.lands self.old.path (sent_from at.board at.cell (entry_at self.old.state at)) self.new.path }
        ensures refused { is_ok result ≡ false → self.new ≡ self.old }
    {
        match self.entry(at) {
            Entry::Invalid => Err(Refusal::NotCached),
            Entry::Clean(_) => {
                self.set_entry(at, Entry::Invalid);
                Ok(())
            }
            // the memory lacks the word, so it is sent before the place is empty
            Entry::Dirty(word) => self.send(at, word, Entry::Invalid),
        }
    }
}
