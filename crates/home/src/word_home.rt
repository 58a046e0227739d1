#![tactic(auto, using(crate::proofs::Lists::counted_laws))]

ghost use Rattle.std.specs.Prelude.{◌≡◌};
ghost use Rattle.home.specs.Words.{write_at, written};
ghost use Rattle.home.specs.WordHome.{counted, listed};

use super::source::{Home, Source, check_cell, first_words};
use model::refusal::Refusal;

// A home whose words stand in a list that the caller provides. A longer list counts up to the most cells of a source.
#[derive(Drop)]
pub struct WordHome<'a> {
    list: &'a mut [u32],
}

impl<'a> WordHome<'a> {
    pub fn new(list: &'a mut [u32]) -> Self
        ensures words { counted result.list.now ≡ counted list.old }
        ensures lent { (result.list.ghost_name ≡ list.entry.ghost_name) × (result.list.now ≡ list.old) }
    {
        WordHome { list }
    }

    // The words that count.
    #[tactic(auto, unfolding(crate::specs::WordHome::counted))]
    fn words(&self) -> &[u32]
        ensures words { result.now ≡ counted self.now.list.now }
    {
        first_words(self.list)
    }
}

impl Source for WordHome<'_> {
    ghost words = { λ s. counted s.list.now };

    fn size(&self) -> u32 {
        self.words().len() as u32
    }

    fn read(&self, cell: u32) -> Result<u32, Refusal> {
        self.words()
            .get(cell as usize)
            .copied()
            .ok_or(Refusal::NoSuchCell)
    }
}

impl Home for WordHome<'_> {
    fn write(&mut self, cell: u32, word: u32) -> Result<(), Refusal>
        ensures answer { result ≡ write_at (counted self.old.list.now) cell }
        ensures after { counted self.new.list.now ≡ written (counted self.old.list.now) cell word }
        ensures list { self.new.list.now ≡ listed self.old.list.now cell word }
        ensures lent { self.new.list.ghost_name ≡ self.old.list.ghost_name }
    {
        check_cell(cell, self.size())?;
        self.list[cell as usize] = word;
        Ok(())
    }
}
