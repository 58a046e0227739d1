ghost use Rattle.std.specs.Prelude.{◌≡◌, []};
ghost use Rattle.judge.specs.Judging.{note_answer, extended, legal_answer};

use crate::judge::{Judge, MOST_EVENTS};
use home::source::Source;
use model::event::Event;
use model::refusal::Refusal;
use std::marker::Model;

// A judge at one bench, of so many boards and with the starting words of that source. Its list has room for all events.
#[derive(Drop)]
pub struct Hearing<'a, S: Source> {
    judge: Judge<'a>,
    boards: u32,
    source: &'a S,
}

impl<'a, S: Source> Model for Hearing<'a, S> {
    ghost use Rattle.std.specs.Prelude.{◌≡◌};
    ghost use Rattle.judge.specs.Hearing.{Heard};
    ghost use Rattle.judge.specs.Judging.{history_of, room_of};

    ghost Value = { Heard };

    ghost view = { λ h. record { history = history_of h.judge; boards = h.boards; words = S.words h.source.now } };

    ghost invariant = { λ h. room_of h.judge ≡ 2048 };
}

impl<'a, S: Source> Hearing<'a, S> {
    pub fn new(list: &'a mut [Event; MOST_EVENTS], boards: u32, source: &'a S) -> Hearing<'a, S>
        ensures { result ≡ record { history = []; boards = boards; words = S.Source.words source.now } }
    {
        let judge = Judge::new(list);
        Hearing {
            judge,
            boards,
            source,
        }
    }

    // Notes an event, and answers its number.
    pub fn note(&mut self, event: Event) -> Result<u32, Refusal>
        ensures answer { result ≡ note_answer self.old.history 2048 self.old.boards self.old.words event }
        ensures heard { self.new ≡ record self.old { history = extended result self.old.history event } }
    {
        self.judge.note(self.boards, self.source, event)
    }

    // The highest-numbered write of the word that the board may read on the cell, if there is one.
    pub fn legal(&self, board: u32, cell: u32, word: u32) -> Result<Option<u32>, Refusal>
        ensures { result ≡ legal_answer self.now.history self.now.boards self.now.words board cell word }
    {
        self.judge
            .legal(self.boards, self.source, board, cell, word)
    }
}
