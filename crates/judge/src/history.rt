ghost use Rattle.std.specs.Prelude.{◌≡◌, ◌+◌, ◌<◌, ◌≤◌, true, ◌&&◌, length, take, IfSome, Some};
ghost use Rattle.order.specs.Order.{event_at};
ghost use Rattle.order.specs.Test.{bounds, brings, brings_by, current, legal_under, on_boards, views, writer_in, writer_of};
ghost use Rattle.judge.specs.Settling.{Settled};

use crate::views::{initial, take_in};
use model::event::{Action, Event};
use model::search::newest;
use order::view::{NO_BOARD, Views, WRITERS};

// The events that a judge has noted, oldest first.
#[derive(Clone, Copy)]
pub(crate) struct History<'a> {
    pub events: &'a [Event],
    ghost boards: { on_boards events.now ≡ true },
    ghost few: { length events.now ≤ 2048 },
}

// The writer of an event, if it is a write of the cell.
fn written_by(event: Event, cell: u32) -> Option<usize>
    ensures { result ≡ writer_in cell (Some event) }
{
    let writes = event.cell == cell && matches!(event.action, Action::Write(_));
    writes.then_some(event.board as usize)
}

// What is asked for: a write of the word to the cell, which starts with the word `start` and whose writers' writes are
// overwritten below the numbers in `over`.
#[derive(Drop)]
pub(crate) struct Wanted {
    pub cell: u32,
    pub word: u32,
    pub start: u32,
    pub over: [u32; WRITERS],
}

impl Wanted {
    // Whether an event of that number is such a write and is not overwritten.
    fn met_by(&self, event: Event, number: u32) -> bool
        requires { event.board < 8 }
        ensures { result ≡ (current self.now.over number (writer_in self.now.cell (Some event)) && brings_by event.action self.now.word) }
    {
        event.cell == self.cell
            && event.action == Action::Write(self.word)
            && self.over[event.board as usize] <= number
    }
}

impl<'a> History<'a> {
    // The events up to that place.
    fn up_to(self, place: usize) -> History<'a>
        requires { place < length self.events.now }
        ensures { result.events.now ≡ take (place + 1) self.entry.events.now }
    {
        History {
            events: &self.events[..=place],
        }
    }

    // The views of the cell. A loop, which changes the table in place: a fold would hand all of it on at each event.
    fn survey(self, cell: u32) -> Views
        ensures { result ≡ views cell self.entry.events.now }
    {
        let mut known = initial();
        for (i, event) in self.events.iter().enumerate() {
            take_in(&mut known, i as u32 + 1, *event, cell);
        }
        known
    }

    // The place of the board's latest event on the cell. What comes after it changes nothing for the board, and a board
    // with no event there knows nothing.
    fn latest(self, board: u32, cell: u32) -> Option<usize>
        ensures { Settled self.entry.events.now board cell result }
    {
        newest(self.events, board, cell)
    }

    // For each writer, below which number its writes of the cell are overwritten for the board.
    pub fn overwritten(self, board: u32, cell: u32) -> [u32; WRITERS]
        requires { board < 8 }
        ensures { result ≡ bounds self.entry.events.now cell board }
    {
        // No `map_or`: its closure isn't told that the place is one of the list.
        match self.latest(board, cell) {
            Some(place) => self.up_to(place).survey(cell).boards[board as usize].over,
            None => [0; WRITERS],
        }
    }

    // The event of that number.
    fn event_at(self, number: u32) -> Option<Event>
        ensures { result ≡ event_at self.entry.events.now number }
    {
        let place = (number as usize).checked_sub(1)?;
        self.events.get(place).copied()
    }

    // The writer of the cell's write of that number, if there is one.
    pub fn writer_of(self, cell: u32, number: u32) -> Option<usize>
        ensures writer { result ≡ writer_of self.entry.events.now cell number }
        ensures bound { IfSome result (λ p. p < 9) }
    {
        if number == 0 {
            return Some(NO_BOARD);
        }
        written_by(self.event_at(number)?, cell)
    }

    // Whether that is the number of such a write that is not overwritten.
    fn is_current(self, number: u32, wanted: &Wanted) -> bool
        ensures { result ≡ (current wanted.now.over number (writer_of self.entry.events.now wanted.now.cell number) && brings self.entry.events.now wanted.now.start number wanted.now.word) }
    {
        match self.event_at(number) {
            Some(event) => wanted.met_by(event, number),
            None => number == 0 && wanted.over[NO_BOARD] == 0 && wanted.start == wanted.word,
        }
    }

    // The highest-numbered such write that is not overwritten.
    pub fn highest_legal(self, wanted: &Wanted) -> Option<u32>
        ensures { result ≡ legal_under wanted.now.over self.entry.events.now wanted.now.start wanted.now.cell wanted.now.word }
    {
        (0..=self.events.len() as u32)
            .rev()
            .find(|&number| self.is_current(number, wanted))
    }
}
