ghost use Rattle.std.specs.Prelude.{◌≡◌, ◌<◌, ◌≤◌, true, [], length, OnOk, slice_index, slice_set};
ghost use Rattle.order.specs.Laws.{LawsOfOrder};
ghost use Rattle.order.specs.Order.{more, next};
ghost use Rattle.order.specs.Test.{on_boards, LegalDecided, OwnerDecided, ReadableDecided};
ghost use Rattle.judge.specs.Discipline.{DisciplineDecided};
ghost use Rattle.judge.specs.Examples.{Examples};
ghost use Rattle.judge.specs.Judging.{history_of, room_of, standing, allowed, admitted, note_answer, extended, placed, readable_answer, legal_answer};

use super::{Judge, MOST_EVENTS};
use crate::history::{History, Wanted};
use home::source::Source;
use model::event::{Action, Event};
use model::limits::{BOARDS, CELLS};
use model::refusal::Refusal;
use order::owner::owner;

// Whether there is such a board and such a cell, on a bench of so many boards and cells.
fn standing_on(boards: u32, cells: u32, board: u32, cell: u32) -> Result<(), Refusal>
    ensures answer { result ≡ standing boards cells board cell }
    ensures small { OnOk result ((board < 8) × (cell < cells)) }
{
    if !(1..=BOARDS).contains(&boards) || !(1..=CELLS).contains(&cells) {
        return Err(Refusal::SizeOutOfRange);
    }
    if board >= boards {
        return Err(Refusal::NoSuchBoard);
    }
    if cell >= cells {
        return Err(Refusal::NoSuchCell);
    }
    Ok(())
}

// Whether the owner of a cell, if it has one, lets the board do this.
fn allow(owner: Option<u32>, board: u32, action: Action) -> Result<(), Refusal>
    ensures { result ≡ allowed owner board action }
{
    match (action, owner) {
        (Action::Write(_), _) => Ok(()),
        (Action::Acquire, None) => Ok(()),
        (Action::Acquire, Some(holder)) if holder == board => Err(Refusal::OwnedAlready),
        (Action::Acquire, Some(_)) => Err(Refusal::OwnedByAnother),
        (Action::Release, Some(holder)) if holder == board => Ok(()),
        (Action::Release, _) => Err(Refusal::NotOwner),
    }
}

// Runs no code: it states what the answers decide of every history, in the words of the memory model.
fn decided()
    ensures owner { OwnerDecided }
    ensures discipline { DisciplineDecided }
    ensures laws { LawsOfOrder }
    ensures readable { ReadableDecided }
    ensures legal { LegalDecided }
    ensures examples { Examples }
{}

// The word that the cell started with.
fn starting_word<S: Source>(source: &S, cell: u32) -> u32
    ensures { result ≡ slice_index (S.Source.words source.now) cell }
{
    source.read(cell).unwrap_or(0)
}

impl<'a> Judge<'a> {
    // A judge that has noted nothing yet.
    pub fn new(list: &'a mut [Event]) -> Judge<'a>
        ensures history { history_of result ≡ [] }
        ensures list { result.list.now ≡ list.old }
        ensures lender { result.list.ghost_name ≡ list.entry.ghost_name }
    {
        Judge { list, noted: 0 }
    }

    // The events noted so far.
    fn history(&self) -> History<'_>
        ensures { result.events.now ≡ history_of self.now }
    {
        History {
            events: &self.list[..self.noted],
        }
    }

    // How many events can be noted in all.
    fn room(&self) -> usize
        ensures { result ≡ room_of self.now }
    {
        MOST_EVENTS.min(self.list.len())
    }

    // Adds an event to the history, in the first free place, and answers its number.
    fn push(&mut self, event: Event) -> u32
        requires room { length (history_of self.old) < room_of self.old }
        requires board { event.board < 8 }
        ensures answer { result ≡ next (history_of self.old) }
        ensures history { history_of self.new ≡ more (history_of self.old) event }
        ensures list { self.new.list.now ≡ slice_set self.old.list.now (length (history_of self.old)) event }
        ensures lender { self.new.list.ghost_name ≡ self.old.list.ghost_name }
    {
        self.list[self.noted] = event;
        self.noted += 1;
        self.noted as u32
    }

    // Whether the event may be noted.
    fn admit(&self, boards: u32, cells: u32, event: Event) -> Result<(), Refusal>
        ensures answer { result ≡ admitted (history_of self.now) (room_of self.now) boards cells event }
        ensures board { OnOk result (event.board < 8) }
        ensures room { OnOk result (length (history_of self.now) < room_of self.now) }
    {
        let history = self.history();
        standing_on(boards, cells, event.board, event.cell)?;
        allow(owner(history.events, event.cell), event.board, event.action)?;
        if history.events.len() >= self.room() {
            return Err(Refusal::EventsFull);
        }
        Ok(())
    }

    // Notes an event, and answers its number.
    pub fn note<S: Source>(&mut self, boards: u32, source: &S, event: Event) -> Result<u32, Refusal>
        ensures answer { result ≡ note_answer (history_of self.old) (room_of self.old) boards (S.Source.words source.now) event }
        ensures history { history_of self.new ≡ extended result (history_of self.old) event }
        ensures list { self.new.list.now ≡ placed result self.old.list.now (length (history_of self.old)) event }
        ensures lender { self.new.list.ghost_name ≡ self.old.list.ghost_name }
        ensures owner { OwnerDecided }
        ensures discipline { DisciplineDecided }
        ensures laws { LawsOfOrder }
    {
        decided();
        self.admit(boards, source.size(), event)?;
        Ok(self.push(event))
    }

    // Whether the board may read the write of that number on the cell.
    pub fn readable<S: Source>(
        &self,
        boards: u32,
        source: &S,
        board: u32,
        cell: u32,
        number: u32,
    ) -> Result<bool, Refusal>
        ensures answer { result ≡ readable_answer (history_of self.now) boards (S.Source.words source.now) board cell number }
        ensures boards { on_boards (history_of self.now) ≡ true }
        ensures decided { ReadableDecided }
    {
        decided();
        let history = self.history();
        standing_on(boards, source.size(), board, cell)?;
        let writer = history.writer_of(cell, number).ok_or(Refusal::NotAWrite)?;
        Ok(history.overwritten(board, cell)[writer] <= number)
    }

    // The highest-numbered write of the word that the board may read on the cell, if there is one. The initial write's
    // number is 0, and no case of its own: writes are known to callers by their numbers alone.
    pub fn legal<S: Source>(
        &self,
        boards: u32,
        source: &S,
        board: u32,
        cell: u32,
        word: u32,
    ) -> Result<Option<u32>, Refusal>
        ensures answer { result ≡ legal_answer (history_of self.now) boards (S.Source.words source.now) board cell word }
        ensures boards { on_boards (history_of self.now) ≡ true }
        ensures decided { LegalDecided }
        ensures examples { Examples }
    {
        decided();
        let history = self.history();
        standing_on(boards, source.size(), board, cell)?;
        let wanted = Wanted {
            cell,
            word,
            start: starting_word(source, cell),
            over: history.overwritten(board, cell),
        };
        Ok(history.highest_legal(&wanted))
    }
}
