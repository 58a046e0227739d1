// Which words the judge lets a board read, on one cell that starts at 0.
use super::told::Told;
use home::pair_home::PairHome;
use judge::judge::{FREE, Judge};
use model::event::{Action, Event};
use std::io;

const BOARDS: u32 = 2;

const CELL: u32 = 0;

pub fn show(rt: &impl Print) -> io::Result<()> {
    println!(rt; "board 0 hands the cell over to board 1:")?;
    let handed = [
        (0, Action::Acquire),
        (0, Action::Write(1)),
        (0, Action::Release),
        (1, Action::Write(2)),
        (1, Action::Acquire),
        (1, Action::Acquire),
    ];
    scene(rt, &mut [FREE; 5], &handed, 1, &[0, 1, 2])?;
    println!(rt; "board 1 only writes:")?;
    scene(rt, &mut [FREE; 1], &[(1, Action::Write(2))], 1, &[0, 2])?;
    println!(rt; "board 0 writes twice:")?;
    let twice = [(0, Action::Write(1)), (0, Action::Write(2))];
    scene(rt, &mut [FREE; 2], &twice, 0, &[1, 2])
}

// A judge with that list of events hears what some boards do, and is asked which of the words a board may read.
fn scene(
    rt: &impl Print,
    events: &mut [Event],
    actions: &[(u32, Action)],
    reader: u32,
    words: &[u32],
) -> io::Result<()> {
    let mut judge = Judge::new(events);
    for (board, action) in actions {
        note(rt, &mut judge, *board, *action)?;
    }
    for word in words {
        ask(rt, &judge, reader, *word)?;
    }
    Ok(())
}

fn note(rt: &impl Print, judge: &mut Judge<'_>, board: u32, action: Action) -> io::Result<()> {
    let told = Told(action);
    let event = Event {
        board,
        cell: CELL,
        action,
    };
    match judge.note(BOARDS, &PairHome::new(1, 0), event) {
        Ok(number) => println!(rt; "  board {board} {told}: event {number}"),
        Err(refusal) => println!(rt; "  board {board} {told}: {}", Told(refusal)),
    }
}

fn ask(rt: &impl Print, judge: &Judge<'_>, board: u32, word: u32) -> io::Result<()> {
    match judge.legal(BOARDS, &PairHome::new(1, 0), board, CELL, word) {
        Ok(Some(0)) => println!(rt; "  board {board} may read {word}, the starting word"),
        Ok(Some(number)) => println!(rt; "  board {board} may read {word}, of event {number}"),
        Ok(None) => println!(rt; "  board {board} may not read {word}"),
        Err(refusal) => println!(rt; "  board {board} may not ask: {refusal}"),
    }
}
