use crate::flat::Flat;
use judge::hearing::Hearing;
use judge::judge::{Judge, MOST_EVENTS};
use model::event::{Action, Event};
use model::refusal::Refusal;

const MOST: u32 = u32::MAX;

// One cell that starts with the word 0.
const ONE_CELL: Flat = Flat { cells: 1, word: 0 };

fn event(board: u32, cell: u32, action: Action) -> Event {
    Event {
        board,
        cell,
        action,
    }
}

// What stands in places that the judge has not taken.
fn blank() -> Event {
    event(7, 63, Action::Write(7))
}

// Boards 0 and 9 and sizes 0, 65 and 65,536 are refused before anything else is looked at.
#[test]
fn sizes_go_first(rt: HostRuntime) {
    let mut list = [blank(); 3];
    {
        let mut judge = Judge::new(&mut list);
        let bad = event(9, 65, Action::Release);
        for (boards, cells) in [
            (0, 1),
            (9, 1),
            (MOST, 1),
            (1, 0),
            (1, 65),
            (1, 65_536),
            (0, 0),
        ] {
            let source = Flat { cells, word: 0 };
            assert_eq!(rt;
                judge.note(boards, &source, bad),
                Err(Refusal::SizeOutOfRange)
            );
            assert_eq!(rt;
                judge.readable(boards, &source, 9, 65, 7),
                Err(Refusal::SizeOutOfRange)
            );
            assert_eq!(rt;
                judge.legal(boards, &source, 9, 65, 7),
                Err(Refusal::SizeOutOfRange)
            );
        }
        assert_eq!(rt;
            judge.legal(8, &Flat { cells: 64, word: 7 }, 7, 63, 7),
            Ok(Some(0))
        );
        assert_eq!(rt;
            judge.note(
                8,
                &Flat { cells: 64, word: 7 },
                event(7, 63, Action::Acquire),
            ),
            Ok(1)
        );
    }
    assert_eq!(rt; list[0], event(7, 63, Action::Acquire));
    assert_eq!(rt; list[1], blank());
    assert_eq!(rt; list[2], blank());
}

// Then the board, then the cell; nothing is noted.
#[test]
fn board_before_cell(rt: HostRuntime) {
    let mut list = [blank(); 3];
    {
        let mut judge = Judge::new(&mut list);
        for board in [2, 8, MOST] {
            assert_eq!(rt;
                judge.note(2, &ONE_CELL, event(board, 1, Action::Acquire)),
                Err(Refusal::NoSuchBoard)
            );
            assert_eq!(rt;
                judge.readable(2, &ONE_CELL, board, 1, 0),
                Err(Refusal::NoSuchBoard)
            );
            assert_eq!(rt;
                judge.legal(2, &ONE_CELL, board, 1, 0),
                Err(Refusal::NoSuchBoard)
            );
        }
        for cell in [1, 64, MOST] {
            assert_eq!(rt;
                judge.note(2, &ONE_CELL, event(1, cell, Action::Release)),
                Err(Refusal::NoSuchCell)
            );
            assert_eq!(rt;
                judge.readable(2, &ONE_CELL, 1, cell, MOST),
                Err(Refusal::NoSuchCell)
            );
            assert_eq!(rt;
                judge.legal(2, &ONE_CELL, 1, cell, 0),
                Err(Refusal::NoSuchCell)
            );
        }
    }
    assert_eq!(rt; list[0], blank());
}

// Owned already, owned by another, not the owner; each is refused before a full list.
#[test]
fn owners(rt: HostRuntime) {
    let mut list = [blank(); 2];
    {
        let mut judge = Judge::new(&mut list);
        for (board, action, answer) in [
            (0, Action::Release, Err(Refusal::NotOwner)),
            (0, Action::Acquire, Ok(1)),
            (0, Action::Acquire, Err(Refusal::OwnedAlready)),
            (1, Action::Acquire, Err(Refusal::OwnedByAnother)),
            (1, Action::Release, Err(Refusal::NotOwner)),
            (1, Action::Write(MOST), Ok(2)),
            (0, Action::Acquire, Err(Refusal::OwnedAlready)),
            (1, Action::Release, Err(Refusal::NotOwner)),
            (0, Action::Release, Err(Refusal::EventsFull)),
        ] {
            assert_eq!(rt; judge.note(2, &ONE_CELL, event(board, 0, action)), answer);
        }
    }
    assert_eq!(rt; list[0], event(0, 0, Action::Acquire));
    assert_eq!(rt; list[1], event(1, 0, Action::Write(MOST)));
}

// A list of no places holds no event; all questions can still be asked.
#[test]
fn no_places(rt: HostRuntime) {
    let mut list = [blank(); 0];
    let mut judge = Judge::new(&mut list);
    assert_eq!(rt;
        judge.note(1, &ONE_CELL, event(0, 0, Action::Write(1))),
        Err(Refusal::EventsFull)
    );
    assert_eq!(rt; judge.readable(1, &ONE_CELL, 0, 0, 0), Ok(true));
    assert_eq!(rt;
        judge.readable(1, &ONE_CELL, 0, 0, 1),
        Err(Refusal::NotAWrite)
    );
    assert_eq!(rt; judge.legal(1, &ONE_CELL, 0, 0, 0), Ok(Some(0)));
    assert_eq!(rt; judge.legal(1, &ONE_CELL, 0, 0, 1), Ok(None));
}

// Only the first 2,048 places of a longer list are used.
#[test]
fn more_places_than_events(rt: HostRuntime) {
    let mut list = [blank(); 2_050];
    {
        let mut judge = Judge::new(&mut list);
        for number in 1..2_049 {
            assert_eq!(rt;
                judge.note(1, &ONE_CELL, event(0, 0, Action::Write(number))),
                Ok(number)
            );
        }
        assert_eq!(rt;
            judge.note(1, &ONE_CELL, event(0, 0, Action::Write(0))),
            Err(Refusal::EventsFull)
        );
        assert_eq!(rt; judge.legal(1, &ONE_CELL, 0, 0, 2_048), Ok(Some(2_048)));
        assert_eq!(rt; judge.legal(1, &ONE_CELL, 0, 0, 2_047), Ok(None));
        assert_eq!(rt; judge.readable(1, &ONE_CELL, 0, 0, 2_048), Ok(true));
        assert_eq!(rt; judge.readable(1, &ONE_CELL, 0, 0, 2_047), Ok(false));
    }
    assert_eq!(rt; list[2_047], event(0, 0, Action::Write(2_048)));
    assert_eq!(rt; list[2_048], blank());
}

// A number past the last event, of another cell, of an acquire or of a release is no write of the cell.
#[test]
fn no_such_write(rt: HostRuntime) {
    let two_cells = Flat { cells: 2, word: 0 };
    let mut list = [blank(); 4];
    let mut judge = Judge::new(&mut list);
    for (cell, action, number) in [
        (0, Action::Acquire, 1),
        (1, Action::Write(5), 2),
        (0, Action::Release, 3),
    ] {
        assert_eq!(rt;
            judge.note(2, &two_cells, event(0, cell, action)),
            Ok(number)
        );
    }
    for number in [1, 2, 3, 4, 5, MOST] {
        assert_eq!(rt;
            judge.readable(2, &two_cells, 1, 0, number),
            Err(Refusal::NotAWrite)
        );
    }
    assert_eq!(rt; judge.readable(2, &two_cells, 1, 1, 2), Ok(true));
    assert_eq!(rt; judge.readable(2, &two_cells, 0, 1, 0), Ok(true));
    assert_eq!(rt; judge.legal(2, &two_cells, 0, 0, 5), Ok(None));
}

// The largest word, as a starting word and written.
#[test]
fn largest_word(rt: HostRuntime) {
    let source = Flat {
        cells: 1,
        word: MOST,
    };
    let mut list = [blank(); 4];
    let mut judge = Judge::new(&mut list);
    assert_eq!(rt; judge.legal(2, &source, 1, 0, MOST), Ok(Some(0)));
    assert_eq!(rt;
        judge.note(2, &source, event(0, 0, Action::Write(MOST))),
        Ok(1)
    );
    assert_eq!(rt; judge.legal(2, &source, 1, 0, MOST), Ok(Some(1)));
    assert_eq!(rt; judge.legal(2, &source, 1, 0, 0), Ok(None));
}

// p acquires, writes 1 and releases; q writes 2 and acquires: q may read 1 and 2, and not the starting word.
#[test]
fn handed_over(rt: HostRuntime) {
    for (p, q) in [(0, 1), (1, 0)] {
        let mut list = [blank(); 8];
        let mut judge = Judge::new(&mut list);
        for (board, action, number) in [
            (p, Action::Acquire, 1),
            (p, Action::Write(1), 2),
            (p, Action::Release, 3),
            (q, Action::Write(2), 4),
        ] {
            assert_eq!(rt;
                judge.note(2, &ONE_CELL, event(board, 0, action)),
                Ok(number)
            );
        }
        assert_eq!(rt; judge.legal(2, &ONE_CELL, q, 0, 0), Ok(Some(0)));
        assert_eq!(rt;
            judge.note(2, &ONE_CELL, event(q, 0, Action::Acquire)),
            Ok(5)
        );
        assert_eq!(rt; judge.legal(2, &ONE_CELL, q, 0, 1), Ok(Some(2)));
        assert_eq!(rt; judge.legal(2, &ONE_CELL, q, 0, 2), Ok(Some(4)));
        assert_eq!(rt; judge.legal(2, &ONE_CELL, q, 0, 0), Ok(None));
        assert_eq!(rt; judge.readable(2, &ONE_CELL, q, 0, 0), Ok(false));
    }
}

// A board that only writes may still read the starting word; one that writes twice may not read its first word.
#[test]
fn own_writes(rt: HostRuntime) {
    let mut list = [blank(); 8];
    let mut judge = Judge::new(&mut list);
    assert_eq!(rt;
        judge.note(2, &ONE_CELL, event(1, 0, Action::Write(2))),
        Ok(1)
    );
    assert_eq!(rt; judge.legal(2, &ONE_CELL, 1, 0, 0), Ok(Some(0)));
    assert_eq!(rt; judge.legal(2, &ONE_CELL, 1, 0, 2), Ok(Some(1)));
    assert_eq!(rt;
        judge.note(2, &ONE_CELL, event(0, 0, Action::Write(1))),
        Ok(2)
    );
    assert_eq!(rt;
        judge.note(2, &ONE_CELL, event(0, 0, Action::Write(2))),
        Ok(3)
    );
    assert_eq!(rt; judge.legal(2, &ONE_CELL, 0, 0, 1), Ok(None));
    assert_eq!(rt; judge.legal(2, &ONE_CELL, 1, 0, 1), Ok(Some(2)));
}

// A hearing answers what its judge does, for its own number of boards and its own source.
#[test]
fn heard(rt: HostRuntime) {
    let mut list = [blank(); MOST_EVENTS];
    let mut hearing = Hearing::new(&mut list, 2, &ONE_CELL);
    assert_eq!(rt;
        hearing.note(event(2, 0, Action::Write(5))),
        Err(Refusal::NoSuchBoard)
    );
    assert_eq!(rt; hearing.note(event(1, 0, Action::Write(5))), Ok(1));
    assert_eq!(rt; hearing.legal(1, 0, 5), Ok(Some(1)));
    assert_eq!(rt; hearing.legal(0, 0, 0), Ok(Some(0)));
    assert_eq!(rt; hearing.legal(0, 1, 0), Err(Refusal::NoSuchCell));
}
