ghost use Rattle.std.specs.Prelude.{◌≡◌, ◌<◌, ◌≤◌};
ghost use Rattle.order.specs.Test.{later, initially, joining, passing, writing};

use model::event::{Action, Event};
use order::view::{NO_BOARD, View, Views, WRITERS};

// The greater of two bounds, for each writer.
fn greater(mut a: [u32; WRITERS], b: [u32; WRITERS]) -> [u32; WRITERS]
    ensures { result ≡ later a b }
{
    // By index: after a `zip` the proof doesn't know what was written, and of `array::from_fn` not that each call read `a`
    // and `b`.
    for (i, bound) in a.iter_mut().enumerate() {
        *bound = (*bound).max(b[i]);
    }
    a
}

// What is known in either of two views.
fn joined(view: View, other: View) -> View
    ensures { result ≡ joining view other }
{
    View {
        known: greater(view.known, other.known),
        over: greater(view.over, other.over),
    }
}

// Before any event: nothing is known, and at the initial release the initial write.
pub(crate) fn initial() -> Views
    ensures { result ≡ initially }
{
    let none = [0; WRITERS];
    let mut known = none;
    known[NO_BOARD] = 1;
    Views {
        boards: [View {
            known: none,
            over: none,
        }; 8],
        released: View { known, over: none },
    }
}

// After a write by the board: what was known is overwritten, and the write itself is known. Boards and numbers are `u32` in
// all calls, so the bounds are asked for here and not held by types of their own.
fn written(view: View, board: usize, number: u32) -> View
    requires board { board < 8 }
    requires number { number ≤ 2048 }
    ensures { result ≡ writing board number view }
{
    let over = view.known;
    let mut known = over;
    known[board] = number + 1;
    View { known, over }
}

// Takes in the event of that number; one on another cell tells nothing.
pub(crate) fn take_in(known: &mut Views, number: u32, event: Event, cell: u32)
    requires board { event.board < 8 }
    requires number { number ≤ 2048 }
    ensures { known.new ≡ passing cell number event known.old }
{
    if event.cell != cell {
        return;
    }
    let board = event.board as usize;
    let view = known.boards[board];
    match event.action {
        Action::Write(_) => known.boards[board] = written(view, board, number),
        Action::Acquire => known.boards[board] = joined(view, known.released),
        Action::Release => known.released = view,
    }
}
