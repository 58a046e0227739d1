ghost use Rattle.std.specs.Prelude.{◌≡◌, ◌≤◌, true, length, take};
ghost use Rattle.order.specs.Test.{on_boards};

use model::event::{Action, Event};

pub mod calls;

// The most events that a judge notes.
pub const MOST_EVENTS: usize = 2_048;

// What may stand in the places of a list of events that are still free: some event and no `Option`, since the caller lends a
// list of events. Written out, since a constant calls no `default`.
pub const FREE: Event = Event {
    board: 0,
    cell: 0,
    action: Action::Release,
};

// A history of events, oldest first, in the first places of a list that the caller lends; the places behind them are free.
#[derive(Drop)]
pub struct Judge<'a> {
    list: &'a mut [Event],
    noted: usize,
    ghost few: { noted ≤ 2048 },
    ghost within: { noted ≤ length list.now },
    ghost boards: { on_boards (take noted list.now) ≡ true },
}
