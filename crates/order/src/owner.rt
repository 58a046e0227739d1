ghost use Rattle.std.specs.Prelude.{◌≡◌, None, option_and_then};
ghost use Rattle.order.specs.Laws.{LawsOfOrder};
ghost use Rattle.order.specs.Test.{changes_owner, owner_by, owner_of, OwnerDecided};

use model::event::{Action, Event};

// Whether the event changes who owns the cell.
fn changes_owner(event: &Event, cell: u32) -> bool
    ensures { result ≡ changes_owner cell event.now }
{
    event.cell == cell && !matches!(event.action, Action::Write(_))
}

// Whom such an event makes the owner.
fn new_owner(event: Event) -> Option<u32>
    ensures { result ≡ owner_by event.action event.board None }
{
    matches!(event.action, Action::Acquire).then_some(event.board)
}

// The last event that changes who owns the cell.
fn last_change(history: &[Event], cell: u32) -> Option<Event>
    ensures { owner_of history.now cell ≡ option_and_then (λ e. owner_by e.action e.board None) result }
{
    let place = history
        .iter()
        .rposition(|event| changes_owner(event, cell))?;
    Some(history[place])
}

// The board that made the cell's last acquire, if no release follows it.
pub fn owner(history: &[Event], cell: u32) -> Option<u32>
    ensures owner { result ≡ owner_of history.now cell }
    ensures decided { OwnerDecided }
    ensures laws { LawsOfOrder }
{
    last_change(history, cell).and_then(new_owner)
}
