use super::event::{Action, Event};

// One step of a run: what a board does to a cell, or the landing of one write back, which is the path's own choice.
// Board and cell are two numbers here and in every public call, as a log has them; a type for each would need a conversion
// that can be refused.
#[derive(Clone, Copy, PartialEq, Eq, Debug)]
pub enum Step {
    Read { board: u32, cell: u32 },
    Write { board: u32, cell: u32, word: u32 },
    Acquire { board: u32, cell: u32 },
    Release { board: u32, cell: u32 },
    WriteBack { board: u32, cell: u32 },
    Eject { board: u32, cell: u32 },
    Land,
}

impl Step {
    ghost use Rattle.std.specs.Prelude.{◌≡◌};
    ghost use Rattle.model.specs.Steps.{event_of};

    // The event that the step is, if it is accepted; reads, write backs, ejects and landings are none.
    pub fn event(self) -> Option<Event>
        ensures { result ≡ event_of self }
    {
        let (board, cell, action) = match self {
            Step::Write { board, cell, word } => (board, cell, Action::Write(word)),
            Step::Acquire { board, cell } => (board, cell, Action::Acquire),
            Step::Release { board, cell } => (board, cell, Action::Release),
            Step::Read { .. } | Step::WriteBack { .. } | Step::Eject { .. } | Step::Land =>
                return None,
        };
        Some(Event {
            board,
            cell,
            action,
        })
    }
}
