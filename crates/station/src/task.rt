ghost use Rattle.std.specs.Prelude.{◌≡◌};
ghost use Rattle.station.specs.Tasks.{task_of};

use grammar::trace_step::TraceStep;
use model::event::Event;

// What the judge has to do at a step of a log: note an event, check the word that was read, or nothing. Nothing is a
// task too, and no `None`, so that the laws speak of each step's task.
#[derive(Clone, Copy, PartialEq, Eq, Debug)]
pub enum Task {
    Note(Event),
    Check { board: u32, cell: u32, word: u32 },
    Skip,
}

// Write backs, ejects and landings move words about and are skipped. A log has no read without its word.
pub fn task_of(step: TraceStep) -> Task
    ensures { result ≡ task_of step }
{
    match step {
        TraceStep::ReadWord { board, cell, word } => Task::Check { board, cell, word },
        TraceStep::Plain(step) => step.event().map_or(Task::Skip, Task::Note),
    }
}
