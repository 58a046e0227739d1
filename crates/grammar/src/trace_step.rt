ghost use Rattle.std.specs.Prelude.{◌≡◌};
ghost use Rattle.grammar.specs.Steps.{plain_step};

use model::step::Step;

// What a step line says. A log's read has the word read beside it, which is no part of the step: the engine is told to
// read, and the word is its answer. So the engine's own `Step` has no place for that word, and the text has this one.
#[derive(Clone, Copy, PartialEq, Eq, Debug)]
pub enum TraceStep {
    Plain(Step),
    ReadWord { board: u32, cell: u32, word: u32 },
}

impl TraceStep {
    // The step that the line names, without the word that a log adds. A method and no `From`, since the word is lost.
    pub fn step(self) -> Step
        ensures { result ≡ plain_step self }
    {
        match self {
            TraceStep::Plain(step) => step,
            TraceStep::ReadWord {
                board,
                cell,
                word: _,
            } => Step::Read { board, cell },
        }
    }
}
