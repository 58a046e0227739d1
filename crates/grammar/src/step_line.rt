ghost use Rattle.std.specs.Prelude.{◌≡◌, Some};
ghost use Rattle.std.specs.Option.{option_map};
ghost use Rattle.grammar.specs.declared.kind.Kind.TheVariants.{Run};
ghost use Rattle.grammar.specs.declared.trace_step.TraceStep.TheVariants.{Plain};
ghost use Rattle.grammar.specs.Pieces.{shown};
ghost use Rattle.grammar.specs.Steps.{step_of, room as room_for, step_said};

use super::item::Item;
use super::kind::Kind;
use super::number::{place_alone, place_word};
use super::trace_step::TraceStep;
use model::refusal::Refusal;
use model::step::Step;

// The most steps of a trace.
const MOST_STEPS: u32 = 2_048;

// The step that a letter and the rest of its line say in a run.
fn run_step(letter: u8, rest: &[u8]) -> Option<Step>
    ensures { option_map Plain result ≡ step_of Run letter rest.now }
{
    match letter as char {
        'r' => place_alone(rest).map(|(board, cell)| Step::Read { board, cell }),
        'w' => place_word(rest).map(|((board, cell), word)| Step::Write { board, cell, word }),
        'a' => place_alone(rest).map(|(board, cell)| Step::Acquire { board, cell }),
        'l' => place_alone(rest).map(|(board, cell)| Step::Release { board, cell }),
        'b' => place_alone(rest).map(|(board, cell)| Step::WriteBack { board, cell }),
        'e' => place_alone(rest).map(|(board, cell)| Step::Eject { board, cell }),
        'd' => rest.is_empty().then_some(Step::Land),
        _ => None,
    }
}

// The same in a trace of that kind: in a log a read adds the word read.
fn step_of(kind: Kind, letter: u8, rest: &[u8]) -> Option<TraceStep>
    ensures { result ≡ step_of kind letter rest.now }
{
    match (kind, letter as char) {
        (Kind::Log, 'r') => place_word(rest).map(|((board, cell), word)| TraceStep::ReadWord {
            board,
            cell,
            word,
        }),
        _ => run_step(letter, rest).map(TraceStep::Plain),
    }
}

fn room(before: u32, step: Option<TraceStep>) -> Result<TraceStep, Refusal>
    ensures { result ≡ room_for before step }
{
    let step = step.ok_or(Refusal::MalformedLine)?;
    if before < MOST_STEPS {
        Ok(step)
    } else {
        Err(Refusal::TextTooLong)
    }
}

// The step of a line that stands after `before` others.
pub fn step_said(kind: Kind, before: u32, item: Item<'_>) -> Result<TraceStep, Refusal>
    ensures { result ≡ step_said kind before (Some (shown item.entry)) }
{
    match item {
        Item::Step { letter, rest } => room(before, step_of(kind, letter, rest)),
        _ => Err(Refusal::MalformedLine),
    }
}
