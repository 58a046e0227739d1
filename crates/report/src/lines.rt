ghost use Rattle.std.specs.Prelude.{◌≡◌, [], ◌∷◌, ◌++◌, IfOk, string_bytes, OnOk};
ghost use Rattle.text.specs.Printing.{text_of};
ghost use Rattle.report.specs.Output.{answer_lines, legal_line, fault_line};

use crate::line::Line;
use model::answer::Answer;
use std::alloc::{AllocError, Global};
use text::fault::Fault;

// A line for each answer; the first is that of step 1.
fn add_answers(out: &mut String, answers: &[Answer]) -> Result<(), AllocError>
    ensures { OnOk result (string_bytes out.new ≡ string_bytes out.old ++ text_of (answer_lines 1 answers.now)) }
{
    for (i, answer) in answers.iter().enumerate() {
        let line = Line::Answered {
            step: i + 1,
            answer: *answer,
        };
        writeln!(out, "{line}")?;
    }
    Ok(())
}

// The whole text of a run: a line for each answer, and last what the judge found.
#[tactic(auto, using(crate::proofs::Loops::line_behind))]
pub(crate) fn run_text(
    heap: Global,
    answers: &[Answer],
    wrong: Option<usize>,
) -> Result<String, AllocError>
    ensures { IfOk result (λ t. string_bytes t ≡ text_of (answer_lines 1 answers.now ++ legal_line wrong ∷ [])) }
{
    let mut out = String::new(heap);
    add_answers(&mut out, answers)?;
    let last = Line::FirstWrong(wrong);
    writeln!(out, "{last}")?;
    Ok(out)
}

// The whole text for a trace that is at fault.
pub(crate) fn fault_text(heap: Global, fault: Fault) -> Result<String, AllocError>
    ensures { IfOk result (λ t. string_bytes t ≡ text_of (fault_line fault ∷ [])) }
{
    let line = Line::Faulty(fault);
    format!(in heap; "{line}\n")
}
