ghost use Rattle.std.specs.Prelude.{◌≡◌};
ghost use Rattle.std.specs.Result.{result_err};
ghost use Rattle.text.specs.Traces.{course_of};
ghost use Rattle.station.specs.Verdicts.{task_answer, history_after, end_of, ended, judged_to, resumed};
ghost use Rattle.station.specs.declared.verdict.Verdict.TheVariants.{AllLegal};

use crate::task::{Task, task_of};
use crate::verdict::Verdict;
use home::pair_home::PairHome;
use judge::hearing::Hearing;
use text::fault::Fault;
use text::trace::Trace;

// Does what the judge has to do at the step of that line. An error is the verdict that ends the judging there.
fn perform(hearing: &mut Hearing<'_, PairHome>, task: Task, line: u32) -> Result<(), Verdict>
    ensures answer { result_err result ≡ ended (task_answer hearing.old.history hearing.old.boards hearing.old.words task) line }
    ensures heard { hearing.new ≡ record hearing.old { history = history_after hearing.old.history hearing.old.boards hearing.old.words task } }
{
    let fault = |refusal| Verdict::Faulty(Fault::new(refusal, line));
    match task {
        Task::Note(event) => {
            hearing.note(event).map_err(fault)?;
        }
        Task::Check { board, cell, word } => {
            let write = hearing.legal(board, cell, word).map_err(fault)?;
            write.ok_or(Verdict::FalseRead { line })?;
        }
        Task::Skip => {}
    }
    Ok(())
}

// Judges the steps that a trace still has, after the events noted so far. An error is the verdict that ends the judging.
pub(crate) fn judge_steps(
    trace: &mut Trace<'_>,
    hearing: &mut Hearing<'_, PairHome>,
) -> Result<(), Verdict>
    ensures { resumed (result_err result) AllLegal ≡ judged_to (end_of (course_of trace.old).fault) hearing.old.boards hearing.old.words hearing.old.history (course_of trace.old).steps }
{
    while let Some(placed) = trace.next().map_err(Verdict::Faulty)? {
        perform(hearing, task_of(placed.step), placed.line)?;
    }
    Ok(())
}
