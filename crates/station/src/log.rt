ghost use Rattle.std.specs.Prelude.{◌≡◌, [], replicate};
ghost use Rattle.std.specs.Result.{result_err};
ghost use Rattle.grammar.specs.declared.kind.Kind.TheVariants.{Log};
ghost use Rattle.home.specs.PairHome.{size_for};
ghost use Rattle.text.specs.Reading.{course_in};
ghost use Rattle.station.specs.Laws.{FalseExactly};
ghost use Rattle.station.specs.Verdicts.{verdict_of, end_of, judged_to, resumed};
ghost use Rattle.station.specs.declared.verdict.Verdict.TheVariants.{AllLegal};

use crate::steps::judge_steps;
use crate::verdict::Verdict;
use grammar::kind::Kind;
use home::pair_home::PairHome;
use judge::hearing::Hearing;
use judge::judge::{FREE, MOST_EVENTS};
use text::check::check;
use text::header::Header;
use text::trace::Trace;

// Judges a log of that header, step by step.
fn judge_under(header: Header, log: &[u8]) -> Result<(), Verdict>
    ensures { resumed (result_err result) AllLegal ≡ judged_to (end_of (course_in Log log.now).fault) header.boards (replicate (size_for header.cells) header.start) [] (course_in Log log.now).steps }
{
    let home = PairHome::new(header.cells, header.start);
    let mut trace = Trace::open(Kind::Log, log);
    let mut events = [FREE; MOST_EVENTS];
    judge_steps(
        &mut trace,
        &mut Hearing::new(&mut events, header.boards, &home),
    )
}

// The verdict on a text, or its first fault as a log; or else what the judge finds, step by step.
fn judged(log: &[u8]) -> Result<(), Verdict>
    ensures { resumed (result_err result) AllLegal ≡ verdict_of log.now }
{
    let header = check(Kind::Log, log).map_err(Verdict::Faulty)?;
    judge_under(header, log)
}

// Runs no code: it states which read is told to be false, in the words of the memory model.
fn false_exactly()
    ensures { FalseExactly }
{}

// The verdict on a text: its first fault as a log, if it has one; or else what the judge finds, step by step.
pub fn judge_log(log: &[u8]) -> Verdict
    ensures verdict { result ≡ verdict_of log.now }
    ensures law { FalseExactly }
{
    false_exactly();
    judged(log).err().unwrap_or(Verdict::AllLegal)
}
