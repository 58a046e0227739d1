ghost use Rattle.std.specs.Prelude.{◌≡◌, ◌≤◌, [], length};
ghost use Rattle.std.specs.Option.{option_to_list};
ghost use Rattle.home.specs.PairHome.{words_of};
ghost use Rattle.rules.specs.Logs.{event_in};
ghost use Rattle.report.specs.Judged.{noted, read_wrongly, first_wrong};

use home::pair_home::PairHome;
use judge::hearing::Hearing;
use judge::judge::{FREE, MOST_EVENTS};
use model::answer::Answer;
use model::event::Event;
use model::step::Step;

// The event that a step, answered so, is.
fn event_of(step: Step, answer: Answer) -> Option<Event>
    ensures { option_to_list result ≡ event_in step answer }
{
    match answer {
        Answer::Done => step.event(),
        _ => None,
    }
}

// Whether the judge finds that the step read a word that it could not.
fn read_wrongly(hearing: &Hearing<'_, PairHome>, step: Step, answer: Answer) -> bool
    ensures { result ≡ read_wrongly hearing.now.history hearing.now.boards hearing.now.words step answer }
{
    match (step, answer) {
        (Step::Read { board, cell }, Answer::Word(word)) => {
            !matches!(hearing.legal(board, cell, word), Ok(Some(_)))
        }
        _ => false,
    }
}

// Notes the event of a step, if it is one.
fn note(hearing: &mut Hearing<'_, PairHome>, event: Option<Event>)
    ensures { hearing.new ≡ record hearing.old { history = noted hearing.old.history hearing.old.boards hearing.old.words (option_to_list event) } }
{
    if let Some(event) = event {
        let _ = hearing.note(event);
    }
}

// The first step that read wrongly, after the events that the judge has noted. Steps and answers are two lists, as the
// caller lends them.
fn first_from(
    hearing: &mut Hearing<'_, PairHome>,
    steps: &[Step],
    answers: &[Answer],
) -> Option<usize>
    requires { length steps.now ≤ length answers.now }
    ensures { result ≡ first_wrong hearing.old.boards hearing.old.words 1 hearing.old.history steps.now answers.now }
{
    for (i, (step, answer)) in steps.iter().zip(answers).enumerate() {
        if read_wrongly(hearing, *step, *answer) {
            return Some(i + 1);
        }
        note(hearing, event_of(*step, *answer));
    }
    None
}

// The first step that read wrongly, by a judge that is told of all events, on cells that start as the home has them.
pub(crate) fn first_wrong(
    boards: u32,
    home: &PairHome,
    steps: &[Step],
    answers: &[Answer],
) -> Option<usize>
    requires { length steps.now ≤ length answers.now }
    ensures { result ≡ first_wrong boards (words_of home.now) 1 [] steps.now answers.now }
{
    let mut events = [FREE; MOST_EVENTS];
    first_from(&mut Hearing::new(&mut events, boards, home), steps, answers)
}
