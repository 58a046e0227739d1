ghost use Rattle.std.specs.Prelude.{Some};
ghost use Rattle.report.specs.Output.{line_text};

use model::answer::Answer;
use model::carry::Carry;
use std::fmt;
use text::fault::Fault;

// A line that is printed: what a step answered; which step read wrongly first, if one did; or what is wrong with the
// trace.
#[derive(Clone, Copy)]
pub enum Line {
    Answered { step: usize, answer: Answer },
    FirstWrong(Option<usize>),
    Faulty(Fault),
}

impl fmt::Display for Line {
    ghost output = { λ x. Some (line_text x) };

    fn fmt<W: fmt::Write>(&self, f: &mut fmt::Formatter<W>) -> fmt::Result {
        match *self {
            Line::Answered { step, answer } => match answer {
                Answer::Word(word) => write!(f, "r={step}.{word}"),
                Answer::Landed(Carry { board, cell, word }) => {
                    write!(f, "d={step}.{board}.{cell}.{word}")
                }
                Answer::NothingWaits => write!(f, "d={step}"),
                Answer::Done => write!(f, "ok={step}"),
                Answer::Refused(refusal) => write!(f, "no={step}.{}", refusal.number()),
            },
            Line::FirstWrong(None) => write!(f, "legal=all"),
            Line::FirstWrong(Some(step)) => write!(f, "legal={step}"),
            Line::Faulty(Fault { refusal, line, .. }) => {
                write!(f, "fault={}.{line}", refusal.number())
            }
        }
    }
}
