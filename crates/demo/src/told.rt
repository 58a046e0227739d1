// The engine's values in the words of the scenes.
use model::answer::Answer;
use model::carry::Carry;
use model::event::Action;
use model::refusal::Refusal;
use std::fmt;

#[derive(Clone, Copy)]
pub struct Told<T>(pub T);

impl fmt::Display for Told<Refusal> {
    fn fmt<W: fmt::Write>(&self, f: &mut fmt::Formatter<W>) -> fmt::Result {
        let refusal = self.0;
        write!(f, "refused with {}, {refusal}", refusal.number())
    }
}

impl fmt::Display for Told<Carry> {
    fn fmt<W: fmt::Write>(&self, f: &mut fmt::Formatter<W>) -> fmt::Result {
        let Carry { board, cell, word } = self.0;
        write!(f, "{word} from board {board} in cell {cell}")
    }
}

impl fmt::Display for Told<Action> {
    fn fmt<W: fmt::Write>(&self, f: &mut fmt::Formatter<W>) -> fmt::Result {
        match self.0 {
            Action::Write(word) => write!(f, "writes {word}"),
            Action::Acquire => write!(f, "acquires"),
            Action::Release => write!(f, "releases"),
        }
    }
}

impl fmt::Display for Told<Answer> {
    fn fmt<W: fmt::Write>(&self, f: &mut fmt::Formatter<W>) -> fmt::Result {
        match self.0 {
            Answer::Done => write!(f, "done"),
            Answer::Word(word) => write!(f, "{word}"),
            Answer::Landed(carry) => write!(f, "{}", Told(carry)),
            Answer::NothingWaits => write!(f, "nothing waits"),
            Answer::Refused(refusal) => write!(f, "{}", Told(refusal)),
        }
    }
}
