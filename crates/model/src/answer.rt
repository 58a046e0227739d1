use super::carry::Carry;
use super::refusal::Refusal;

// What a step of a run answers: the word read, the write back that landed or that none waits, that it is done, or why
// it is refused. No `Result` of four answers: the five stand in one list of a run, and each is told in a form of its own.
#[derive(Clone, Copy, PartialEq, Eq, Debug)]
pub enum Answer {
    Word(u32),
    Landed(Carry),
    NothingWaits,
    Done,
    Refused(Refusal),
}

// What one call of a bench answers is answered to a step of that name.
impl From<Result<(), Refusal>> for Answer {
    ghost use Rattle.std.specs.Prelude.{◌≡◌};
    ghost use Rattle.model.specs.Answers.{done_answer};

    ghost from_gives = { λ r a. a ≡ done_answer r };

    fn from(answer: Result<(), Refusal>) -> Answer {
        answer.map_or_else(Answer::Refused, |()| Answer::Done)
    }
}

impl From<Result<u32, Refusal>> for Answer {
    ghost use Rattle.std.specs.Prelude.{◌≡◌};
    ghost use Rattle.model.specs.Answers.{word_answer};

    ghost from_gives = { λ r a. a ≡ word_answer r };

    fn from(answer: Result<u32, Refusal>) -> Answer {
        answer.map_or_else(Answer::Refused, Answer::Word)
    }
}

impl From<Result<Option<Carry>, Refusal>> for Answer {
    ghost use Rattle.std.specs.Prelude.{◌≡◌};
    ghost use Rattle.model.specs.Answers.{land_answer};

    ghost from_gives = { λ r a. a ≡ land_answer r };

    fn from(answer: Result<Option<Carry>, Refusal>) -> Answer {
        match answer {
            Ok(Some(carry)) => Answer::Landed(carry),
            Ok(None) => Answer::NothingWaits,
            Err(refusal) => Answer::Refused(refusal),
        }
    }
}
