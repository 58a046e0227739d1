ghost use Rattle.std.specs.Prelude.{◌≡◌, ◌<◌, ◌≤◌, false, length, take, is_ok, slice_set};
ghost use Rattle.state.specs.Runs.{RanAll, Ran, Course, Went};
ghost use Rattle.engine.specs.Seen.{StaysWhole};

use super::Bench;
use home::source::Home;
use model::answer::Answer;
use model::refusal::Refusal;
use model::step::Step;
use path::path::Path;

impl<H: Home, P: Path> Bench<H, P> {
    // Performs every step of the list in turn, and puts one answer for each into the caller's list; what stands behind
    // them there stays. Where the list of answers is the shorter, nothing happens. The run of a path is a function of its
    // own: one for both would need a trait over what is run, with a state, a step and an answer of each.
    pub fn run(&mut self, steps: &[Step], answers: &mut [Answer]) -> Result<(), Refusal>
        ensures run { Ran self.old.state steps.now answers.old result answers.new self.new.state }
        ensures path { Went P.Path.starts P.Path.lands self.old.state self.old.path steps.now result answers.new self.new.state self.new.path }
        ensures refused { is_ok result ≡ false → self.new ≡ self.old }
        ensures whole { StaysWhole H.Source.words P.Path.lines P.Path.LENGTH self.old self.new }
    {
        self.whole();
        if answers.len() < steps.len() {
            return Err(Refusal::AnswersTooShort);
        }
        self.perform_all(steps, answers);
        self.whole();
        Ok(())
    }

    // The same, where there is a place for every answer.
    fn perform_all(&mut self, steps: &[Step], answers: &mut [Answer])
        requires { length steps.now ≤ length answers.old }
        ensures run { RanAll self.old.state steps.now answers.old answers.new self.new.state }
        ensures path { Course P.Path.starts P.Path.lands self.old.state self.old.path steps.now (take (length steps.now) answers.new) self.new.state self.new.path }
    {
        // no `zip`: as the project prescribes, a run goes over the steps with their index, the place of each one's answer
        for (i, step) in steps.iter().enumerate() {
            let answer = self.perform(*step);
            put(answers, i, answer);
        }
    }
}

// Puts an answer in a place of the list. A call of its own, so that the proof of the loop knows of it this one fact.
fn put(answers: &mut [Answer], place: usize, answer: Answer)
    requires { place < length answers.old }
    ensures { answers.new ≡ slice_set answers.old place answer }
{
    answers[place] = answer;
}
