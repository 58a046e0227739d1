ghost use Rattle.std.specs.Prelude.{◌≡◌, true, false, is_ok};
ghost use Rattle.model.specs.Answers.{done_answer, word_answer, land_answer};
ghost use Rattle.model.specs.declared.step.Step.TheVariants.{Read, Write, Acquire, Release, WriteBack, Eject, Land};
ghost use Rattle.state.specs.Cells.{Follows};
ghost use Rattle.state.specs.Runs.{Carries, traffic_of};
ghost use Rattle.state.specs.Sound.{Sound};
ghost use Rattle.state.specs.Steps.{Takes};
ghost use Rattle.engine.specs.Benches.{is_refused};
ghost use Rattle.engine.specs.Seen.{StaysWhole};

use super::Bench;
use home::source::Home;
use model::answer::Answer;
use model::carry::Carry;
use model::refusal::Refusal;
use model::step::Step;
use path::path::Path;

// What a bench is asked for. Each call checks the board, then the cell, then its own conditions, and a refused one
// changes nothing.
impl<H: Home, P: Path> Bench<H, P> {
    // A cached word, or else the newest of the board's own lane, or else the home's, which is then cached clean.
    pub fn read(&mut self, board: u32, cell: u32) -> Result<u32, Refusal>
        ensures step { Takes self.old.state (Read board cell) (word_answer result) self.new.state }
        ensures path { Carries P.Path.starts P.Path.lands self.old.path (traffic_of self.old.state (Read board cell) (word_answer result)) self.new.path }
        ensures refused { is_ok result ≡ false → self.new ≡ self.old }
        ensures whole { StaysWhole H.Source.words P.Path.lines P.Path.LENGTH self.old self.new }
    {
        self.whole();
        let at = self.checked(board, cell)?;
        let answer = self.read_at(at);
        self.whole();
        answer
    }

    // The word goes into the board's cache and no further; its entry is dirty.
    pub fn write(&mut self, board: u32, cell: u32, word: u32) -> Result<(), Refusal>
        ensures step { Takes self.old.state (Write board cell word) (done_answer result) self.new.state }
        ensures path { Carries P.Path.starts P.Path.lands self.old.path (traffic_of self.old.state (Write board cell word) (done_answer result)) self.new.path }
        ensures refused { is_ok result ≡ false → self.new ≡ self.old }
        ensures whole { StaysWhole H.Source.words P.Path.lines P.Path.LENGTH self.old self.new }
    {
        self.whole();
        let at = self.checked(board, cell)?;
        let answer = self.write_at(at, word);
        self.whole();
        answer
    }

    // The board becomes the owner of a cell that has none; what it has clean of the cell, it forgets.
    pub fn acquire(&mut self, board: u32, cell: u32) -> Result<(), Refusal>
        ensures step { Takes self.old.state (Acquire board cell) (done_answer result) self.new.state }
        ensures path { Carries P.Path.starts P.Path.lands self.old.path (traffic_of self.old.state (Acquire board cell) (done_answer result)) self.new.path }
        ensures refused { is_ok result ≡ false → self.new ≡ self.old }
        ensures whole { StaysWhole H.Source.words P.Path.lines P.Path.LENGTH self.old self.new }
    {
        self.whole();
        let at = self.checked(board, cell)?;
        let answer = self.acquire_at(at);
        self.whole();
        answer
    }

    // The owner gives the cell back, once all that it wrote to it has reached the memory.
    pub fn release(&mut self, board: u32, cell: u32) -> Result<(), Refusal>
        ensures step { Takes self.old.state (Release board cell) (done_answer result) self.new.state }
        ensures path { Carries P.Path.starts P.Path.lands self.old.path (traffic_of self.old.state (Release board cell) (done_answer result)) self.new.path }
        ensures refused { is_ok result ≡ false → self.new ≡ self.old }
        ensures whole { StaysWhole H.Source.words P.Path.lines P.Path.LENGTH self.old self.new }
    {
        self.whole();
        let at = self.checked(board, cell)?;
        let answer = self.release_at(at);
        self.whole();
        answer
    }

    // A dirty word is sent to the memory; the entry stays, clean.
    pub fn write_back(&mut self, board: u32, cell: u32) -> Result<(), Refusal>
        ensures step { Takes self.old.state (WriteBack board cell) (done_answer result) self.new.state }
        ensures path { Carries P.Path.starts P.Path.lands self.old.path (traffic_of self.old.state (WriteBack board cell) (done_answer result)) self.new.path }
        ensures refused { is_ok result ≡ false → self.new ≡ self.old }
        ensures whole { StaysWhole H.Source.words P.Path.lines P.Path.LENGTH self.old self.new }
    {
        self.whole();
        let at = self.checked(board, cell)?;
        let answer = self.write_back_at(at);
        self.whole();
        answer
    }

    // The cell's place becomes empty; a dirty word is sent to the memory first.
    pub fn eject(&mut self, board: u32, cell: u32) -> Result<(), Refusal>
        ensures step { Takes self.old.state (Eject board cell) (done_answer result) self.new.state }
        ensures path { Carries P.Path.starts P.Path.lands self.old.path (traffic_of self.old.state (Eject board cell) (done_answer result)) self.new.path }
        ensures refused { is_ok result ≡ false → self.new ≡ self.old }
        ensures whole { StaysWhole H.Source.words P.Path.lines P.Path.LENGTH self.old self.new }
    {
        self.whole();
        let at = self.checked(board, cell)?;
        let answer = self.eject_at(at);
        self.whole();
        answer
    }

    // One write back reaches the memory, which one is the path's choice; or none waits.
    pub fn land(&mut self) -> Result<Option<Carry>, Refusal>
        ensures step { Takes self.old.state Land (land_answer result) self.new.state }
        ensures path { Carries P.Path.starts P.Path.lands self.old.path (traffic_of self.old.state Land (land_answer result)) self.new.path }
        ensures refused { is_ok result ≡ false → self.new ≡ self.old }
        ensures whole { StaysWhole H.Source.words P.Path.lines P.Path.LENGTH self.old self.new }
    {
        self.whole();
        let answer = self.land_next();
        self.whole();
        answer
    }

    // The landing itself. A call of its own, since what each arm tells of the home is lost where they join before a call.
    fn land_next(&mut self) -> Result<Option<Carry>, Refusal>
        ensures step { Takes self.old.state Land (land_answer result) self.new.state }
        ensures path { Carries P.Path.starts P.Path.lands self.old.path (traffic_of self.old.state Land (land_answer result)) self.new.path }
        ensures refused { is_ok result ≡ false → self.new ≡ self.old }
    {
        if self.boards == 0 {
            return Err(Refusal::NoSuchBoard);
        }
        let landed = self.path.land();
        if let Some(carry) = landed {
            self.store(carry);
        }
        Ok(landed)
    }

    // Any of the seven steps. At every cell it is the protocol's move of that name, or none; whatever the bench is, it is
    // sound before and after. The path changes by what the step sends to it or lands from it, and not otherwise.
    pub fn perform(&mut self, step: Step) -> Answer
        ensures step { Takes self.old.state step result self.new.state }
        ensures protocol { Follows self.old.state step result self.new.state }
        ensures sound { Sound self.old.state × Sound self.new.state }
        ensures path { Carries P.Path.starts P.Path.lands self.old.path (traffic_of self.old.state step result) self.new.path }
        ensures refused { is_refused result ≡ true → self.new ≡ self.old }
        ensures whole { StaysWhole H.Source.words P.Path.lines P.Path.LENGTH self.old self.new }
    {
        self.whole();
        let answer = self.take(step);
        self.whole();
        answer
    }

    // The step itself. A call of its own, so that the two facts of soundness are shown once and not for each of the seven.
    fn take(&mut self, step: Step) -> Answer
        ensures step { Takes self.old.state step result self.new.state }
        ensures path { Carries P.Path.starts P.Path.lands self.old.path (traffic_of self.old.state step result) self.new.path }
        ensures refused { is_refused result ≡ true → self.new ≡ self.old }
    {
        match step {
            Step::Read { board, cell } => self.read(board, cell).into(),
            Step::Write { board, cell, word } => self.write(board, cell, word).into(),
            Step::Acquire { board, cell } => self.acquire(board, cell).into(),
            Step::Release { board, cell } => self.release(board, cell).into(),
            Step::WriteBack { board, cell } => self.write_back(board, cell).into(),
            Step::Eject { board, cell } => self.eject(board, cell).into(),
            Step::Land => self.land().into(),
        }
    }
}
