ghost use Rattle.std.specs.Prelude.{◌≡◌, []};
ghost use Rattle.state.specs.Opening.{opened};
ghost use Rattle.state.specs.Runs.{Ran, Went};
ghost use Rattle.engine.specs.Seen.{IsWhole};
ghost use Rattle.rules.specs.Calls.{ran_onto};
ghost use Rattle.rules.specs.Cases.{RulesOfBench};
ghost use Rattle.rules.specs.Rules.{KeepsModel};

use engine::bench::Bench;
use home::source::Home;
use model::answer::Answer;
use model::refusal::Refusal;
use model::step::Step;
use path::path::Path;

// A bench after a run, and whether the run was refused. No `Result` of a bench: a refused run hands the bench back too.
#[derive(Drop)]
pub struct Replayed<H: Home, P: Path> {
    pub bench: Bench<H, P>,
    pub result: Result<(), Refusal>,
}

// Opens a bench over the home and the path, runs the steps on it, and puts their answers into the caller's list. What
// was read keeps to the memory model, and so it is for every list of calls of every bench.
pub fn replay<H: Home, P: Path>(
    boards: u32,
    entries: u32,
    home: H,
    path: P,
    steps: &[Step],
    answers: &mut [Answer],
) -> Replayed<H, P>
    ensures run { Ran (opened boards entries (H.Source.words home) (P.Path.lines path) P.Path.LENGTH) steps.now answers.old result.result answers.new result.bench.state }
    ensures path { Went P.Path.starts P.Path.lands (opened boards entries (H.Source.words home) (P.Path.lines path) P.Path.LENGTH) path steps.now result.result answers.new result.bench.state result.bench.path }
    ensures whole { IsWhole H.Source.words P.Path.lines P.Path.LENGTH result.bench }
    ensures model { KeepsModel (opened boards entries (H.Source.words home) (P.Path.lines path) P.Path.LENGTH) (ran_onto result.result [] steps.now answers.new) }
    ensures rules { RulesOfBench }
{
    let mut bench = Bench::open(boards, entries, home, path);
    let result = bench.run(steps, answers);
    Replayed { bench, result }
}
