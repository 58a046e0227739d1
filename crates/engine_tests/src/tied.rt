// What a caller knows after one call alone, of any home and any path: that the step is taken, that the home has the words of
// the bench's state before and after it, and the path its lines.
ghost use Rattle.std.specs.Prelude.{◌≡◌};
ghost use Rattle.model.specs.Answers.{done_answer, land_answer};
ghost use Rattle.model.specs.declared.step.Step.TheVariants.{Land, WriteBack};
ghost use Rattle.state.specs.Runs.{Ran};
ghost use Rattle.state.specs.Steps.{Takes};

use engine::bench::Bench;
use home::source::Home;
use model::answer::Answer;
use model::carry::Carry;
use model::refusal::Refusal;
use model::step::Step;
use path::path::Path;

pub fn land<H: Home, P: Path>(bench: &mut Bench<H, P>) -> Result<Option<Carry>, Refusal>
    ensures step { Takes bench.old.state Land (land_answer result) bench.new.state }
    ensures words { (bench.old.state.words ≡ H.Source.words bench.old.home) × (bench.new.state.words ≡ H.Source.words bench.new.home) }
    ensures lines { (bench.old.state.lines ≡ P.Path.lines bench.old.path) × (bench.new.state.lines ≡ P.Path.lines bench.new.path) }
{
    bench.land()
}

pub fn write_back<H: Home, P: Path>(
    bench: &mut Bench<H, P>,
    board: u32,
    cell: u32,
) -> Result<(), Refusal>
    ensures step { Takes bench.old.state (WriteBack board cell) (done_answer result) bench.new.state }
    ensures words { (bench.old.state.words ≡ H.Source.words bench.old.home) × (bench.new.state.words ≡ H.Source.words bench.new.home) }
    ensures lines { (bench.old.state.lines ≡ P.Path.lines bench.old.path) × (bench.new.state.lines ≡ P.Path.lines bench.new.path) }
{
    bench.write_back(board, cell)
}

pub fn run<H: Home, P: Path>(
    bench: &mut Bench<H, P>,
    steps: &[Step],
    answers: &mut [Answer],
) -> Result<(), Refusal>
    ensures run { Ran bench.old.state steps.now answers.old result answers.new bench.new.state }
    ensures words { (bench.old.state.words ≡ H.Source.words bench.old.home) × (bench.new.state.words ≡ H.Source.words bench.new.home) }
    ensures lines { (bench.old.state.lines ≡ P.Path.lines bench.old.path) × (bench.new.state.lines ≡ P.Path.lines bench.new.path) }
{
    bench.run(steps, answers)
}

pub fn refusal<H: Home, P: Path>(bench: &Bench<H, P>) -> Option<Refusal>
    ensures refusal { result ≡ bench.now.state.refusal }
    ensures words { bench.now.state.words ≡ H.Source.words bench.now.home }
    ensures lines { bench.now.state.lines ≡ P.Path.lines bench.now.path }
{
    bench.refusal()
}
