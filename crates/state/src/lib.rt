// The bench as a definition: what it holds, how it opens, and what each step answers and leaves; the laws of every step,
// and worked cases. specs/ has them.
#![tactic(auto)]

ghost use Rattle.state.specs.Cases.{BenchCases};
ghost use Rattle.state.specs.Laws.{StepLaws};

// The laws of the steps hold.
pub fn laws_of_steps()
    ensures { StepLaws }
{}

// The worked cases come out as told.
pub fn cases_of_benches()
    ensures { BenchCases }
{}
