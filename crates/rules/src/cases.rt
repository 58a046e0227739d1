ghost use Rattle.rules.specs.Cases.{WorkedCases};

// Does nothing: the worked cases, of readable words and of benches, come out as told.
pub fn worked_cases()
    ensures { WorkedCases }
{}
