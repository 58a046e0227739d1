ghost use Rattle.std.specs.Prelude.{◌≡◌};
ghost use Rattle.station.specs.Verdicts.{verdict_number};

use text::fault::Fault;

// What is found of a log: all its reads are legal; or the first that is not, by its line; or its first fault. Three ends
// that a caller tells apart in one match, where a `Result` of an `Option` would take two.
#[derive(Clone, Copy, PartialEq, Eq, Debug)]
pub enum Verdict {
    AllLegal,
    FalseRead { line: u32 },
    Faulty(Fault),
}

impl Verdict {
    // The number that the station firmware knows a verdict by. The name says which number; a `From` would not.
    pub fn number(self) -> u64
        ensures { result ≡ verdict_number self }
    {
        match self {
            Verdict::AllLegal => 0,
            Verdict::FalseRead { line } => u64::from(line),
            Verdict::Faulty(fault) => {
                1_000_000 * u64::from(fault.refusal.number()) + u64::from(fault.line)
            }
        }
    }
}
