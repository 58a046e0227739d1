ghost use Rattle.std.specs.Prelude.{◌≡◌};
ghost use Rattle.station.specs.Laws.{ZeroExactly};
ghost use Rattle.station.specs.Verdicts.{number_on};

use crate::log::judge_log;

// Runs no code: it states when the number is 0, in the words of the memory model.
fn zero_exactly()
    ensures { ZeroExactly }
{}

// 0 if all reads of the log are legal, or the line of the first that is not, or 1,000,000 times the number of a refusal
// and the line of the fault. The crate station_c hands this call to C.
pub fn bench_verdict(log: &[u8]) -> u64
    ensures number { result ≡ number_on log.now }
    ensures law { ZeroExactly }
{
    zero_exactly();
    judge_log(log).number()
}
