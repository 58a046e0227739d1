// The verdict for the station firmware, which is C and hands over the bytes of a log: a static library with the one call
// that c/bench_verdict.h declares.
#![tactic(auto)]

ghost use Rattle.std.specs.Prelude.{◌≡◌};
ghost use Rattle.station.specs.Laws.{ZeroExactly};
ghost use Rattle.station.specs.Verdicts.{number_on};

use station::firmware;

// Takes the log's bytes as a pointer and a length. 0 if all reads of the log are legal, or the line of the first that is
// not, or 1,000,000 times the number of a refusal and the line of the fault.
#[unsafe(no_mangle)]
pub extern "C" fn bench_verdict(log: &[u8]) -> u64
    ensures number { result ≡ number_on log.now }
    ensures law { ZeroExactly }
{
    firmware::bench_verdict(log)
}
