ghost use Rattle.std.specs.Prelude.{◌≡◌, IfOk, Ok, string_bytes};
ghost use Rattle.grammar.specs.declared.kind.Kind.TheVariants.{Run};
ghost use Rattle.text.specs.Reading.{reading, header_of};
ghost use Rattle.report.specs.Output.{output_of, AlwaysLegal};

use crate::lines::fault_text;
use crate::run::BenchRun;
use crate::steps::steps_of;
use grammar::kind::Kind;
use std::alloc::{AllocError, Global};
use text::check::check;
use text::header::Header;

// Runs no code: it states that the judge finds every read of every run legal.
fn always_legal()
    ensures { AlwaysLegal }
{}

// The text for a trace without a fault, whose header is known.
fn report_run(heap: Global, header: Header, text: &[u8]) -> Result<String, AllocError>
    requires { header_of (reading Run text.now) ≡ Ok header }
    ensures { IfOk result (λ t. string_bytes t ≡ output_of text.now) }
{
    let steps = steps_of(heap, text)?;
    let run = BenchRun {
        header,
        steps: steps.as_slice(),
    };
    run.text(heap)
}

// The whole text that is printed for a trace, or that there is no memory for it.
pub fn report_on(heap: Global, text: &[u8]) -> Result<String, AllocError>
    ensures text { IfOk result (λ t. string_bytes t ≡ output_of text.now) }
    ensures legal { AlwaysLegal }
{
    always_legal();
    match check(Kind::Run, text) {
        Ok(header) => report_run(heap, header, text),
        Err(fault) => fault_text(heap, fault),
    }
}
