ghost use Rattle.std.specs.Prelude.{◌≡◌, drop, IfOk};
ghost use Rattle.std.specs.List.{slice_get};
ghost use Rattle.text.specs.Traces.{course_of};
ghost use Rattle.grammar.specs.declared.kind.Kind.TheVariants.{Run};
ghost use Rattle.text.specs.Reading.{course_in};
ghost use Rattle.report.specs.Output.{steps_of};

use grammar::kind::Kind;
use model::step::Step;
use std::alloc::{AllocError, Global};
use text::trace::Trace;

// The steps of a run, up to its end or its first fault.
pub(crate) fn steps_of(heap: Global, text: &[u8]) -> Result<Vec<Step>, AllocError>
    ensures { IfOk result (λ v. v.items ≡ steps_of (course_in Run text.now).steps) }
{
    let mut trace = Trace::open(Kind::Run, text);
    let mut steps = Vec::new(heap);
    while let Ok(Some(placed)) = trace.next() {
        steps.push(placed.step.step())?;
    }
    Ok(steps)
}
