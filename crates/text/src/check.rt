ghost use Rattle.std.specs.Prelude.{◌≡◌};
ghost use Rattle.text.specs.Course.{ending};
ghost use Rattle.text.specs.Printing.{ReadsBack};
ghost use Rattle.text.specs.Reading.{reading, header_of};
ghost use Rattle.text.specs.Traces.{course_of};

use super::fault::Fault;
use super::header::Header;
use super::trace::Trace;
use grammar::kind::Kind;

// Takes every step that is left.
fn walk(trace: &mut Trace<'_>) -> Result<(), Fault>
    ensures { result ≡ ending (course_of trace.old) }
{
    while trace.next()?.is_some() {}
    Ok(())
}

// Runs no code: it states that a trace that is printed, with remarks put anywhere, is read back as it was.
fn reads_back()
    ensures { ReadsBack }
{}

// Reads a whole text as a trace of that kind: its header, or the first fault.
pub fn check(kind: Kind, text: &[u8]) -> Result<Header, Fault>
    ensures answer { result ≡ header_of (reading kind text.now) }
    ensures law { ReadsBack }
{
    reads_back();
    let mut trace = Trace::open(kind, text);
    let header = trace.header()?;
    walk(&mut trace)?;
    Ok(header)
}
