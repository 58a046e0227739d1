use super::fault::Fault;
use super::header::Header;
use super::reader::Reader;
use grammar::kind::Kind;

pub mod calls;

// A text that was opened as a trace of one kind: its header, or what is wrong before the first step, and the steps that
// are still to come. Opening always yields a trace: a text with a fault before its steps has none, and answers that fault
// whenever it is asked.
#[derive(Drop)]
pub struct Trace<'a> {
    kind: Kind,
    header: Result<Header, Fault>,
    steps: u32,
    reader: Reader<'a>,
}
