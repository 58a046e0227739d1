ghost use Rattle.std.specs.Prelude.{◌≡◌};
ghost use Rattle.text.specs.Course.{next as next_of, rest};
ghost use Rattle.text.specs.Reading.{header_in, course_in};
ghost use Rattle.text.specs.Traces.{steps_of, course_of};

use super::super::fault::{Fault, at_line};
use super::super::header::Header;
use super::super::placed_step::PlacedStep;
use super::super::reader::Reader;
use super::super::reader::calls::MOST_BYTES;
use super::Trace;
use grammar::kind::Kind;
use grammar::step_line::step_said;
use model::refusal::Refusal;

impl<'a> Trace<'a> {
    // Reads the header. A text that is too long is refused before any of its lines is read.
    pub fn open(kind: Kind, text: &'a [u8]) -> Trace<'a>
        ensures header { result.header ≡ header_in kind text.now }
        ensures course { course_of result ≡ course_in kind text.now }
    {
        let mut reader = Reader::new(text);
        let header = if text.len() > MOST_BYTES {
            Err(Fault::new(Refusal::TextTooLong, 0))
        } else {
            reader.heading(kind)
        };
        Trace {
            kind,
            header,
            steps: 0,
            reader,
        }
    }

    pub fn header(&self) -> Result<Header, Fault>
        ensures { result ≡ self.now.header }
    {
        self.header
    }

    // The next step with its line, or None at the end of the text, or the first fault. Neither the end nor a fault is
    // passed: whoever asks again is answered the same.
    pub fn next(&mut self) -> Result<Option<PlacedStep>, Fault>
        ensures answer { result ≡ next_of (course_of self.old) }
        ensures after { course_of self.new ≡ rest (course_of self.old) }
        ensures header { self.new.header ≡ self.old.header }
    {
        let _ = self.header?;
        self.next_step()
    }

    // Not by `next_line`: the end shows only behind the remarks; tried as one function, and five goals stayed open.
    fn next_step(&mut self) -> Result<Option<PlacedStep>, Fault>
        ensures answer { result ≡ next_of (steps_of self.old) }
        ensures after { steps_of self.new ≡ rest (steps_of self.old) }
        ensures header { self.new.header ≡ self.old.header }
    {
        self.reader.skip_remarks();
        let line = self.reader.line();
        if self.reader.at_end() {
            return Ok(None);
        }
        let (kind, before) = (self.kind, self.steps);
        let step = self.reader.try_line(|item| step_said(kind, before, item));
        let step = at_line(step, line)?;
        self.steps += 1;
        Ok(Some(PlacedStep { line, step }))
    }
}
