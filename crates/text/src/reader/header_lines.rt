ghost use Rattle.std.specs.Prelude.{◌≡◌};
ghost use Rattle.text.specs.Heading.{kind_line, number_line, heading as heading_of};
ghost use Rattle.text.specs.Readers.{left};

use super::super::fault::Fault;
use super::super::header::Header;
use super::Reader;
use grammar::header_line::{kind_said, number_said};
use grammar::kind::Kind;
use model::limits::{BOARDS, CELLS, ENTRIES};

impl Reader<'_> {
    fn kind_line(&mut self, kind: Kind) -> Result<(), Fault>
        ensures answer { result ≡ (kind_line kind (left self.old)).0 }
        ensures after { left self.new ≡ (kind_line kind (left self.old)).1 }
    {
        self.next_line(|item| kind_said(kind, item))
    }

    fn number_line(&mut self, front: &[u8], low: u32, high: u32) -> Result<u32, Fault>
        ensures answer { result ≡ (number_line front.now low high (left self.old)).0 }
        ensures after { left self.new ≡ (number_line front.now low high (left self.old)).1 }
    {
        self.next_line(|item| number_said(front, low, high, item))
    }

    pub(crate) fn heading(&mut self, kind: Kind) -> Result<Header, Fault>
        ensures answer { result ≡ (heading_of kind (left self.old)).0 }
        ensures after { left self.new ≡ (heading_of kind (left self.old)).1 }
    {
        self.kind_line(kind)?;
        let boards = self.number_line(b"boards=", 1, BOARDS)?;
        let cells = self.number_line(b"cells=", 1, CELLS)?;
        let entries = self.number_line(b"entries=", 1, ENTRIES)?;
        let start = self.number_line(b"start=", 0, u32::MAX)?;
        Ok(Header {
            boards,
            cells,
            entries,
            start,
        })
    }
}
