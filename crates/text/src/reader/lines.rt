ghost use Rattle.std.specs.Prelude.{◌≡◌, ◌≤◌, ◌==◌, length, position, OnSome};
ghost use Rattle.std.specs.Option.{option_map};
ghost use Rattle.grammar.specs.Pieces.{shown};
ghost use Rattle.text.specs.Readers.{lines_at, first_line, first_piece, Further};

use super::super::position::Position;
use grammar::item::{Item, item_of};

// Where the first byte 10 stands.
fn line_end(s: &[u8]) -> Option<usize>
    ensures { result ≡ position (λ c. c == 10) s.now }
{
    s.iter().position(|byte| *byte == b'\n')
}

// The line at a position, which passes it; None where no byte 10 follows. The text and the position come apart, since
// the guard over a reader's position holds it meanwhile.
fn take_line<'a>(text: &'a [u8], at: &mut Position) -> Option<&'a [u8]>
    requires short { length text.now ≤ 60000 }
    requires within { at.old.byte ≤ length text.now }
    requires counted { at.old.line ≤ at.old.byte }
    ensures line { option_map (λ x. x.now) result ≡ first_line (lines_at text.now at.old) }
    ensures further { OnSome result (Further text.now at.old at.new) }
{
    let rest = &text[at.byte..];
    let n = line_end(rest)?;
    *at = at.past(n);
    Some(&rest[..n])
}

// The same line by its form; None also where it has none.
pub(crate) fn take_item<'a>(text: &'a [u8], at: &mut Position) -> Option<Item<'a>>
    requires short { length text.now ≤ 60000 }
    requires within { at.old.byte ≤ length text.now }
    requires counted { at.old.line ≤ at.old.byte }
    ensures item { option_map shown result ≡ first_piece (lines_at text.now at.old) }
    ensures further { OnSome result (Further text.now at.old at.new) }
{
    take_line(text, at).and_then(item_of)
}
