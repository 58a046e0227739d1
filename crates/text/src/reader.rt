ghost use Rattle.std.specs.Prelude.{◌≤◌, length};

use super::position::Position;

pub mod calls;
mod header_lines;
mod lines;
mod remarks;
mod tries;

// The caller's text and how far it was read.
#[derive(Drop)]
pub struct Reader<'a> {
    text: &'a [u8],
    at: Position,
    ghost short: { length text.now ≤ 60000 },
    ghost within: { at.byte ≤ length text.now },
    ghost counted: { at.line ≤ at.byte },
}
