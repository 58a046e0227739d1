ghost use Rattle.std.specs.Prelude.{◌≡◌};
ghost use Rattle.std.specs.Option.{option_map};
ghost use Rattle.grammar.specs.Pieces.{shown, piece};

// A line by its form. Each case borrows its part of the bytes: what follows the #, what follows the letter and its
// equals sign, or the whole line.
#[derive(Clone, Copy, PartialEq, Eq, Debug)]
pub enum Item<'a> {
    Remark(&'a [u8]),
    Step { letter: u8, rest: &'a [u8] },
    Field(&'a [u8]),
}

// The form of a line, which is given without its byte 10.
pub fn item_of(line: &[u8]) -> Option<Item<'_>>
    ensures { option_map shown result ≡ piece line.now }
{
    match line {
        [b'#', text @ ..] => Some(Item::Remark(text)),
        [letter, b'=', rest @ ..] => Some(Item::Step {
            letter: *letter,
            rest,
        }),
        _ => line.contains(&b'=').then_some(Item::Field(line)),
    }
}
