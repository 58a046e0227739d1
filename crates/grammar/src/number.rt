ghost use Rattle.std.specs.Prelude.{◌≡◌, ◌≤◌};
ghost use Rattle.std.specs.Option.{option_map};
ghost use Rattle.grammar.specs.Numbers.{parted, digits, alone, number as number_of, dot as dot_of, whole as whole_of, place as place_of, place_alone, place_word};

// Goes on after the digits that gave `start`. A loop, which ends at the digit that makes the number too large; `position`
// and a fold over what stands before it would walk over the digits twice.
fn more_digits(start: u32, s: &[u8]) -> Option<(u32, &[u8])>
    ensures { parted result ≡ digits start s.now }
{
    let mut n = start;
    let mut rest = s;
    while let [digit @ b'0'..=b'9', later @ ..] = rest {
        n = n.checked_mul(10)?.checked_add(u32::from(*digit - b'0'))?;
        rest = later;
    }
    Some((n, rest))
}

// The number at the front and what follows it: 0, or digits without a leading 0, at most the largest word.
fn number(s: &[u8]) -> Option<(u32, &[u8])>
    ensures { parted result ≡ number_of s.now }
{
    match s {
        [b'0', rest @ ..] => Some((0, rest)),
        [first @ b'1'..=b'9', rest @ ..] => more_digits(u32::from(*first - b'0'), rest),
        _ => None,
    }
}

fn dot(s: &[u8]) -> Option<&[u8]>
    ensures { option_map (λ x. x.now) result ≡ dot_of s.now }
{
    match s {
        [b'.', rest @ ..] => Some(rest),
        _ => None,
    }
}

// A value and nothing after it.
fn alone<T: Drop>(read: Option<(T, &[u8])>) -> Option<T>
    ensures { result ≡ alone (parted read.entry) }
{
    match read {
        Some((value, [])) => Some(value),
        _ => None,
    }
}

pub(crate) fn whole(s: &[u8]) -> Option<u32>
    ensures { result ≡ whole_of s.now }
{
    alone(number(s))
}

fn place(s: &[u8]) -> Option<((u32, u32), &[u8])>
    ensures { parted result ≡ place_of s.now }
{
    let (board, rest) = number(s)?;
    let (cell, rest) = number(dot(rest)?)?;
    Some(((board, cell), rest))
}

// board.cell
pub(crate) fn place_alone(s: &[u8]) -> Option<(u32, u32)>
    ensures { result ≡ place_alone s.now }
{
    alone(place(s))
}

// board.cell.word
pub(crate) fn place_word(s: &[u8]) -> Option<((u32, u32), u32)>
    ensures { result ≡ place_word s.now }
{
    let (place, rest) = place(s)?;
    let word = whole(dot(rest)?)?;
    Some((place, word))
}
