ghost use Rattle.std.specs.Prelude.{◌≡◌, Some};
ghost use Rattle.std.specs.Option.{option_map};
ghost use Rattle.grammar.specs.Fields.{kind_of, kind_said, number_after, ranged as ranged_to, number_said};
ghost use Rattle.grammar.specs.Pieces.{shown, field_of};

use super::item::Item;
use super::kind::Kind;
use super::number::whole;
use model::refusal::Refusal;

fn field_of(item: Item<'_>) -> Option<&[u8]>
    ensures { option_map (λ x. x.now) result ≡ field_of (shown item.entry) }
{
    match item {
        Item::Field(line) => Some(line),
        _ => None,
    }
}

// The kind that the first header line names.
fn kind_of(line: &[u8]) -> Option<Kind>
    ensures { result ≡ kind_of line.now }
{
    match line {
        b"trace=run" => Some(Kind::Run),
        b"trace=log" => Some(Kind::Log),
        _ => None,
    }
}

// Whether a line names the kind of trace that is wanted.
pub fn kind_said(kind: Kind, item: Item<'_>) -> Result<(), Refusal>
    ensures { result ≡ kind_said kind (Some (shown item.entry)) }
{
    if field_of(item).and_then(kind_of) == Some(kind) {
        Ok(())
    } else {
        Err(Refusal::MalformedLine)
    }
}

// The number behind `front`.
fn number_after(front: &[u8], line: &[u8]) -> Option<u32>
    ensures { result ≡ number_after front.now line.now }
{
    line.strip_prefix(front).and_then(whole)
}

fn ranged(low: u32, high: u32, number: Option<u32>) -> Result<u32, Refusal>
    ensures { result ≡ ranged_to low high number }
{
    let n = number.ok_or(Refusal::MalformedLine)?;
    if (low..=high).contains(&n) {
        Ok(n)
    } else {
        Err(Refusal::SizeOutOfRange)
    }
}

// The number of a header line whose name and equals sign are `front` if it is in range, or why not.
pub fn number_said(front: &[u8], low: u32, high: u32, item: Item<'_>) -> Result<u32, Refusal>
    ensures { result ≡ number_said front.now low high (Some (shown item.entry)) }
{
    let number = field_of(item).and_then(|line| number_after(front, line));
    ranged(low, high, number)
}
