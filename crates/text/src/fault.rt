ghost use Rattle.std.specs.Prelude.{◌≡◌};
ghost use Rattle.model.specs.Refusals.{number_of};
ghost use Rattle.text.specs.Faults.{layer_of, fault_at, at_line};

use model::refusal::Refusal;

// Who finds a fault: the form of the text, the numbers of its header, or the judge of its steps.
#[derive(Clone, Copy, PartialEq, Eq, Debug)]
pub enum Layer {
    Text,
    Header,
    Judge,
}

// What is wrong with a trace, and at which line; line 0 is the text as a whole. The line is no `Option`, since its
// 0 is printed and is a part of the number for C.
#[derive(Clone, Copy, PartialEq, Eq, Debug)]
pub struct Fault {
    pub refusal: Refusal,
    pub line: u32,
    pub layer: Layer,
}

fn layer_of(refusal: Refusal) -> Layer
    ensures { result ≡ layer_of (number_of refusal) }
{
    match refusal {
        Refusal::SizeOutOfRange => Layer::Header,
        Refusal::MalformedLine | Refusal::TextTooLong => Layer::Text,
        _ => Layer::Judge,
    }
}

impl Fault {
    pub fn new(refusal: Refusal, line: u32) -> Fault
        ensures { result ≡ fault_at refusal line }
    {
        Fault {
            refusal,
            line,
            layer: layer_of(refusal),
        }
    }
}

// A refusal becomes a fault at that line.
pub(crate) fn at_line<T>(answer: Result<T, Refusal>, line: u32) -> Result<T, Fault>
    ensures { result ≡ at_line answer line }
{
    answer.map_err(|refusal| Fault::new(refusal, line))
}
