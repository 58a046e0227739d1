ghost use Rattle.std.specs.Prelude.{◌≡◌, ◌≤◌, true, false, length, is_ok, if◌then◌else◌, Ok, Err, nat_lt};
ghost use Rattle.model.specs.declared.refusal.Refusal.TheVariants.{AnswersTooShort};
ghost use Rattle.path.specs.Runs.{Takes, Ran};

use super::order::{Order, Reply};
use super::path::Path;
use model::refusal::Refusal;

fn perform<P: Path>(path: &mut P, order: Order) -> Reply
    ensures { Takes P.Path.LENGTH (P.Path.lines path.old) order result (P.Path.lines path.new) }
{
    match order {
        Order::Start(carry) => path.start(carry).into(),
        Order::Land => path.land().into(),
    }
}

// Orders and replies are two lists, as the caller lends them.
fn perform_all<P: Path>(path: &mut P, orders: &[Order], replies: &mut [Reply])
    requires { length orders.now ≤ length replies.old }
    ensures { Ran P.Path.LENGTH (P.Path.lines path.old) orders.now replies.old replies.new (P.Path.lines path.new) }
{
    // By index: what a loop writes through `zip` the proof doesn't know after it.
    for (i, order) in orders.iter().enumerate() {
        replies[i] = perform(path, *order);
    }
}

// Gives a path of any kind each order in turn and writes down its replies, if there is a place for each.
pub fn run<P: Path>(path: &mut P, orders: &[Order], replies: &mut [Reply]) -> Result<(), Refusal>
    ensures answer { result ≡ (if nat_lt (length replies.old) (length orders.now) then Err AnswersTooShort else Ok tt) }
    ensures ran { is_ok result ≡ true → Ran P.Path.LENGTH (P.Path.lines path.old) orders.now replies.old replies.new (P.Path.lines path.new) }
    ensures refused { is_ok result ≡ false → (path.new ≡ path.old) × (replies.new ≡ replies.old) }
{
    if replies.len() < orders.len() {
        return Err(Refusal::AnswersTooShort);
    }
    perform_all(path, orders, replies);
    Ok(())
}
