ghost use Rattle.std.specs.Prelude.{◌≡◌, min, true};
ghost use Rattle.carries.specs.Tables.{located, Short};

use arrayvec::ArrayVec;
use model::carry::Carry;

mod calls;

// The carries of all boards that wait, in the order started. A line holds `LENGTH` of them at most, and never more than
// eight: so there is a place for every carry.
#[derive(Drop)]
pub struct Table<const LENGTH: u32> {
    carries: ArrayVec<Carry, 64>,
    ghost located: { located carries.items ≡ true },
    ghost short: { Short (min LENGTH 8) carries.items },
}
