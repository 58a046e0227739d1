// A table whose lines hold eight carries at most, or fewer, as each start says: what a caller knows of it.
ghost use Rattle.std.specs.Prelude.{◌≡◌, false, [], ◌∷◌, ◌++◌, min, is_ok};
ghost use Rattle.carries.specs.Held.{held, lines_in};
ghost use Rattle.carries.specs.Lines.{start_at, started, if_started};
ghost use Rattle.carries.specs.Tables.{Short};

use model::carry::Carry;
use model::refusal::Refusal;
use path::table::Table;

pub fn start(table: &mut Table<8>, length: u32, carry: Carry) -> Result<(), Refusal>
    ensures answer { result ≡ start_at (min length 8) (lines_in table.old) carry }
    ensures after { lines_in table.new ≡ started (min length 8) (lines_in table.old) carry }
    ensures behind { held table.new ≡ if_started result (held table.old ++ carry ∷ []) (held table.old) }
    ensures short { Short (min length 8) (held table.old) → Short (min length 8) (held table.new) }
    ensures refused { is_ok result ≡ false → table.new ≡ table.old }
{
    table.start_within(length, carry)
}
