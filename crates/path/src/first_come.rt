ghost use Rattle.std.specs.Prelude.{◌≡◌, false, [], ◌∷◌, ◌++◌, drop, is_some, is_ok};
ghost use Rattle.path.specs.FirstCome.{StartsLast, LandsEarliest};
ghost use Rattle.carries.specs.Held.{held, lines_in};
ghost use Rattle.carries.specs.Lines.{oldest, start_at, if_started, started, Landed};
ghost use Rattle.carries.proofs.ByBoard;
ghost use Rattle.std.proofs.Common.{rules};

use super::path::Path;
use carries::table::Table;
use model::carry::Carry;
use model::refusal::Refusal;

// The path that lands the carry started earliest of all.
#[derive(Drop)]
pub struct FirstCome {
    waiting: Table<8>,
}

impl FirstCome {
    // A path on which nothing waits.
    pub fn new() -> Self
        ensures { held result.waiting ≡ [] }
    {
        FirstCome {
            waiting: Table::new(),
        }
    }
}

impl Path for FirstCome {
    const LENGTH: u32 = 8;

    ghost LENGTH = { 8 };

    ghost lines = { λ p. lines_in p.waiting };

    ghost starts = { λ p x q. StartsLast p.waiting x q.waiting };

    ghost lands = { λ p r q. LandsEarliest p.waiting r q.waiting };

    ghost bounded = { Prim.search rules };

    ghost proper = { λ p. ByBoard.proper 8 (held p.waiting) p.waiting.located p.waiting.short };

    fn capacity() -> u32
        ensures value { result ≡ 8 }
        ensures constant { result ≡ ⟦<Self as Path>⟧.LENGTH }
    {
        Self::LENGTH
    }

    fn start(&mut self, carry: Carry) -> Result<(), Refusal>
        ensures answer { result ≡ start_at 8 (lines_in self.old.waiting) carry }
        ensures after { lines_in self.new.waiting ≡ started 8 (lines_in self.old.waiting) carry }
        ensures behind { held self.new.waiting ≡ if_started result (held self.old.waiting ++ carry ∷ []) (held self.old.waiting) }
        ensures own { StartsLast self.old.waiting carry self.new.waiting }
        ensures refused { is_ok result ≡ false → self.new ≡ self.old }
    {
        self.waiting.start(carry)
    }

    fn land(&mut self) -> Option<Carry>
        ensures landed { Landed (lines_in self.old.waiting) result (lines_in self.new.waiting) }
        ensures earliest { result ≡ oldest (held self.old.waiting) }
        ensures rest { held self.new.waiting ≡ drop 1 (held self.old.waiting) }
        ensures own { LandsEarliest self.old.waiting result self.new.waiting }
        ensures idle { is_some result ≡ false → self.new ≡ self.old }
    {
        self.waiting.land()
    }

    // The table answers, in each path: a default in the trait would need one more call, for the table.
    fn newest(&self, board: u32, cell: u32) -> Result<Option<Carry>, Refusal> {
        self.waiting.newest(board, cell)
    }

    fn count(&self, board: u32) -> Result<u32, Refusal> {
        self.waiting.count(board)
    }
}
