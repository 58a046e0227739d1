ghost use Rattle.std.specs.Prelude.{◌≡◌, ℕ, ◌-◌, ◌<◌, ◌≤◌, false, List, [], length, is_some, is_ok, filter};
ghost use Rattle.std.specs.List.{range_with_len, find};
ghost use Rattle.carries.specs.Held.{held, lines_in};
ghost use Rattle.carries.specs.Lines.{line, start_at, started, Landed};
ghost use Rattle.rota.specs.Bound.{LandsWithin};
ghost use Rattle.rota.specs.Turns.{fixed_turns, EveryBoard, waits, can_land, turn_to_land, turn_after, landing, Served, StartsInLine, LandsByTurn};
ghost use Rattle.carries.proofs.ByBoard;
ghost use Rattle.std.proofs.Common.{rules};

use carries::table::Table;
use model::carry::Carry;
use model::refusal::Refusal;
use path::path::Path;

// Whose turn it is, turn by turn; after the last turn the first one comes round again.
const TURNS: [u32; 16] = [0, 1, 2, 3, 4, 5, 6, 7, 0, 1, 2, 3, 0, 1, 0, 1];

// The path that lands by turns: it goes round to the first turn whose board has a carry, lands the oldest of that line,
// and goes on with the turn after it.
#[derive(Drop)]
pub struct Rota {
    waiting: Table<4>,
    turn: usize,
    ghost within: { turn < 16 },
}

impl Rota {
    // A rota on which nothing waits, at its first turn.
    pub fn new() -> Self
        ensures empty { held result.waiting ≡ [] }
        ensures first { result.turn ≡ 0 }
    {
        Rota {
            waiting: Table::new(),
            turn: 0,
        }
    }

    // How many landings a carry at the head of its line waits for at most, whatever is started meanwhile: a round of
    // turns. With other turns it would be their number, if only every board has one.
    #[tactic(auto, using(crate::proofs::Heads::lands_within, crate::proofs::Heads::fixed_within))]
    pub fn longest_wait() -> u32
        ensures count { result ≡ 16 }
        ensures bound { LandsWithin result fixed_turns 4 }
        ensures others { (ts : List ℕ) (n : ℕ) → EveryBoard ts → LandsWithin (length ts) ts n }
    {
        TURNS.len() as u32
    }

    // Whether the board of a turn has a carry.
    fn can_land(&self, turn: usize) -> bool
        requires { turn < 16 }
        ensures { result ≡ can_land fixed_turns (lines_in self.now.waiting) turn }
    {
        self.waiting.count(TURNS[turn]).is_ok_and(|count| count > 0)
    }

    // The first turn of those from `from` up to `to` whose board has a carry.
    fn first_turn(&self, from: usize, to: usize) -> Option<usize>
        requires { to ≤ 16 }
        ensures { result ≡ find (can_land fixed_turns (lines_in self.now.waiting)) (range_with_len from (to - from)) }
    {
        (from..to).find(|turn| self.can_land(*turn))
    }

    // The turn that the next landing serves: the first, as they come round, whose board has a carry.
    fn next_turn(&self) -> Option<usize>
        ensures value { result ≡ turn_to_land fixed_turns (lines_in self.now.waiting) self.now.turn }
        ensures served { Served fixed_turns (lines_in self.now.waiting) result }
    {
        self.first_turn(self.turn, TURNS.len())
            .or_else(|| self.first_turn(0, self.turn))
    }
}

impl Path for Rota {
    const LENGTH: u32 = 4;

    ghost LENGTH = { 4 };

    ghost lines = { λ p. lines_in p.waiting };

    ghost starts = { λ p x q. StartsInLine (lines_in p.waiting) p.turn x (lines_in q.waiting) q.turn };

    ghost lands = { λ p r q. LandsByTurn (lines_in p.waiting) p.turn r (lines_in q.waiting) q.turn };

    ghost bounded = { Prim.search rules };

    ghost proper = { λ p. ByBoard.proper 4 (held p.waiting) p.waiting.located p.waiting.short };

    fn capacity() -> u32
        ensures value { result ≡ 4 }
        ensures constant { result ≡ ⟦<Self as Path>⟧.LENGTH }
    {
        Self::LENGTH
    }

    fn start(&mut self, carry: Carry) -> Result<(), Refusal>
        ensures answer { result ≡ start_at 4 (lines_in self.old.waiting) carry }
        ensures after { lines_in self.new.waiting ≡ started 4 (lines_in self.old.waiting) carry }
        ensures turn { self.new.turn ≡ self.old.turn }
        ensures own { StartsInLine (lines_in self.old.waiting) self.old.turn carry (lines_in self.new.waiting) self.new.turn }
        ensures refused { is_ok result ≡ false → self.new ≡ self.old }
    {
        self.waiting.start(carry)
    }

    fn land(&mut self) -> Option<Carry>
        ensures landed { Landed (lines_in self.old.waiting) result (lines_in self.new.waiting) }
        ensures answer { result ≡ (landing fixed_turns (lines_in self.old.waiting) self.old.turn).carry }
        ensures after { lines_in self.new.waiting ≡ (landing fixed_turns (lines_in self.old.waiting) self.old.turn).lines }
        ensures turn { self.new.turn ≡ (landing fixed_turns (lines_in self.old.waiting) self.old.turn).turn }
        ensures own { LandsByTurn (lines_in self.old.waiting) self.old.turn result (lines_in self.new.waiting) self.new.turn }
        ensures idle { is_some result ≡ false → self.new ≡ self.old }
    {
        let turn = self.next_turn()?;
        self.turn = (turn + 1) % TURNS.len();
        self.waiting.land_of(TURNS[turn])
    }

    // The table answers, in each path: a default in the trait would need one more call, for the table.
    fn newest(&self, board: u32, cell: u32) -> Result<Option<Carry>, Refusal> {
        self.waiting.newest(board, cell)
    }

    fn count(&self, board: u32) -> Result<u32, Refusal> {
        self.waiting.count(board)
    }
}
