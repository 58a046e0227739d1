use crate::owners::Owners;
use cache::caches::Caches;
use home::source::Home;
use model::refusal::Refusal;
use path::path::Path;
use std::marker::Model;

mod access;
mod calls;
mod cells;
mod opening;
mod parts;
mod run;

// A bench over a home and a path: how many boards it has and how many entries each cache may have, or why its opening
// was refused; the caches, and who owns each cell. The refusal stands beside the rest, and there is no `Result`: an opening
// always yields a bench, as the project prescribes.
#[derive(Drop)]
pub struct Bench<H: Home, P: Path> {
    refusal: Option<Refusal>,
    boards: u32,
    entries: u32,
    caches: Caches,
    owners: Owners,
    home: H,
    path: P,
}

impl<H: Home, P: Path> Model for Bench<H, P> {
    ghost use Rattle.std.specs.Prelude.{◌≤◌};
    ghost use Rattle.engine.specs.Seen.{Seen};

    ghost Value = { Seen H P };

    ghost use Rattle.engine.specs.Benches.{state_of};

    ghost view = { λ b. record { state = state_of H.Source.words P.Path.lines P.Path.LENGTH b; home = b.home; path = b.path } };

    ghost invariant = { λ b. (b.boards ≤ 8) × (b.entries ≤ 8) };
}
