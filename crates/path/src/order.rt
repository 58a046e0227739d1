ghost use Rattle.std.specs.Prelude.{◌≡◌};
ghost use Rattle.path.specs.Runs.{start_reply, land_reply};

use model::carry::Carry;
use model::refusal::Refusal;

// What a path is asked to do.
#[derive(Clone, Copy, PartialEq, Eq, Debug)]
pub enum Order {
    Start(Carry),
    Land,
}

// What it answers. No `Result` of a landing: the four stand in one list of a run, some for starts and some for landings.
#[derive(Clone, Copy, PartialEq, Eq, Debug)]
pub enum Reply {
    Started,
    Refused(Refusal),
    Landed(Carry),
    NothingWaits,
}

impl From<Result<(), Refusal>> for Reply {
    ghost from_gives = { λ started reply. reply ≡ start_reply started };

    fn from(started: Result<(), Refusal>) -> Self {
        started.map_or_else(Reply::Refused, |()| Reply::Started)
    }
}

impl From<Option<Carry>> for Reply {
    ghost from_gives = { λ landed reply. reply ≡ land_reply landed };

    fn from(landed: Option<Carry>) -> Self {
        landed.map_or(Reply::NothingWaits, Reply::Landed)
    }
}
