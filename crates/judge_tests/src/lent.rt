ghost use Rattle.std.specs.Prelude.{◌≡◌};
ghost use Rattle.judge.specs.Judging.{placed};

use crate::flat::Flat;
use judge::judge::Judge;
use model::event::Event;
use model::refusal::Refusal;

// What a caller knows of the list it lent, once the judge is gone: a refused event changed nothing, an accepted one the
// first place.
pub fn note_one(list: &mut [Event], event: Event) -> Result<u32, Refusal>
    ensures { list.new ≡ placed result list.old 0 event }
{
    let mut judge = Judge::new(list);
    judge.note(8, &Flat { cells: 64, word: 0 }, event)
}
