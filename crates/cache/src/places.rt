ghost use Rattle.std.specs.Prelude.{◌≡◌, ◌<◌, replicate, slice_index_or, slice_set};
ghost use Rattle.cache.specs.Places.{Found, Vacant, taken_in};
ghost use Rattle.cache.specs.declared.place.Place.TheVariants.{Empty};

use super::place::Place;

// The table of a cache's places: a plain struct inside the cache, with the one call that changes it, as the project
// prescribes.
#[derive(Clone, Copy)]
pub struct Places {
    at: [Place; 8],
}

impl Places {
    pub(crate) fn new() -> Places
        ensures { result.at ≡ replicate 8 Empty }
    {
        Places {
            at: [Place::Empty; 8],
        }
    }

    pub(crate) fn get(&self, i: usize) -> Place
        requires { i < 8 }
        ensures { result ≡ slice_index_or self.now.at i Empty }
    {
        self.at[i]
    }

    pub(crate) fn put(&mut self, i: usize, place: Place)
        requires { i < 8 }
        ensures { self.new.at ≡ slice_set self.old.at i place }
    {
        self.at[i] = place;
    }

    // A place where the cell stands. Kept a call: in a caller that has the places by value it would be taken apart into
    // their words, which costs more than the look.
    #[inline(never)]
    pub(crate) fn find(&self, cell: u32) -> Option<usize>
        ensures { Found self.now.at cell result }
    {
        self.at.iter().position(|place| place.holds(cell))
    }

    // A place that is empty.
    pub(crate) fn vacant(&self) -> Option<usize>
        ensures { Vacant self.now.at result }
    {
        self.at.iter().position(|place| !place.is_taken())
    }

    pub(crate) fn taken(&self) -> u32
        ensures { result ≡ taken_in self.now.at }
    {
        self.at.iter().filter(|place| place.is_taken()).count() as u32
    }
}
