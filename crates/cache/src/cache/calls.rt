ghost use Rattle.std.specs.Prelude.{◌≡◌, ◌<◌, replicate, Some};
ghost use Rattle.std.specs.Option.{option_map};
ghost use Rattle.cache.specs.Places.{entry_of, entry_in, taken_in, store_in, replace_in, place_for, Stored, Offered, OfferedAt};
ghost use Rattle.cache.specs.Caches.{table_of};
ghost use Rattle.cache.specs.declared.place.Place.TheVariants.{Empty};

use super::Cache;
use crate::place::Place;
use crate::places::Places;
use model::entry::Entry;

impl Cache {
    pub fn new() -> Cache
        ensures { table_of result ≡ replicate 8 Empty }
    {
        Cache {
            places: Places::new(),
        }
    }

    // What the cache has of a cell.
    pub fn entry(&self, cell: u32) -> Entry
        ensures { result ≡ entry_in (table_of self.now) cell }
    {
        self.place_of(cell).entry()
    }

    // How many of the eight places are taken.
    pub fn taken(&self) -> u32
        ensures { result ≡ taken_in (table_of self.now) }
    {
        self.places.taken()
    }

    // The cache with that entry for the cell: in the cell's own place, or else in one that was empty. None where the
    // cell has no place and none is empty.
    pub fn store(self, cell: u32, entry: Entry) -> Option<Cache>
        ensures { Stored (table_of self) cell entry (option_map table_of result) }
    {
        let at = self.place_for(cell)?;
        Some(self.with(at, cell, entry))
    }

    // The cache with another entry for a cell that it has; nothing changes where it has none.
    #[tactic(auto, using(crate::proofs::Looks::replacing))]
    pub fn replace(self, cell: u32, entry: Entry) -> Cache
        ensures { table_of result ≡ replace_in (table_of self) cell (place_for cell entry) }
    {
        let Some(at) = self.places.find(cell) else {
            return self;
        };
        self.with(at, cell, entry)
    }

    // The place where the cell stands, or an empty one.
    fn place_of(&self, cell: u32) -> Place
        ensures { entry_of result ≡ entry_in (table_of self.now) cell }
    {
        self.places
            .find(cell)
            .map_or(Place::Empty, |i| self.places.get(i))
    }

    // Where an entry of the cell may be stored.
    fn place_for(&self, cell: u32) -> Option<usize>
        ensures { Offered (table_of self.now) cell result }
    {
        self.places.find(cell).or_else(|| self.places.vacant())
    }

    fn with(self, at: usize, cell: u32, entry: Entry) -> Cache
        requires { OfferedAt (table_of self) cell at }
        ensures { store_in at (table_of self) cell entry ≡ Some (table_of result) }
    {
        let mut places = self.places;
        places.put(at, Place::new(cell, entry));
        Cache { places }
    }
}
