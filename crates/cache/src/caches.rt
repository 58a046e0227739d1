ghost use Rattle.std.specs.Prelude.{◌≡◌, replicate, slice_set};
ghost use Rattle.std.specs.Option.{option_map};
ghost use Rattle.cache.specs.Caches.{table_of, tables, table_at};
ghost use Rattle.cache.specs.declared.place.Place.TheVariants.{Empty};

use super::cache::Cache;

// The caches of the eight boards that a bench can have. Eight named fields and no array: the form that the project
// prescribes.
#[derive(Clone, Copy)]
pub struct Caches {
    c0: Cache,
    c1: Cache,
    c2: Cache,
    c3: Cache,
    c4: Cache,
    c5: Cache,
    c6: Cache,
    c7: Cache,
}

impl Caches {
    pub fn new() -> Caches
        ensures { tables result ≡ replicate 8 (replicate 8 Empty) }
    {
        let c = Cache::new();
        Caches {
            c0: c,
            c1: c,
            c2: c,
            c3: c,
            c4: c,
            c5: c,
            c6: c,
            c7: c,
        }
    }

    // The cache of a board, if there is such a board.
    pub fn of(&self, board: u32) -> Option<Cache>
        ensures { option_map table_of result ≡ table_at (tables self.now) board }
    {
        match board {
            0 => Some(self.c0),
            1 => Some(self.c1),
            2 => Some(self.c2),
            3 => Some(self.c3),
            4 => Some(self.c4),
            5 => Some(self.c5),
            6 => Some(self.c6),
            7 => Some(self.c7),
            _ => None,
        }
    }

    // A board's cache replaced; nothing changes where there is no such board.
    pub fn put(&mut self, board: u32, cache: Cache)
        ensures { tables self.new ≡ slice_set (tables self.old) board (table_of cache) }
    {
        match board {
            0 => self.c0 = cache,
            1 => self.c1 = cache,
            2 => self.c2 = cache,
            3 => self.c3 = cache,
            4 => self.c4 = cache,
            5 => self.c5 = cache,
            6 => self.c6 = cache,
            7 => self.c7 = cache,
            _ => {}
        }
    }
}
