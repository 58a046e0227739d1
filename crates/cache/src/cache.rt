ghost use Rattle.std.specs.Prelude.{◌≡◌, length};
ghost use Rattle.cache.specs.Places.{Distinct};

use super::places::Places;

pub mod calls;

// A board's cache. No cell stands in two of its places, so a cache is changed by value: one place at a time.
#[derive(Clone, Copy)]
pub struct Cache {
    places: Places,
    ghost eight: { length places.at ≡ 8 },
    ghost distinct: { Distinct places.at },
}
