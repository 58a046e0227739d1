// What a board's cache has of one cell: nothing, a word as the memory had it, or a word that the memory lacks. No
// `Option` of two: these are the protocol's three states of an entry, and each step asks for all three.
#[derive(Clone, Copy, PartialEq, Eq, Debug)]
pub enum Entry {
    Invalid,
    Clean(u32),
    Dirty(u32),
}
