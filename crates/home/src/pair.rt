// A cell with a word for it.
#[derive(Clone, Copy, PartialEq, Eq, Default, Debug)]
pub struct Pair {
    pub cell: u32,
    pub word: u32,
}
