// The memory: sources of words, which can be read, and homes, which can be written too. Whoever is given one knows it
// by the list of words that it means, and by nothing else.
#![tactic(auto)]

pub mod frozen_image;
pub mod holding_buffer;
pub mod pair;
pub mod pair_home;
pub mod read_back;
pub mod source;
pub mod word_home;
