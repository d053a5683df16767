// What a vector of `test_vectors` gives and tells: its numbers read, and the state and the areas built from them. A crate of its own, which
// rests on the records alone: it is proved beside the engine and not behind it.
#![tactic(auto)]

pub mod building;
pub mod reading;
