// The day file: whether its bytes are sound, the state that its run opens with, and its commands' records.
#![tactic(auto)]

pub mod bytes;
pub mod file;
pub mod head;
pub mod open;
