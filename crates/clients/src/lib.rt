// One account's clients: which client each leg of the day is, and what they held at its start (ticket 9 of document
// 02). For our own crates: each function says what it requires.
#![tactic(auto)]

pub mod posting;
pub mod starts;

// "up to 16 clients"
pub const MAX_CLIENTS: u32 = 16;

// The clients' places, and the one behind them that stands for every other account.
pub const CLIENT_PLACES: usize = MAX_CLIENTS as usize + 1;
