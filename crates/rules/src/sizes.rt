// Sizes and places that the code of the engine has and a caller of the library has no use for (lib.rt has those of the header), by
// the names that they have in specs/ (Bounds, Memory, DayFile).
use crate::{
    ACCOUNT_WIDTH, COMMAND_WIDTH, CONTRACT_WIDTH, COUNT_WIDTH, MAX_ACCOUNTS, MAX_COMMANDS,
    MAX_CONTRACTS, MAX_RESTING, MAX_TRADES,
};

// A margin rate is so many parts of this.
pub const RATE_PARTS: u64 = 10000;

// The words of an order that hold its account, its remaining lots and its quote mark.
pub const ACCOUNT_WORD: usize = 2;

pub const LOTS_WORD: usize = 3;

pub const QUOTE_WORD: usize = 6;

// Up to so many recorded trades an order has room for all of its own: it makes at most one with each order of the opposite
// queue.
pub const TRADES_WITH_ROOM: usize = MAX_TRADES - MAX_RESTING;

// How many bytes the largest sound day file has.
pub const FILE_MOST: usize = 3 * COUNT_WIDTH
    + CONTRACT_WIDTH * MAX_CONTRACTS
    + ACCOUNT_WIDTH * MAX_ACCOUNTS
    + COMMAND_WIDTH * MAX_COMMANDS;
