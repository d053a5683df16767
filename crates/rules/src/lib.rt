// The records of document 01: what the rules in specs/ speak of and the engine works on. No rule is coded here.
//
// A place counts from 0, a number from 1: the account with number 1 stands at place 0. Commands and printed lines speak
// of numbers, the records below of places, except where they say "number".
//
// A record with `#[repr(C)]` lies in memory as a C compiler lays it out: programs in other languages hand it in as it is, with whatever
// numbers they have in it. So a phase, a pairing method and a mark stay numbers in these records, and no enum or bool.
//
// Counts and places are plain numbers, as C and files have them, and what they may be stands in the contracts: a type of their own
// would be made and taken apart at each index.

#![tactic(auto)]

pub mod codes;
pub mod sizes;

// "Numbers that bound everything", by the names that they have in specs/ (Bounds, Memory, DayFile).
pub const MAX_CONTRACTS: usize = 4;

pub const MAX_ACCOUNTS: usize = 32;

pub const MAX_RESTING: usize = 64;

pub const MAX_TRADES: usize = 1024;

pub const MAX_SETTLEMENTS: u32 = 250;

pub const NUMBERS_END: u32 = 1000000;

pub const MAX_LOTS: u32 = 1000;

pub const MAX_PRICE: u32 = 1000000;

pub const MAX_MULTIPLIER: u32 = 1000;

pub const MAX_TICK: u32 = 1000;

pub const MAX_LIMIT: u32 = 100000;

pub const MAX_RATE: u32 = 10000;

pub const MAX_BALANCE: u64 = 1000000000000000000;

pub const MAX_AMOUNT: u64 = 1000000000000000;

pub const MAX_DAY_PROFIT: u64 = 3000000000000000;

pub const MAX_METHOD: u16 = 2;

pub const MAX_COMMANDS: usize = 2000;

// How many bytes the count of a section, a contract, an account and a command take in a day file.
pub const COUNT_WIDTH: usize = 4;

pub const CONTRACT_WIDTH: usize = 20;

pub const ACCOUNT_WIDTH: usize = 8;

pub const COMMAND_WIDTH: usize = 24;

// How many words an order, all the places of one queue, a trade and an answer take in the lent areas.
pub const ORDER_STRIDE: usize = 7;

pub const QUEUE_STRIDE: usize = MAX_RESTING * ORDER_STRIDE;

pub const TRADE_STRIDE: usize = 9;

pub const ANSWER_STRIDE: usize = 4;

// How many words the areas of buys and of sells need for every contract, and the area of trades for a day.
pub const QUEUES_WORDS: usize = QUEUE_STRIDE * MAX_CONTRACTS;

pub const TRADES_WORDS: usize = TRADE_STRIDE * MAX_TRADES;

// The words of an order that hold its number and its time stamp.
pub const NUMBER_WORD: usize = 1;

pub const STAMP_WORD: usize = 5;

// A contract's terms for the day, with the number of its pairing method, its phase (the paper's contract state) and its last
// price. Both numbers are the C interface's. Rate and method are as wide as in the day file: four contracts then take 128 bytes, which a compiler still copies in
// place.
#[repr(C)]
#[derive(Clone, Copy, PartialEq, Eq, Default)]
pub struct Contract {
    pub multiplier: u32,
    pub tick: u32,
    pub reference: u32,
    pub band: u32,
    pub limit: u32,
    pub rate: u16,
    pub method: u16,
    pub phase: u32,
    pub last: u32,
}

// A contract's phases, and the largest of them.
pub const PRE_OPEN: u32 = 0;

pub const CONTINUOUS: u32 = 1;

pub const NO_TRADING: u32 = 2;

pub const CLOSED: u32 = 3;

pub const AUCTION: u32 = 4;

pub const MAX_PHASE: u32 = AUCTION;

// What one account holds in one contract: lots now, and lots at the start of the day.
#[repr(C)]
#[derive(Clone, Copy, PartialEq, Eq, Default)]
pub struct Holding {
    pub long: u32,
    pub short: u32,
    pub startlong: u32,
    pub startshort: u32,
}

// `maker` is 1 for a market maker and 0 for others, as the C interface has it.
#[repr(C)]
#[derive(Clone, Copy, PartialEq, Eq, Default)]
pub struct Account {
    pub balance: i64,
    pub holdings: [Holding; MAX_CONTRACTS],
    pub maker: u64,
}

// A resting order: its remaining lots, the account's place, 1 for a close and 0 for an open, its time stamp, 1 where it is part of
// a quote and 0 elsewhere: each a word of the lent area.
#[repr(C)]
#[derive(Clone, Copy, PartialEq, Eq, Default)]
pub struct Order {
    pub price: u32,
    pub number: u32,
    pub account: u32,
    pub lots: u32,
    pub close: u32,
    pub stamp: u32,
    pub quote: u32,
}

// A trade: the contract's place, the two orders' numbers, the two accounts' places, and for each leg 1 for a close and 0
// for an open: each a word of the lent area.
#[repr(C)]
#[derive(Clone, Copy, PartialEq, Eq, Default)]
pub struct Trade {
    pub contract: u32,
    pub price: u32,
    pub lots: u32,
    pub buyorder: u32,
    pub sellorder: u32,
    pub buyer: u32,
    pub seller: u32,
    pub buyclose: u32,
    pub sellclose: u32,
}

// All of the state that does not lie in lent areas. The areas hold the queues and the day's trades, the counts here say
// how many of each are in use: orders by contract, contracts, accounts, trades of the day. `next` is the next order number,
// `nextstamp` the next time stamp.
#[repr(C)]
#[derive(Clone, Copy, PartialEq, Eq, Default)]
pub struct State {
    pub contracts: [Contract; MAX_CONTRACTS],
    pub accounts: [Account; MAX_ACCOUNTS],
    pub buycounts: [usize; MAX_CONTRACTS],
    pub sellcounts: [usize; MAX_CONTRACTS],
    pub contractcount: usize,
    pub accountcount: usize,
    pub tradecount: usize,
    pub next: u32,
    pub nextstamp: u32,
    pub settlements: u32,
}

// A command's 24 bytes, field by field, whatever they hold: `command_of` reads the kind and the flags.
#[repr(C)]
#[derive(Clone, Copy, PartialEq, Eq, Default)]
pub struct Record {
    pub kind: u8,
    pub account: u8,
    pub contract: u8,
    pub flags: u8,
    pub lots: u32,
    pub price: u32,
    pub number: u32,
    pub amount: u64,
}

// "An order carries one of three price conditions": limit holds its price, market and best hold none.
#[derive(Clone, Copy, PartialEq, Eq)]
pub enum PriceCondition {
    Limit(u32),
    Market,
    Best,
}

// "0 middle price, 1 average, 2 first-in price": the average holds the tick that it is rounded down to.
#[derive(Clone, Copy, PartialEq, Eq)]
pub enum PairingMethod {
    Middle,
    Average(u32),
    FirstIn,
}

#[derive(Clone, Copy, PartialEq, Eq)]
pub enum TimeCondition {
    GoodForDay,
    ImmediateOrCancel,
    FillOrKill,
}

// An order as it is sent in. Its price field stays beside the price condition: code 7 looks at it after code 1.
#[derive(Clone, Copy, PartialEq, Eq)]
pub struct NewOrder {
    pub account: u32,
    pub contract: u32,
    pub sell: bool,
    pub close: bool,
    pub lots: u32,
    pub price: u32,
    pub condition: PriceCondition,
    pub time: TimeCondition,
}

// A command as it is understood; account and contract are numbers as given.
#[derive(Clone, Copy, PartialEq, Eq)]
pub enum Command {
    Malformed,
    Deposit {
        account: u32,
        amount: u64,
    },
    Withdraw {
        account: u32,
        amount: u64,
    },
    Insert(NewOrder),
    Cancel {
        account: u32,
        contract: u32,
        operator: bool,
        number: u32,
    },
    Pull {
        account: u32,
        contract: u32,
        operator: bool,
    },
    Phase {
        contract: u32,
        phase: u32,
    },
    Settle,
    Quote {
        account: u32,
        contract: u32,
        lots: u32,
        buy: u32,
        sell: u32,
    },
    Change {
        account: u32,
        contract: u32,
        number: u32,
        lots: u32,
        price: u32,
    },
}

// An accepted order as it meets the book: account and contract by place, its number, the time stamp and the quote mark that it gets, its
// contract's pairing method, and the best opposite price standing on its arrival (0 where the opposite side is empty). Its marks are
// numbers, as in the order that rests of it (definition `taker_for`).
#[derive(Clone, Copy, PartialEq, Eq)]
pub struct Taker {
    pub account: u32,
    pub contract: u32,
    pub sell: bool,
    pub close: u32,
    pub number: u32,
    pub stamp: u32,
    pub quote: u32,
    pub condition: PriceCondition,
    pub method: PairingMethod,
    pub best: u32,
}

// "Each answer holds a code, an order number, lots traded and lots rested (insert; a vanished remainder isn't counted) or
// removed (cancel, pull)."
#[repr(C)]
#[derive(Clone, Copy, PartialEq, Eq, Default)]
pub struct Answer {
    pub code: u32,
    pub number: u32,
    pub traded: u32,
    pub lots: u32,
}
