// What is decided of a command that is not refused: its answer, and what it changes in the state. The areas are written by then. The
// update is written where the state stands, by whoever owns the state: one that a function takes and gives back is copied twice.
ghost use Rattle.std.specs.Prelude.{◌≡◌, ◌<◌};
ghost use Rattle.rules.specs.Bounds.{max_contracts};
ghost use Rattle.engine.specs.Decision.{accepted_by, left_for, listed_in, with_listed};

use rules::{Account, Answer, Contract, NewOrder, State, Taker};

// A contract as it stands: its place, its terms, the orders on either side; and what all contracts share, the day's trades and the next
// order number and time stamp.
#[derive(Clone, Copy)]
pub struct Listed {
    pub place: usize,
    pub terms: Contract,
    pub bought: usize,
    pub sold: usize,
    pub recorded: usize,
    pub next: u32,
    pub nextstamp: u32,
}

// An order about to enter: as it was sent, as it meets the opposite queue, and its contract as it stands, with the next order number and
// time stamp that it leaves.
#[derive(Clone, Copy)]
pub struct Arrival {
    pub order: NewOrder,
    pub taker: Taker,
    pub listed: Listed,
}

// What is left where all accounts may have changed: the accounts, one contract, the answer. The array stands first, so that nothing
// pads it and fewer copies of it are made.
#[derive(Clone, Copy)]
pub struct Carried {
    pub accounts: [Account; rules::MAX_ACCOUNTS],
    pub listed: Listed,
    pub answer: Answer,
}

// What is left to do with all accounts: an order that trades, the match of an auction.
#[derive(Clone, Copy)]
pub enum Pending {
    Trading(Arrival),
    Matching(u32),
}

// A quote as it is asked for.
#[derive(Clone, Copy)]
pub struct Quoted {
    pub account: u32,
    pub contract: u32,
    pub lots: u32,
    pub buy: u32,
    pub sell: u32,
}

// What is left to do with the whole state.
#[derive(Clone, Copy)]
pub enum Remaining {
    Quoting(Quoted),
    Settling,
}

// What changes: nothing, one account's balance, one contract; or nothing is done yet, and this is left to do, with all accounts or with
// the whole state.
#[derive(Clone, Copy)]
pub enum Update {
    Nothing,
    Balance { place: usize, balance: i64 },
    Listing(Listed),
    Left(Pending),
    Whole(Remaining),
}

#[derive(Clone, Copy)]
pub struct Decision {
    pub answer: Answer,
    pub update: Update,
}

// Nothing is traded: whoever trades is left for all accounts.
pub fn accepted(update: Update, number: u32, lots: u32) -> Decision
    ensures { result ≡ accepted_by update number lots }
{
    Decision {
        answer: Answer {
            code: 0,
            number,
            traded: 0,
            lots,
        },
        update,
    }
}

// Its answer is given when it is done.
pub fn left(update: Update) -> Decision
    ensures { result ≡ left_for update }
{
    Decision {
        answer: Answer {
            code: 0,
            number: 0,
            traded: 0,
            lots: 0,
        },
        update,
    }
}

// The contract at a place as it stands.
pub fn listed_at(state: &State, c: usize) -> Listed
    requires { c < max_contracts }
    ensures { result ≡ listed_in state.now c }
{
    Listed {
        place: c,
        terms: state.contracts[c],
        bought: state.buycounts[c],
        sold: state.sellcounts[c],
        recorded: state.tradecount,
        next: state.next,
        nextstamp: state.nextstamp,
    }
}

// A contract as it stands by now is written where the state stands.
pub fn write_listed(state: &mut State, l: Listed)
    requires { l.place < max_contracts }
    ensures { state.new ≡ with_listed state.old l }
{
    state.contracts[l.place] = l.terms;
    state.buycounts[l.place] = l.bought;
    state.sellcounts[l.place] = l.sold;
    state.tradecount = l.recorded;
    state.next = l.next;
    state.nextstamp = l.nextstamp;
}

// The state with a contract as it stands by now.
pub fn with_listed(state: State, l: Listed) -> State
    requires { l.place < max_contracts }
    ensures { result ≡ with_listed state l }
{
    let mut next = state;
    write_listed(&mut next, l);
    next
}
