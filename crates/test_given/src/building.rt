// The state and the areas that a vector tells: a filling, and edits of it (`tools/model/vectors.py`, `tools/model/memory.py`).
ghost use Rattle.std.specs.Prelude.{◌≤◌};

use crate::reading::{Reader, narrowed, product, put, signed};
use rules::{Account, Contract, Holding, State};

const QUEUES: usize = 3360;

const TRADES: usize = 9300;

const ANSWERS: usize = 500;

// Where an area begins among the words of all, which stand one after the other.
const BUYS_AT: usize = 0;

const SELLS_AT: usize = BUYS_AT + QUEUES;

const TRADES_AT: usize = SELLS_AT + QUEUES;

const ANSWERS_AT: usize = TRADES_AT + TRADES;

const WORDS: usize = ANSWERS_AT + ANSWERS;

// The word that a filling begins with.
const FILLING: u32 = 2779096485;

// The lent areas, each with all the words that a vector may lend of it.
#[derive(Clone, Copy, PartialEq, Eq)]
pub struct Areas {
    pub buys: [u32; QUEUES],
    pub sells: [u32; QUEUES],
    pub trades: [u32; TRADES],
    pub answers: [u32; ANSWERS],
}

impl Areas {
    // "every word of an area has one of its own"
    pub fn filled() -> Areas {
        let mut areas = Areas {
            buys: [0; QUEUES],
            sells: [0; QUEUES],
            trades: [0; TRADES],
            answers: [0; ANSWERS],
        };
        let mut next = FILLING;
        next = fill(&mut areas.buys, next);
        next = fill(&mut areas.sells, next);
        next = fill(&mut areas.trades, next);
        fill(&mut areas.answers, next);
        areas
    }

    // Writes from a place on, through the areas one after the other, what there is room for.
    fn put(&mut self, at: usize, words: &[u32]) {
        let left = put_in(&mut self.buys, at, words);
        let left = put_in(&mut self.sells, at.saturating_sub(SELLS_AT), left);
        let left = put_in(&mut self.trades, at.saturating_sub(TRADES_AT), left);
        put(&mut self.answers, at.saturating_sub(ANSWERS_AT), left);
    }
}

// Writes into an area from a place on. The words that it has no room for.
fn put_in<'a>(area: &mut [u32], at: usize, words: &'a [u32]) -> &'a [u32] {
    put(area, at, words);
    words.get(area.len().saturating_sub(at)..).unwrap_or(&[])
}

// The word behind the last one of the filling.
fn fill(area: &mut [u32], first: u32) -> u32 {
    let mut word = first;
    for place in area.iter_mut() {
        *place = word;
        word = word.wrapping_add(1);
    }
    word
}

// How many words of each area are lent.
#[derive(Clone, Copy)]
pub struct Lengths {
    pub buys: usize,
    pub sells: usize,
    pub trades: usize,
    pub answers: usize,
}

// What a vector gives.
#[derive(Clone, Copy)]
pub struct Given {
    pub state: State,
    pub areas: Areas,
    pub lengths: Lengths,
}

impl Given {
    // A filled state, filled areas, and no words lent.
    pub fn filled() -> Given {
        Given {
            state: filling(),
            areas: Areas::filled(),
            lengths: Lengths {
                buys: 0,
                sells: 0,
                trades: 0,
                answers: 0,
            },
        }
    }
}

fn filling() -> State {
    let holding = Holding {
        long: FILLING,
        short: FILLING,
        startlong: FILLING,
        startshort: FILLING,
    };
    let account = Account {
        balance: -4611686018427387904,
        holdings: [holding; rules::MAX_CONTRACTS],
        maker: 1,
    };
    let contract = Contract {
        multiplier: FILLING,
        tick: FILLING,
        reference: FILLING,
        band: FILLING,
        limit: FILLING,
        rate: 42405,
        method: 42405,
        phase: FILLING,
        last: FILLING,
    };
    State {
        contracts: [contract; rules::MAX_CONTRACTS],
        accounts: [account; rules::MAX_ACCOUNTS],
        buycounts: [9223372039633872293; rules::MAX_CONTRACTS],
        sellcounts: [9223372039633872293; rules::MAX_CONTRACTS],
        contractcount: 0,
        accountcount: 0,
        tradecount: 0,
        next: 0,
        nextstamp: 0,
        settlements: 0,
    }
}

// What an edit writes.
enum Edit {
    Counts,
    Lengths,
    Contract,
    Queues,
    Account,
    Holding,
    Buys,
    Sells,
    Trades,
    Answers,
    Other,
}

impl Edit {
    // The edit of a number.
    fn from_number(number: u64) -> Edit {
        match number {
            0 => Edit::Counts,
            1 => Edit::Lengths,
            2 => Edit::Contract,
            3 => Edit::Queues,
            4 => Edit::Account,
            5 => Edit::Holding,
            6 => Edit::Buys,
            7 => Edit::Sells,
            8 => Edit::Trades,
            9 => Edit::Answers,
            _ => Edit::Other,
        }
    }
}

// "0 counts: contracts, accounts, trades, next order number, next stamp, settlements"
fn put_counts(vector: &mut Reader, state: &mut State) {
    let [contracts, accounts, trades, next, nextstamp, settlements] = vector.numbers::<6>();
    state.contractcount = contracts as usize;
    state.accountcount = accounts as usize;
    state.tradecount = trades as usize;
    state.next = narrowed(next);
    state.nextstamp = narrowed(nextstamp);
    state.settlements = narrowed(settlements);
}

// "as many records as it is long, and words more (may be negative)"
fn area_length(vector: &mut Reader, width: usize) -> usize {
    let [records, more] = vector.numbers::<2>();
    let whole = product(records as usize, width);
    let words = signed(more);
    let apart = words.unsigned_abs() as usize;
    if words < 0 {
        whole.saturating_sub(apart)
    } else {
        whole.saturating_add(apart)
    }
}

// "1 areas: for the areas of buys, sells, trades and answers"
fn read_lengths(vector: &mut Reader) -> Lengths {
    Lengths {
        buys: area_length(vector, rules::ORDER_STRIDE),
        sells: area_length(vector, rules::ORDER_STRIDE),
        trades: area_length(vector, rules::TRADE_STRIDE),
        answers: area_length(vector, rules::ANSWER_STRIDE),
    }
}

// "2 contract: place, its fields"
fn put_contract(vector: &mut Reader, state: &mut State) {
    let [
        place,
        multiplier,
        tick,
        reference,
        band,
        limit,
        rate,
        method,
        phase,
        last,
    ] = vector.numbers::<10>();
    if let Some(contract) = state.contracts.get_mut(place as usize) {
        *contract = Contract {
            multiplier: narrowed(multiplier),
            tick: narrowed(tick),
            reference: narrowed(reference),
            band: narrowed(band),
            limit: narrowed(limit),
            rate: narrowed(rate),
            method: narrowed(method),
            phase: narrowed(phase),
            last: narrowed(last),
        };
    }
}

// "3 queues: place of the contract, count of buys, count of sells"
fn put_queues(vector: &mut Reader, state: &mut State) {
    let [place, buys, sells] = vector.numbers::<3>();
    if let Some(count) = state.buycounts.get_mut(place as usize) {
        *count = buys as usize;
    }
    if let Some(count) = state.sellcounts.get_mut(place as usize) {
        *count = sells as usize;
    }
}

// "4 account: place, balance (may be negative), maker mark"
fn put_account(vector: &mut Reader, state: &mut State) {
    let [place, balance, maker] = vector.numbers::<3>();
    if let Some(account) = state.accounts.get_mut(place as usize) {
        account.balance = signed(balance);
        account.maker = maker;
    }
}

// "5 holding: place of the account, place of the contract, its fields"
fn put_holding(vector: &mut Reader, state: &mut State) {
    let [place, contract, long, short, startlong, startshort] = vector.numbers::<6>();
    if let Some(account) = state.accounts.get_mut(place as usize) {
        if let Some(holding) = account.holdings.get_mut(contract as usize) {
            *holding = Holding {
                long: narrowed(long),
                short: narrowed(short),
                startlong: narrowed(startlong),
                startshort: narrowed(startshort),
            };
        }
    }
}

// "first place in the area, count, step, the fields of the first record"; of each further record the fields at `rising` are higher by
// the step. The area begins at `base`. Fields that are not told are zero.
fn put_records<const WIDTH: usize>(
    vector: &mut Reader,
    areas: &mut Areas,
    base: usize,
    told: usize,
    rising: &[usize],
)
    requires { WIDTH ≤ 16 }
{
    let [place, count, step] = vector.numbers::<3>();
    let step: u32 = narrowed(step);
    let mut record = [0u32; WIDTH];
    for word in record.iter_mut().take(told) {
        *word = narrowed(vector.number());
    }
    let mut at = base.saturating_add(WIDTH.saturating_mul(place as usize));
    // there is room for no more records than words
    for _ in 0..count.min(WORDS as u64) {
        areas.put(at, &record);
        at = at.saturating_add(WIDTH);
        for field in rising {
            if let Some(word) = record.get_mut(*field) {
                *word = word.wrapping_add(step);
            }
        }
    }
}

// Orders of which so many fields are told.
fn put_orders(vector: &mut Reader, areas: &mut Areas, base: usize, told: usize) {
    let rising = [rules::NUMBER_WORD, rules::STAMP_WORD];
    put_records::<{ rules::ORDER_STRIDE }>(vector, areas, base, told, &rising);
}

fn put_trades(vector: &mut Reader, areas: &mut Areas) {
    let told = rules::TRADE_STRIDE;
    put_records::<{ rules::TRADE_STRIDE }>(vector, areas, TRADES_AT, told, &[1]);
}

fn put_answers(vector: &mut Reader, areas: &mut Areas) {
    let told = rules::ANSWER_STRIDE;
    put_records::<{ rules::ANSWER_STRIDE }>(vector, areas, ANSWERS_AT, told, &[1]);
}

fn put_edit(vector: &mut Reader, edit: Edit, given: &mut Given) {
    match edit {
        Edit::Counts => put_counts(vector, &mut given.state),
        Edit::Lengths => given.lengths = read_lengths(vector),
        Edit::Contract => put_contract(vector, &mut given.state),
        Edit::Queues => put_queues(vector, &mut given.state),
        Edit::Account => put_account(vector, &mut given.state),
        Edit::Holding => put_holding(vector, &mut given.state),
        Edit::Buys => put_orders(vector, &mut given.areas, BUYS_AT, rules::ORDER_STRIDE),
        Edit::Sells => put_orders(vector, &mut given.areas, SELLS_AT, rules::ORDER_STRIDE),
        Edit::Trades => put_trades(vector, &mut given.areas),
        Edit::Answers => put_answers(vector, &mut given.areas),
        // as many numbers as of an answer, put as orders
        Edit::Other => put_orders(vector, &mut given.areas, ANSWERS_AT, rules::ANSWER_STRIDE),
    }
}

// "count of edits, then each edit".
pub fn put_edits(vector: &mut Reader, given: &mut Given) {
    for _ in 0..vector.number() {
        let edit = Edit::from_number(vector.number());
        put_edit(vector, edit, given);
    }
}

// The words from a contract's queue on in an area of buys or of sells: 64 orders for each contract before it.
pub fn queue_from(area: &[u32], contract: usize) -> &[u32] {
    let before = contract.saturating_sub(1);
    let at = rules::QUEUE_STRIDE.saturating_mul(before);
    area.get(at..).unwrap_or(&[])
}
