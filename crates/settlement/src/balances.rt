// The accounts in a settlement: each one's profit over all contracts, its balance and its holdings (document 01, "Margin and
// settlement"). For our own crates: each function asks for values in the ranges of a well-formed state.
ghost use Rattle.std.specs.Prelude.{◌≡◌, ◌≤◌, pos, ◌+ℤ◌, ◌*ℤ◌, length};
ghost use Rattle.laws.specs.Bound.{Within};
ghost use Rattle.rules.specs.Bounds.{max_contracts, max_accounts, max_multiplier, balance_most};
ghost use Rattle.rules.specs.Memory.{put_account};
ghost use Rattle.rules.specs.Settlement as settlement;
ghost use Rattle.dayprofit.specs.Sides.{profit_most};
ghost use Rattle.dayprofit.specs.Slots.{slots};
ghost use Rattle.settlement.specs.Settling.{Totallable, TotalFrom, AllDue, carried_account, AllPayable, BooksIs, account_profit_most};

use book::trades::Trades;
use dayprofit::profit::Profit;
use dayprofit::{profit, sums};
use rules::{Account, Contract, Holding, State};

// The accounts after a settlement, and each one's closing and holding profit: array by array, as the report of a settlement has them.
#[derive(Clone, Copy)]
pub struct Books {
    pub accounts: [Account; rules::MAX_ACCOUNTS],
    pub closing: [i64; rules::MAX_ACCOUNTS],
    pub holding: [i64; rules::MAX_ACCOUNTS],
}

fn multiplied(profit: i64, multiplier: u32) -> i64
    requires { Within profit_most profit × (multiplier ≤ max_multiplier) }
    ensures { result ≡ pos multiplier *ℤ profit }
{
    profit * i64::from(multiplier)
}

// The contracts in use, as many as `count`: their terms and settlement prices. Arrays and a count, as the state has them: no heap.
#[derive(Clone, Copy)]
struct Priced {
    contracts: [Contract; rules::MAX_CONTRACTS],
    prices: [u32; rules::MAX_CONTRACTS],
    count: usize,
}

// An account's profit: "times multiplier", over all contracts. It takes the account and not the state: to read one account of many at a
// place that is not known beforehand, a call copies them all. The sums side by side: the contracts name them one by one, no heap.
fn total<'a>(
    holder: Account,
    priced: Priced,
    closed: &'a [u32],
    closes: &'a [u64],
    opened: &'a [u32],
    opens: &'a [u64],
    used: &'a [u64],
    a: usize,
) -> Profit
    requires { Totallable holder priced closed.now closes.now opened.now opens.now used.now a }
    ensures { TotalFrom holder priced closed.now closes.now opened.now opens.now used.now a result }
{
    let mut closing: i64 = 0;
    let mut holding: i64 = 0;
    for c in 0..priced.count {
        let contract = priced.contracts[c];
        let h = holder.holdings[c];
        let due = priced.prices[c];
        let reference = contract.reference;
        let p = profit::profit_at(closed, closes, opened, opens, used, a, c, reference, h, due);
        closing += multiplied(p.closing, contract.multiplier);
        holding += multiplied(p.holding, contract.multiplier);
    }
    Profit { closing, holding }
}

// How many of today's lots the closes of every account took in every contract.
fn put_all_due(state: State, closed: &[u32], left: &mut [u32])
    requires { (state.accountcount ≤ max_accounts) × (length closed.now ≡ slots) × (length left.old ≡ slots) }
    ensures { AllDue state closed.now left.new }
{
    for a in 0..state.accountcount {
        for c in 0..rules::MAX_CONTRACTS {
            let h = state.accounts[a].holdings[c];
            sums::put_due(closed, left, a, c, false, h.startlong);
            sums::put_due(closed, left, a, c, true, h.startshort);
        }
    }
}

// "holdings become start-of-day"
fn carried(h: Holding) -> Holding
    ensures { result ≡ settlement.carried_holding h }
{
    Holding {
        startlong: h.long,
        startshort: h.short,
        ..h
    }
}

fn carried_over(account: Account, contracts: usize) -> Account
    requires { contracts ≤ max_contracts }
    ensures { result ≡ put_account (carried_account account contracts account.balance) account }
{
    let mut next = account;
    for c in 0..contracts {
        next.holdings[c] = carried(account.holdings[c]);
    }
    next
}

// "The balance takes both."
fn with_profit(balance: i64, closing: i64, holding: i64) -> i64
    requires { Within balance_most balance × Within account_profit_most closing × Within account_profit_most holding }
    ensures { result ≡ balance +ℤ (closing +ℤ holding) }
{
    balance + (closing + holding)
}

// The account that a settlement leaves.
fn paid(account: Account, contracts: usize, closing: i64, holding: i64) -> Account
    requires { (contracts ≤ max_contracts) × Within balance_most account.balance × Within account_profit_most closing × Within account_profit_most holding }
    ensures { result ≡ put_account (carried_account account contracts (account.balance +ℤ (closing +ℤ holding))) account }
{
    Account {
        balance: with_profit(account.balance, closing, holding),
        ..carried_over(account, contracts)
    }
}

// Every account in use.
pub fn all_paid(state: State, trades: &[u32], prices: [u32; rules::MAX_CONTRACTS]) -> Books
    requires { AllPayable state trades.now prices }
    ensures { BooksIs state trades.now prices result }
{
    let mut closed: [u32; sums::SLOTS] = [0; sums::SLOTS];
    let mut closes: [u64; sums::SLOTS] = [0; sums::SLOTS];
    let mut opened: [u32; sums::SLOTS] = [0; sums::SLOTS];
    let mut opens: [u64; sums::SLOTS] = [0; sums::SLOTS];
    let mut left: [u32; sums::SLOTS] = [0; sums::SLOTS];
    let mut used: [u64; sums::SLOTS] = [0; sums::SLOTS];
    let day = Trades::new(trades, state.tradecount);
    sums::add_up(&day, true, &mut closed, &mut closes);
    sums::add_up(&day, false, &mut opened, &mut opens);
    put_all_due(state, &closed, &mut left);
    sums::take_first(&day, &mut left, &mut used);
    let priced = Priced {
        contracts: state.contracts,
        prices,
        count: state.contractcount,
    };
    let mut accounts = state.accounts;
    let mut closing: [i64; rules::MAX_ACCOUNTS] = [0; rules::MAX_ACCOUNTS];
    let mut holding: [i64; rules::MAX_ACCOUNTS] = [0; rules::MAX_ACCOUNTS];
    for a in 0..state.accountcount {
        let account = state.accounts[a];
        let p = total(account, priced, &closed, &closes, &opened, &opens, &used, a);
        accounts[a] = paid(account, state.contractcount, p.closing, p.holding);
        closing[a] = p.closing;
        holding[a] = p.holding;
    }
    Books {
        accounts,
        closing,
        holding,
    }
}
