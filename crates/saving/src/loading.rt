// The state that a file gives, written over another: "Reading leaves places not in use untouched." For this crate: each requires its bytes
// within the file.
ghost use Rattle.std.specs.Prelude.{◌≡◌, ◌+◌, ◌*◌, ◌<◌, ◌≤◌, length, get_or};
ghost use Rattle.laws.specs.Written.{overwritten};
ghost use Rattle.rules.specs.Bounds.{max_contracts};
ghost use Rattle.rules.specs.Exchange.{no_account};
ghost use Rattle.rules.specs.Memory.{put_account};
ghost use Rattle.sections.specs.Sections.{holding_width};
ghost use Rattle.statefile.specs.StateFile.{saved_contract_place, saved_contract, saved_holding, saved_account, loaded_account, loaded_from, loaded_state, saved_contract_width, saved_account_width};

use crate::shape::{
    BALANCE_WIDTH, LOTS_WIDTH, SAVED_ACCOUNT_WIDTH, SAVED_CONTRACT_WIDTH, SETTLEMENTS_WIDTH,
    SavedFile,
};
use dayfile::bytes::contract_at;
use dayfile::head::TWO_COUNTS;
use endian::reading::{signed, u8_at, u32_at, u64_at};
use rules::{Account, Contract, Holding, State};
use sections::HOLDING_WIDTH;
use settlement::reopen::no_orders;

// the day file's contract, with its own last price
#[tactic(auto, unfolding(statefile::specs::StateFile::saved_contract))]
fn contract_from(file: &[u8], at: usize) -> Contract
    requires { at + saved_contract_width ≤ length file.now }
    ensures { result ≡ saved_contract file.now at }
{
    let mut c = contract_at(file, at);
    c.last = u32_at(file, at + rules::CONTRACT_WIDTH);
    c
}

// Three loops and not one with a closure: its clauses would be longer than the loop, and an account is written over the one there.
fn contracts_over(
    file: &[u8],
    n: usize,
    places: [Contract; rules::MAX_CONTRACTS],
) -> [Contract; rules::MAX_CONTRACTS]
    requires { (n ≤ max_contracts) × (saved_contract_place n ≤ length file.now) }
    ensures { result ≡ overwritten (λ c. saved_contract file.now (saved_contract_place c)) places n }
{
    let mut list = places;
    for c in 0..n {
        list[c] = contract_from(file, rules::COUNT_WIDTH + SAVED_CONTRACT_WIDTH * c);
    }
    list
}

// what is held, at the start of the day and now
#[tactic(auto, unfolding(statefile::specs::StateFile::saved_holding))]
fn holding_from(file: &[u8], at: usize) -> Holding
    requires { at + holding_width ≤ length file.now }
    ensures { result ≡ saved_holding file.now at }
{
    let long = u32_at(file, at);
    let short = u32_at(file, at + LOTS_WIDTH);
    Holding {
        long,
        short,
        startlong: long,
        startshort: short,
    }
}

fn holdings_over(
    file: &[u8],
    row: usize,
    n: usize,
    places: [Holding; rules::MAX_CONTRACTS],
) -> [Holding; rules::MAX_CONTRACTS]
    requires { (n ≤ max_contracts) × (row + holding_width * n ≤ length file.now) }
    ensures { result ≡ overwritten (λ c. saved_holding file.now (row + holding_width * c)) places n }
{
    let mut list = places;
    for c in 0..n {
        list[c] = holding_from(file, row + HOLDING_WIDTH * c);
    }
    list
}

// An account over another, its holdings in contracts past the count as they were.
fn account_over(file: &[u8], at: usize, row: usize, n: usize, room: Account) -> Account
    requires { (n ≤ max_contracts) × (at + saved_account_width ≤ length file.now) × (row + holding_width * n ≤ length file.now) }
    ensures { result ≡ put_account (saved_account file.now n at row) room }
{
    Account {
        balance: signed(u64_at(file, at)),
        maker: u64::from(u8_at(file, at + BALANCE_WIDTH)),
        holdings: holdings_over(file, row, n, room.holdings),
    }
}

fn accounts_over(
    file: &SavedFile<'_>,
    places: [Account; rules::MAX_ACCOUNTS],
) -> [Account; rules::MAX_ACCOUNTS]
    ensures { result ≡ overwritten (λ a. put_account (loaded_account file.now.bytes.now a) (get_or places a no_account)) places file.now.accounts }
{
    let first = TWO_COUNTS + SAVED_CONTRACT_WIDTH * file.contracts;
    let rows = first + SAVED_ACCOUNT_WIDTH * file.accounts + rules::COUNT_WIDTH;
    let row_width = HOLDING_WIDTH * file.contracts;
    let mut list = places;
    for a in 0..file.accounts {
        list[a] = account_over(
            file.bytes,
            first + SAVED_ACCOUNT_WIDTH * a,
            rows + row_width * a,
            file.contracts,
            places[a],
        );
    }
    list
}

pub fn loaded_state(file: &SavedFile<'_>, state: State) -> State
    ensures { result ≡ loaded_state state (loaded_from file.now.bytes.now) }
{
    let contracts = file.contracts;
    State {
        contracts: contracts_over(file.bytes, contracts, state.contracts),
        accounts: accounts_over(file, state.accounts),
        buycounts: no_orders(state.buycounts, contracts),
        sellcounts: no_orders(state.sellcounts, contracts),
        contractcount: contracts,
        accountcount: file.accounts,
        tradecount: 0,
        next: 1,
        nextstamp: 1,
        settlements: u32_at(file.bytes, file.bytes.len() - SETTLEMENTS_WIDTH),
    }
}
