// The daily settlement (document 01, "Margin and settlement"). For our own crates: `settle` asks for a well-formed state in which a
// settle command is accepted, `prices_due` for contracts that can be priced.
ghost use Rattle.std.specs.Prelude.{◌≡◌, ◌<◌, ◌≤◌};
ghost use Rattle.rules.specs.Bounds.{max_contracts, max_settlements};
ghost use Rattle.rules.specs.Memory.{memory};
ghost use Rattle.settlement.specs.Settling.{Settleable, SettledIs, AllChargeable, AllPriceable, ChargesAre, next_day, prices_due};

use crate::balances::{self, Books};
use crate::reopen;
use dayprofit::price;
use rules::{Account, State};

// The state after a settlement; the prices, each account's closing and holding profit, and its charged margin afterwards.
#[derive(Clone, Copy)]
pub struct Settled {
    pub state: State,
    pub prices: [u32; rules::MAX_CONTRACTS],
    pub closing: [i64; rules::MAX_ACCOUNTS],
    pub holding: [i64; rules::MAX_ACCOUNTS],
    pub charged: [u64; rules::MAX_ACCOUNTS],
}

// The settlement price of each contract in use, as a settlement now would find it. Another crate asks for it too.
pub fn prices_due<'a>(
    state: State,
    buys: &'a [u32],
    sells: &'a [u32],
    trades: &'a [u32],
) -> [u32; rules::MAX_CONTRACTS]
    requires { AllPriceable state buys.now sells.now trades.now }
    ensures { result ≡ prices_due state buys.now sells.now trades.now }
{
    let mut prices: [u32; rules::MAX_CONTRACTS] = [0; rules::MAX_CONTRACTS];
    for c in 0..state.contractcount {
        prices[c] = price::settlement_price(
            state.contracts[c],
            buys,
            state.buycounts[c],
            sells,
            state.sellcounts[c],
            trades,
            state.tradecount,
            c,
        );
    }
    prices
}

// Each account's charged margin.
fn charges<'a>(state: State, buys: &'a [u32], sells: &'a [u32]) -> [u64; rules::MAX_ACCOUNTS]
    requires { AllChargeable state buys.now sells.now }
    ensures { ChargesAre state buys.now sells.now result }
{
    let mut charged: [u64; rules::MAX_ACCOUNTS] = [0; rules::MAX_ACCOUNTS];
    for a in 0..state.accountcount {
        charged[a] = margin::charged(
            state.accounts[a].holdings,
            state.contracts,
            state.contractcount,
            buys,
            state.buycounts,
            sells,
            state.sellcounts,
            a,
        );
    }
    charged
}

// "resting orders go, holdings become start-of-day, trades and order numbers start afresh, the settlement price becomes the
// reference, contracts return to pre-open": the state of the next day.
fn next_day(
    state: State,
    accounts: [Account; rules::MAX_ACCOUNTS],
    prices: [u32; rules::MAX_CONTRACTS],
) -> State
    requires { (state.contractcount ≤ max_contracts) × (state.settlements < max_settlements) }
    ensures { result ≡ next_day state accounts prices }
{
    let contracts = state.contractcount;
    State {
        contracts: reopen::all_reopened(state.contracts, contracts, prices),
        accounts,
        buycounts: reopen::no_orders(state.buycounts, contracts),
        sellcounts: reopen::no_orders(state.sellcounts, contracts),
        contractcount: contracts,
        accountcount: state.accountcount,
        tradecount: 0,
        next: 1,
        nextstamp: 1,
        settlements: state.settlements + 1,
    }
}

pub fn settle(state: State, buys: &mut [u32], sells: &mut [u32], trades: &mut [u32]) -> Settled
    requires { Settleable state buys.old sells.old trades.old }
    ensures { SettledIs (memory state buys.old sells.old trades.old) result buys.new sells.new trades.new }
{
    let prices = prices_due(state, &buys[..], &sells[..], &trades[..]);
    let Books {
        accounts,
        closing,
        holding,
    } = balances::all_paid(state, &trades[..], prices);
    reopen::clear_areas(state, buys, sells, trades);
    let next = next_day(state, accounts, prices);
    let charged = charges(next, &buys[..], &sells[..]);
    Settled {
        state: next,
        prices,
        closing,
        holding,
        charged,
    }
}
