// What a settlement leaves of contracts and queues (document 01, "Margin and settlement"). For our own crates: each function asks
// for counts in range and for the room of what it clears.
ghost use Rattle.std.specs.Prelude.{[], ◌≡◌, ◌≤◌, get_or};
ghost use Rattle.laws.specs.Tabulate.{tabulate};
ghost use Rattle.rules.specs.Bounds.{max_contracts};
ghost use Rattle.rules.specs.Exchange.{no_contract};
ghost use Rattle.rules.specs.Memory.{put_first, put_queues};
ghost use Rattle.rules.specs.Settlement as settlement;
ghost use Rattle.settlement.specs.Settling.{Clearable, AllClearable, ClearedAre};

use rules::{Contract, PRE_OPEN, State};

// "the settlement price becomes the reference, contracts return to pre-open"
fn reopened(contract: Contract, price: u32) -> Contract
    ensures { result ≡ settlement.settled_contract contract price }
{
    Contract {
        reference: price,
        phase: PRE_OPEN,
        ..contract
    }
}

pub fn all_reopened(
    contracts: [Contract; rules::MAX_CONTRACTS],
    count: usize,
    prices: [u32; rules::MAX_CONTRACTS],
) -> [Contract; rules::MAX_CONTRACTS]
    requires { count ≤ max_contracts }
    ensures { result ≡ put_first (tabulate count (λ c. settlement.settled_contract (get_or contracts c no_contract) (get_or prices c 0))) contracts }
{
    let mut next = contracts;
    for c in 0..count {
        next[c] = reopened(contracts[c], prices[c]);
    }
    next
}

// "resting orders go": their counts ..
pub fn no_orders(
    counts: [usize; rules::MAX_CONTRACTS],
    contracts: usize,
) -> [usize; rules::MAX_CONTRACTS]
    requires { contracts ≤ max_contracts }
    ensures { result ≡ put_first (tabulate contracts (λ c. 0)) counts }
{
    let mut next = counts;
    next[..contracts].fill(0);
    next
}

// .. and their places in the area.
fn clear_queues(area: &mut [u32], counts: [usize; rules::MAX_CONTRACTS], contracts: usize)
    requires { Clearable area.old counts contracts }
    ensures { area.new ≡ put_queues area.old counts (λ c. []) contracts }
{
    for c in 0..contracts {
        let a = rules::QUEUE_STRIDE * c;
        let e = a + rules::ORDER_STRIDE * counts[c];
        area[a..e].fill(0);
    }
}

// "resting orders go", "trades .. start afresh": every place in use of the three areas is set to zero.
pub fn clear_areas(state: State, buys: &mut [u32], sells: &mut [u32], trades: &mut [u32])
    requires { AllClearable state buys.old sells.old trades.old }
    ensures { ClearedAre state buys.old sells.old trades.old buys.new sells.new trades.new }
{
    clear_queues(buys, state.buycounts, state.contractcount);
    clear_queues(sells, state.sellcounts, state.contractcount);
    let e = rules::TRADE_STRIDE * state.tradecount;
    trades[..e].fill(0);
}
