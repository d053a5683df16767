// Whether a state and the areas lent with it are well formed: the test of code 21, for anything at all.
#![tactic(auto)]

ghost use Rattle.std.specs.Prelude.{true, ◌≡◌};
ghost use Rattle.rules.specs.Memory.{counts_in_range, exchange_of, has_room, well_formed_memory, memory};
ghost use Rattle.rules.specs.WellFormed.{well_formed_contents};

mod accounts;
pub mod counts;
mod lent;
mod numbers;
mod queues;
mod quotes;
mod recorded;
mod replay;

use rules::State;

// The clauses on what the state holds. The terms of the contracts come before the prices that are tested against them, trades
// and starting holdings before their replay. Requires counts within their ranges and room for them.
fn contents_are_well_formed(state: State, buys: &[u32], sells: &[u32], trades: &[u32]) -> bool
    requires { (counts_in_range state ≡ true) × (has_room (memory state buys.now sells.now trades.now) ≡ true) }
    ensures { result ≡ well_formed_contents (exchange_of (memory state buys.now sells.now trades.now)) }
{
    let held = state.accounts;
    let accounts = state.accountcount;
    let contracts = state.contractcount;
    let count = state.tradecount;
    counts::counters_in_range(state.next, state.nextstamp, state.settlements)
        && queues::listings_in_range(state, buys, sells)
        && numbers::used_once(state, buys, sells, rules::NUMBER_WORD)
        && numbers::used_once(state, buys, sells, rules::STAMP_WORD)
        && quotes::listings_quoted(state, buys, sells)
        && accounts::marks_in_range(held, accounts)
        && recorded::trades_in_range(
            state.contracts,
            contracts,
            accounts,
            state.next,
            trades,
            count,
        )
        && accounts::holdings_in_range(state, buys, sells)
        && replay::replays(held, contracts, accounts, trades, count)
        && accounts::balances_in_range(held, accounts, state.settlements)
}

// "A state is well formed when": every clause of the paper, on any state and any areas.
#[tactic(auto, unfolding(rules::specs::Memory::well_formed_memory))]
pub fn well_formed(state: State, buys: &[u32], sells: &[u32], trades: &[u32]) -> bool
    ensures { result ≡ well_formed_memory (memory state buys.now sells.now trades.now) }
{
    counts::counts_in_range(state)
        && counts::has_room(state, buys, sells, trades)
        && contents_are_well_formed(state, buys, sells, trades)
}
