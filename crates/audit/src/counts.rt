// Counts and room: what every later test relies on before it reads a place.
ghost use Rattle.std.specs.Prelude.{◌&&◌, true, ◌≡◌, ◌≤◌, leb, get_or};
ghost use Rattle.laws.specs.Choice.{all};
ghost use Rattle.rules.specs.Bounds.{within, max_resting, max_contracts, max_settlements, numbers_end};
ghost use Rattle.rules.specs.Memory.{counts_in_range, has_room, memory};

use rules::State;

// Of the contracts in use none has more than 64 orders on a side.
fn few_orders(counts: [usize; rules::MAX_CONTRACTS], contracts: usize) -> bool
    requires { contracts ≤ max_contracts }
    ensures { result ≡ all (λ c. leb (get_or counts c 0) max_resting) contracts }
{
    counts[..contracts]
        .iter()
        .all(|count| *count <= rules::MAX_RESTING)
}

#[tactic(auto, unfolding(rules::specs::Memory::counts_in_range))]
pub fn counts_in_range(s: State) -> bool
    ensures { result ≡ counts_in_range s }
{
    let contracts = s.contractcount;
    1 <= contracts
        && contracts <= rules::MAX_CONTRACTS
        && 1 <= s.accountcount
        && s.accountcount <= rules::MAX_ACCOUNTS
        && s.tradecount <= rules::MAX_TRADES
        && few_orders(s.buycounts, contracts)
        && few_orders(s.sellcounts, contracts)
}

// "each queue area has room for 64 orders and the trade area for 1,024 trades". Requires counts within their ranges.
#[tactic(auto, using(invariants::proofs::MemoryRoom::counts_ok), unfolding(rules::specs::Memory::has_room))]
pub fn has_room(s: State, buys: &[u32], sells: &[u32], trades: &[u32]) -> bool
    requires { counts_in_range s ≡ true }
    ensures { result ≡ has_room (memory s buys.now sells.now trades.now) }
{
    let words = rules::QUEUE_STRIDE * s.contractcount;
    words <= buys.len() && words <= sells.len() && rules::TRADES_WORDS <= trades.len()
}

// "the next order number 1 to 1,000,000", the next time stamp too; "Settlements: 250 a run."
pub fn counters_in_range(next: u32, nextstamp: u32, settlements: u32) -> bool
    ensures { result ≡ (within 1 numbers_end next && within 1 numbers_end nextstamp && leb settlements max_settlements) }
{
    terms::within(1, rules::NUMBERS_END, next)
        && terms::within(1, rules::NUMBERS_END, nextstamp)
        && settlements <= rules::MAX_SETTLEMENTS
}
