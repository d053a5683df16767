// Holdings against limits and resting orders, makers' marks, and balances.
ghost use Rattle.std.specs.Prelude.{true, ◌≡◌, ℕ, ◌+◌, ◌*◌, ◌≤◌, ◌<◌, leb, length, get_or, take};
ghost use Rattle.laws.specs.Choice.{all, all_of};
ghost use Rattle.rules.specs.Bounds.{max_resting, max_accounts, max_settlements};
ghost use Rattle.rules.specs.Exchange.{holding_at, no_order};
ghost use Rattle.rules.specs.WellFormed.{held_in_range, holding_in_range, mark_in_range, balance_in_range};
ghost use Rattle.audit.specs.Lent.{in_range, listing_of};
ghost use Rattle.audit.specs.Parts.{QueuesReady, Summable, Summed, listing, listing_in_range};

use crate::lent::Queues;
use book::orders::Queue;
use rules::{Account, Holding, State};

// An account's resting opens and closes in a queue.
const RESTING: usize = 2 * rules::MAX_ACCOUNTS;

// A queue's resting lots by account in one pass: an account's opens stand at twice its place, its closes behind them.
fn resting_lots(queue: &Queue<'_>) -> [u32; RESTING]
    requires { (length queue.now ≤ max_resting) × ((i : ℕ) → i < length queue.now → Summable (get_or queue.now i no_order)) }
    ensures { Summed queue.now result }
{
    let mut lots: [u32; RESTING] = [0; RESTING];
    for i in 0..queue.len() {
        let o = queue.order(i);
        lots[(2 * o.account + o.close) as usize] += o.lots;
    }
    lots
}

// "holdings now plus resting opens on that side, keep the limit". Nothing is added, so nothing passes its width.
fn opens_keep_limit(held: u32, opens: u32, limit: u32) -> bool
    ensures { result ≡ leb (held + opens) limit }
{
    held <= limit && opens <= limit - held
}

// A holding against its limit and the account's resting lots: opens and closes of the buys, then of the sells. "resting closes are covered by
// holdings"
#[tactic(auto, unfolding(rules::specs::WellFormed::held_in_range))]
fn holding_in_range(
    h: Holding,
    limit: u32,
    buyopens: u32,
    buycloses: u32,
    sellopens: u32,
    sellcloses: u32,
) -> bool
    ensures { result ≡ held_in_range h limit buyopens buycloses sellopens sellcloses }
{
    h.startlong <= limit
        && h.startshort <= limit
        && opens_keep_limit(h.long, buyopens, limit)
        && opens_keep_limit(h.short, sellopens, limit)
        && sellcloses <= h.long
        && buycloses <= h.short
}

// What all accounts hold of the contract at a place.
#[tactic(auto, using(invariants::proofs::MemoryRoom::counts_ok))]
fn held_in_range(queues: &Queues<'_, '_>, c: usize) -> bool
    requires { (c < queues.now.state.now.contractcount) × (in_range queues.now c ≡ true) }
    ensures { result ≡ all (λ a. holding_in_range (listing_of queues.now c) a (holding_at queues.now.state.now.accounts a c)) queues.now.state.now.accountcount }
{
    let state = queues.state;
    let limit = state.contracts[c].limit;
    let bought = resting_lots(&queues.bids(c));
    let sold = resting_lots(&queues.offers(c));
    (0..state.accountcount).all(|a| {
        let opens = 2 * a;
        let closes = opens + 1;
        holding_in_range(
            state.accounts[a].holdings[c],
            limit,
            bought[opens],
            bought[closes],
            sold[opens],
            sold[closes],
        )
    })
}

// One walk for a definition of its own, as `queues::listings_in_range`.
pub fn holdings_in_range(state: State, buys: &[u32], sells: &[u32]) -> bool
    requires { QueuesReady state buys.now sells.now × (all (λ c. listing_in_range state.accountcount state.next state.nextstamp (listing state buys.now sells.now c)) state.contractcount ≡ true) }
    ensures { result ≡ all (λ a. all (λ c. holding_in_range (listing state buys.now sells.now c) a (holding_at state.accounts a c)) state.contractcount) state.accountcount }
{
    let queues = Queues {
        state: &state,
        buys,
        sells,
    };
    (0..state.contractcount).all(|c| held_in_range(&queues, c))
}

// "maker mark 1, its value 0 or 1"
pub fn marks_in_range(list: [Account; rules::MAX_ACCOUNTS], accounts: usize) -> bool
    requires { accounts ≤ max_accounts }
    ensures { result ≡ all_of mark_in_range (take accounts list) }
{
    list[..accounts].iter().all(|a| a.maker <= 1)
}

// "each balance is within 10^18 plus settlements so far times 3 x 10^15, either sign"
#[tactic(auto, unfolding(rules::specs::WellFormed::balance_in_range))]
fn balance_in_range(settlements: u32, a: Account) -> bool
    requires { settlements ≤ max_settlements }
    ensures { result ≡ balance_in_range settlements a }
{
    let most = rules::MAX_BALANCE + u64::from(settlements) * rules::MAX_DAY_PROFIT;
    a.balance.unsigned_abs() <= most
}

pub fn balances_in_range(
    list: [Account; rules::MAX_ACCOUNTS],
    accounts: usize,
    settlements: u32,
) -> bool
    requires { (accounts ≤ max_accounts) × (settlements ≤ max_settlements) }
    ensures { result ≡ all_of (balance_in_range settlements) (take accounts list) }
{
    list[..accounts]
        .iter()
        .all(|a| balance_in_range(settlements, *a))
}
