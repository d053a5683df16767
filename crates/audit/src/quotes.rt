// Quote marks: "marked in the book (at most one for each contract, account and side, on a maker's open only; well-formed rule too)". Asks for
// orders of accounts in use whose mark is 0 or 1.
ghost use Rattle.std.specs.Prelude.{true, ◌≡◌, ℕ, ◌≤◌, ◌<◌, length, get_or, take};
ghost use Rattle.laws.specs.Choice.{all};
ghost use Rattle.rules.specs.Bounds.{max_accounts};
ghost use Rattle.rules.specs.Exchange.{no_order};
ghost use Rattle.rules.specs.WellFormed.{listing_quoted, queue_quoted};
ghost use Rattle.audit.specs.Lent.{in_range, listing_of};
ghost use Rattle.audit.specs.Parts.{Markable, QueuesReady, listing, listing_in_range};

use crate::lent::Queues;
use book::orders::Queue;
use rules::State;

// One pass that stops at marked orders only; `seen` tells the accounts that have one. The state by value: of a lent one the prover is
// not told how many accounts its array has.
fn queue_quoted(state: State, queue: &Queue<'_>) -> bool
    requires { (state.accountcount ≤ max_accounts) × ((i : ℕ) → i < length queue.now → Markable state.accountcount (get_or queue.now i no_order)) }
    ensures { result ≡ queue_quoted (take state.accountcount state.accounts) queue.now }
{
    let mut seen = [false; rules::MAX_ACCOUNTS];
    for i in 0..queue.len() {
        let o = queue.order(i);
        if o.quote == 0 {
            continue;
        }
        let a = o.account as usize;
        if state.accounts[a].maker != 1 || o.close != 0 || seen[a] {
            return false;
        }
        seen[a] = true;
    }
    true
}

// The contract at a place with its queues.
fn listing_quoted(queues: &Queues<'_, '_>, c: usize) -> bool
    requires { (c < queues.now.state.now.contractcount) × (in_range queues.now c ≡ true) }
    ensures { result ≡ listing_quoted (take queues.now.state.now.accountcount queues.now.state.now.accounts) (listing_of queues.now c) }
{
    queue_quoted(*queues.state, &queues.bids(c)) && queue_quoted(*queues.state, &queues.offers(c))
}

// One walk for a definition of its own, as `queues::listings_in_range`.
pub fn listings_quoted(state: State, buys: &[u32], sells: &[u32]) -> bool
    requires { QueuesReady state buys.now sells.now × (all (λ c. listing_in_range state.accountcount state.next state.nextstamp (listing state buys.now sells.now c)) state.contractcount ≡ true) }
    ensures { result ≡ all (λ c. listing_quoted (take state.accountcount state.accounts) (listing state buys.now sells.now c)) state.contractcount }
{
    let queues = Queues {
        state: &state,
        buys,
        sells,
    };
    (0..state.contractcount).all(|c| listing_quoted(&queues, c))
}
