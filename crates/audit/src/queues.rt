// A contract with its two queues. Each function that tests prices asks for a contract whose terms are within their ranges.
ghost use Rattle.std.specs.Prelude.{true, ◌||◌, ◌≡◌, ◌<◌};
ghost use Rattle.laws.specs.Choice.{all, all_of};
ghost use Rattle.rules.specs.Bounds.{in_auction, terms_in_range};
ghost use Rattle.rules.specs.WellFormed.{contract_in_range, ahead, sorted, uncrossed, order_in_range};
ghost use Rattle.audit.specs.Parts.{QueuesReady, listing, listing_in_range};

use crate::lent::Queues;
use book::orders::Queue;
use book::queue;
use rules::{Contract, Order, State};

// "references and last prices are tick multiples"
#[tactic(auto, unfolding(rules::specs::WellFormed::contract_in_range))]
fn contract_in_range(c: Contract) -> bool
    ensures { result ≡ contract_in_range c }
{
    terms::terms_in_range(c) && c.phase <= rules::MAX_PHASE && terms::tick_multiple(c.tick, c.last)
}

// "best price first", then lower time stamp
#[tactic(auto, unfolding(rules::specs::WellFormed::ahead))]
fn is_ahead(sell: bool, o: Order, p: Order) -> bool
    ensures { result ≡ ahead sell o p }
{
    queue::worse(sell, p.price, o.price) || (o.price == p.price && o.stamp < p.stamp)
}

// Each order is ahead of the next.
fn is_sorted(queue: &Queue<'_>, sell: bool) -> bool
    ensures { result ≡ sorted sell queue.now }
{
    (1..queue.len()).all(|i| is_ahead(sell, queue.order(i - 1), queue.order(i)))
}

// "the two are uncrossed (best buy below best sell)"
#[tactic(auto, unfolding(rules::specs::WellFormed::uncrossed))]
fn is_uncrossed(buys: &Queue<'_>, sells: &Queue<'_>) -> bool
    ensures { result ≡ uncrossed buys.now sells.now }
{
    match (buys.best(), sells.best()) {
        (Some(bid), Some(offer)) => bid.price < offer.price,
        _ => true,
    }
}

// In auction the book may be crossed, and in no other state.
fn is_apart(contract: Contract, buys: &Queue<'_>, sells: &Queue<'_>) -> bool
    ensures { result ≡ (in_auction contract || uncrossed buys.now sells.now) }
{
    contract.phase == rules::AUCTION || is_uncrossed(buys, sells)
}

// "1 to 1,000 lots, an existing account, a price allowed today, and a number below the next", and a time stamp below the next; a quote
// mark of 0 or 1.
#[tactic(auto, unfolding(rules::specs::WellFormed::order_in_range))]
fn order_in_range(accounts: usize, next: u32, nextstamp: u32, c: Contract, o: Order) -> bool
    requires { terms_in_range c ≡ true }
    ensures { result ≡ order_in_range accounts next nextstamp c o }
{
    terms::within(1, rules::MAX_LOTS, o.lots)
        && (o.account as usize) < accounts
        && terms::allowed_today(c, o.price)
        && 1 <= o.number
        && o.number < next
        && o.close <= 1
        && 1 <= o.stamp
        && o.stamp < nextstamp
        && o.quote <= 1
}

fn orders_in_range(
    queue: &Queue<'_>,
    accounts: usize,
    next: u32,
    nextstamp: u32,
    contract: Contract,
) -> bool
    requires { terms_in_range contract ≡ true }
    ensures { result ≡ all_of (order_in_range accounts next nextstamp contract) queue.now }
{
    (0..queue.len()).all(|i| order_in_range(accounts, next, nextstamp, contract, queue.order(i)))
}

// The contract at a place with its queues.
#[tactic(auto, using(invariants::proofs::MemoryRoom::counts_ok))]
fn listing_in_range(state: State, c: usize, buys: &[u32], sells: &[u32]) -> bool
    requires { QueuesReady state buys.now sells.now × (c < state.contractcount) }
    ensures { result ≡ listing_in_range state.accountcount state.next state.nextstamp (listing state buys.now sells.now c) }
{
    let contract = state.contracts[c];
    let queues = Queues {
        state: &state,
        buys,
        sells,
    };
    let bids = queues.bids(c);
    let offers = queues.offers(c);
    let accounts = state.accountcount;
    let next = state.next;
    let nextstamp = state.nextstamp;
    contract_in_range(contract)
        && is_sorted(&bids, false)
        && is_sorted(&offers, true)
        && is_apart(contract, &bids, &offers)
        && orders_in_range(&bids, accounts, next, nextstamp, contract)
        && orders_in_range(&offers, accounts, next, nextstamp, contract)
}

// Not one function with `listings_quoted` and `holdings_in_range`: each is one walk for a definition of its own.
pub fn listings_in_range(state: State, buys: &[u32], sells: &[u32]) -> bool
    requires { QueuesReady state buys.now sells.now }
    ensures { result ≡ all (λ c. listing_in_range state.accountcount state.next state.nextstamp (listing state buys.now sells.now c)) state.contractcount }
{
    (0..state.contractcount).all(|c| listing_in_range(state, c, buys, sells))
}
