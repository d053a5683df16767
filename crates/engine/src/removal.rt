// Cancel and pull. For our own crates: each asks for a well-formed state.
ghost use Rattle.std.specs.Prelude.{true, ◌≡◌, ◌+◌, ◌<◌, ◌≤◌, length, set};
ghost use Rattle.rules.specs.Bounds.{max_contracts, max_accounts};
ghost use Rattle.rules.specs.Answers.{pull_refusals, removal_refused};
ghost use Rattle.rules.specs.Codes.{code_in};
ghost use Rattle.rules.specs.Memory.{queue_in, memory, WellFormedState, first_word};
ghost use Rattle.rules.specs.WellFormed.{numbers, used_once};
ghost use Rattle.rules.specs.declared.Command.TheVariants.{Cancel, Pull};
ghost use Rattle.engine.specs.Decision.{DecisionIs, counted_as, decided};
ghost use Rattle.engine.specs.Outcome.{CodeIn, with_counts_in};
ghost use Rattle.engine.specs.Removal.{CancelledIs};
ghost use Rattle.engine.specs.declared.updates.Update.TheVariants.{Listing};

use crate::updates::{Decision, Listed, Update};
use crate::{answers, updates};
use book::orders::Queue;
use rules::codes::Code;
use rules::{AUCTION, CONTINUOUS, Contract, NO_TRADING, State};

// "Cancel and pull need continuous, or no trading with the operator bit." In auction they work too.
#[tactic(auto, unfolding(rules::specs::Answers::removal_refused))]
fn is_refused(terms: Contract, operator: bool) -> bool
    ensures { result ≡ removal_refused terms operator }
{
    match terms.phase {
        CONTINUOUS | AUCTION => false,
        NO_TRADING => !operator,
        _ => true,
    }
}

// The tests that cancel and pull share: 2, 3 or 4. Requires at most 4 contracts and 32 accounts.
fn refusal(state: &State, account: u32, contract: u32, operator: bool) -> Result<(), Code>
    requires { (state.now.contractcount ≤ max_contracts) × (state.now.accountcount ≤ max_accounts) }
    ensures { CodeIn state.now (λ x. pull_refusals x account contract operator) (code_in result) }
{
    answers::absent_code(state.accountcount, state.contractcount, account, contract)?;
    let place = laws::place_of(contract);
    if is_refused(state.contracts[place], operator) {
        return Err(Code::PhaseForbids);
    }
    Ok(())
}

// The state with other counts of resting orders at one contract's place. Another crate takes orders out too.
pub fn with_counts(state: &State, c: usize, bought: usize, sold: usize) -> State
    requires { c < max_contracts }
    ensures { result ≡ with_counts_in state.now (set state.now.buycounts c bought) (set state.now.sellcounts c sold) }
{
    let mut next = *state;
    next.buycounts[c] = bought;
    next.sellcounts[c] = sold;
    next
}

// An order taken out of a queue: the orders that stay, and its lots.
#[derive(Clone, Copy)]
struct Removed {
    count: usize,
    lots: u32,
}

// Takes the account's order with a number out of one queue, whose numbers are used once; `None` where no order there has the number.
fn cancel_in(
    area: &mut [u32],
    c: usize,
    count: usize,
    account: u32,
    number: u32,
) -> Result<Option<Removed>, Code>
    requires { (first_word c count ≤ length area.old) × (used_once (numbers (queue_in area.old c count)) ≡ true) }
    ensures { CancelledIs account number area.old c count result area.new }
{
    let Some(found) = Queue::new(&area[..], c, count).find(number) else {
        return Ok(None);
    };
    if found.order.account != account {
        return Err(Code::AnothersOrder);
    }
    book::queue::remove(area, c, count, found.place);
    Ok(Some(Removed {
        count: count - 1,
        lots: found.order.lots,
    }))
}

// The contract with other counts of resting orders.
fn with_orders(listed: Listed, bought: usize, sold: usize) -> Update
    ensures { result ≡ Listing (counted_as listed bought sold) }
{
    Update::Listing(Listed {
        bought,
        sold,
        ..listed
    })
}

pub fn cancel(
    state: &State,
    buys: &mut [u32],
    sells: &mut [u32],
    trades: &[u32],
    account: u32,
    contract: u32,
    operator: bool,
    number: u32,
) -> Result<Decision, Code>
    requires { WellFormedState state.now buys.old sells.old trades.now }
    ensures { DecisionIs (memory state.now buys.old sells.old trades.now) (Cancel account contract operator number) (decided result) buys.new sells.new trades.now }
{
    refusal(state, account, contract, operator)?;
    let c = laws::place_of(contract);
    let a = laws::place_word(account);
    let listed = updates::listed_at(state, c);
    if let Some(bid) = cancel_in(buys, c, listed.bought, a, number)? {
        let left = with_orders(listed, bid.count, listed.sold);
        return Ok(updates::accepted(left, number, bid.lots));
    }
    let Some(offer) = cancel_in(sells, c, listed.sold, a, number)? else {
        return Err(Code::NoSuchOrder);
    };
    let left = with_orders(listed, listed.bought, offer.count);
    Ok(updates::accepted(left, number, offer.lots))
}

pub fn pull(
    state: &State,
    buys: &mut [u32],
    sells: &mut [u32],
    trades: &[u32],
    account: u32,
    contract: u32,
    operator: bool,
) -> Result<Decision, Code>
    requires { WellFormedState state.now buys.old sells.old trades.now }
    ensures { DecisionIs (memory state.now buys.old sells.old trades.now) (Pull account contract operator) (decided result) buys.new sells.new trades.now }
{
    refusal(state, account, contract, operator)?;
    let c = laws::place_of(contract);
    let a = laws::place_word(account);
    let listed = updates::listed_at(state, c);
    let bid = book::removal::pull(buys, c, listed.bought, a, false);
    let offer = book::removal::pull(sells, c, listed.sold, a, false);
    let lots = (bid.lots + offer.lots) as u32;
    let left = with_orders(listed, bid.count, offer.count);
    Ok(updates::accepted(left, 0, lots))
}
