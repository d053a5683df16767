// An arriving order: its conditions, the side it rests on and the side it meets. For our own crates: what reads a queue asks for its
// room.
ghost use Rattle.std.specs.Prelude.{◌≡◌, ◌<◌, ◌≤◌};
ghost use Rattle.rules.specs.Bounds.{max_contracts};
ghost use Rattle.laws.specs.Choice.{pick};
ghost use Rattle.rules.specs.Answers as answer;
ghost use Rattle.rules.specs.Exchange as exchange;
ghost use Rattle.rules.specs.Matching.{method_of};
ghost use Rattle.rules.specs.Step.{limit_of};
ghost use Rattle.engine.specs.Sides.{side_area, side_count};

use book::orders::Queue;
use rules::{Contract, NewOrder, PairingMethod, PriceCondition, State, Taker, TimeCondition};

pub fn is_limit(condition: PriceCondition) -> bool
    ensures { result ≡ answer.is_limit condition }
{
    matches!(condition, PriceCondition::Limit(_))
}

pub fn is_day(time: TimeCondition) -> bool
    ensures { result ≡ answer.is_good_for_day time }
{
    time == TimeCondition::GoodForDay
}

pub fn is_kill(time: TimeCondition) -> bool
    ensures { result ≡ answer.is_fill_or_kill time }
{
    time == TimeCondition::FillOrKill
}

// A limit order rests at its limit; market and best never rest.
pub fn limit_of(condition: PriceCondition) -> u32
    ensures { result ≡ limit_of condition }
{
    match condition {
        PriceCondition::Limit(limit) => limit,
        PriceCondition::Market | PriceCondition::Best => 0,
    }
}

// 1 for a close, 0 for an open.
pub fn mark(close: bool) -> u32
    ensures { result ≡ answer.mark close }
{
    u32::from(close)
}

// One of two values, by the order's side.
pub fn by_side<T: Copy>(sell: bool, selling: T, buying: T) -> T
    ensures { result ≡ pick sell selling buying }
{
    if sell { selling } else { buying }
}

// A good-for-day limit order, as a change and a quote send it.
pub fn day_limit(
    account: u32,
    contract: u32,
    sell: bool,
    close: bool,
    lots: u32,
    price: u32,
) -> NewOrder
    ensures { result ≡ answer.day_limit_order account contract sell close lots price }
{
    NewOrder {
        account,
        contract,
        sell,
        close,
        lots,
        price,
        condition: PriceCondition::Limit(price),
        time: TimeCondition::GoodForDay,
    }
}

// The area of a side. Not by `by_side`: the promise here tells the words of the area.
pub fn side_area<'a>(sell: bool, buys: &'a [u32], sells: &'a [u32]) -> &'a [u32]
    ensures { result.now ≡ side_area sell buys.now sells.now }
{
    if sell { sells } else { buys }
}

// How many orders rest on a side of the contract at a place.
pub fn side_count(sell: bool, state: &State, c: usize) -> usize
    requires { c < max_contracts }
    ensures { result ≡ side_count sell state.now c }
{
    if sell {
        state.sellcounts[c]
    } else {
        state.buycounts[c]
    }
}

// The best price of a queue, 0 where it is empty.
fn best_price(queue: &Queue<'_>) -> u32
    ensures { result ≡ exchange.best_price queue.now }
{
    match queue.best() {
        Some(o) => o.price,
        None => 0,
    }
}

// The pairing method that the contract's terms name.
#[tactic(auto, unfolding(rules::specs::Matching::method_of))]
fn method_of(terms: Contract) -> PairingMethod
    ensures { result ≡ method_of terms }
{
    match terms.method {
        0 => PairingMethod::Middle,
        1 => PairingMethod::Average(terms.tick),
        _ => PairingMethod::FirstIn,
    }
}

// The order with its number, the quote mark and the time stamp it gets, its contract's pairing method and the best opposite price
// standing.
pub fn taker_of(
    number: u32,
    quote: u32,
    stamp: u32,
    terms: Contract,
    queue: &Queue<'_>,
    o: NewOrder,
) -> Taker
    requires { (1 ≤ o.account) × (1 ≤ o.contract) }
    ensures { result ≡ answer.taker_for number quote stamp terms queue.now o }
{
    Taker {
        account: laws::place_word(o.account),
        contract: laws::place_word(o.contract),
        sell: o.sell,
        close: mark(o.close),
        number,
        stamp,
        quote,
        condition: o.condition,
        method: method_of(terms),
        best: best_price(queue),
    }
}
