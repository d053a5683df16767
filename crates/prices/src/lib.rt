// Counterparts and trade prices (document 01, "Matching"; document 02, ticket 6).
#![tactic(auto)]

ghost use Rattle.std.specs.Prelude.{◌≡◌, ◌≤◌};
ghost use Rattle.rules.specs.Matching as matching;
ghost use Rattle.prices.specs.Methods.{HasTick};

use rules::{Order, PairingMethod, PriceCondition, Taker, Trade};

// One test for each ordering of the three prices, lowest first; of equal prices any order gives the same middle. The comparisons stay
// plain (document 02, ticket 5).
pub fn middle(a: u32, b: u32, c: u32) -> u32
    ensures { result ≡ matching.middle a b c }
{
    if a <= b && b <= c {
        return b;
    }
    if a <= c && c <= b {
        return c;
    }
    if b <= a && a <= c {
        return a;
    }
    if b <= c && c <= a {
        return c;
    }
    if c <= a && a <= b {
        return a;
    }
    b // c, b, a
}

// A match on the price condition picks the counterparts.
#[tactic(auto, unfolding(rules::specs::Matching::meets))]
pub fn meets(condition: PriceCondition, sell: bool, best: u32, price: u32) -> bool
    ensures { result ≡ matching.meets condition sell best price }
{
    match condition {
        PriceCondition::Limit(limit) => if sell { limit <= price } else { price <= limit },
        PriceCondition::Market => true,
        PriceCondition::Best => price == best,
    }
}

pub fn is_counterpart(t: Taker, o: Order) -> bool
    ensures { result ≡ matching.counterpart t o }
{
    meets(t.condition, t.sell, t.best, o.price)
}

// "half the sum of both prices, rounded down to a tick". Requires a tick.
#[tactic(auto, unfolding(rules::specs::Matching::average))]
fn average(tick: u32, a: u32, b: u32) -> u32
    requires { 1 ≤ tick }
    ensures { result ≡ matching.average tick a b }
{
    let step = u64::from(tick);
    let half = (u64::from(a) + u64::from(b)) / 2;
    (half / step * step) as u32
}

// The price of a limit order's trade with a resting order, by the contract's pairing method. Requires a tick where the method
// rounds to one.
#[tactic(auto, unfolding(rules::specs::Matching::paired_price))]
fn paired_price(method: PairingMethod, limit: u32, price: u32, last: u32) -> u32
    requires { HasTick method }
    ensures { result ≡ matching.paired_price method limit price last }
{
    match method {
        PairingMethod::Middle => middle(limit, price, last),
        PairingMethod::Average(tick) => average(tick, limit, price),
        PairingMethod::FirstIn => price,
    }
}

// Market and best trade at the resting price, a limit order by the contract's method. For our own crates: requires a tick where
// the method rounds to one.
#[tactic(auto, unfolding(rules::specs::Matching::trade_price))]
pub fn trade_price(method: PairingMethod, condition: PriceCondition, price: u32, last: u32) -> u32
    requires { HasTick method }
    ensures { result ≡ matching.trade_price method condition price last }
{
    match condition {
        PriceCondition::Limit(limit) => paired_price(method, limit, price, last),
        PriceCondition::Market | PriceCondition::Best => price,
    }
}

// The trade of an arriving order that has `left` lots left with a resting order. For our own crates: requires a tick where the
// method rounds to one.
#[tactic(auto, unfolding(rules::specs::Matching::trade_with))]
pub fn trade_with(t: Taker, o: Order, left: u32, last: u32) -> Trade
    requires { HasTick t.method }
    ensures { result ≡ matching.trade_with t o left last }
{
    let price = trade_price(t.method, t.condition, o.price, last);
    let lots = left.min(o.lots);
    if t.sell {
        Trade {
            contract: t.contract,
            price,
            lots,
            buyorder: o.number,
            sellorder: t.number,
            buyer: o.account,
            seller: t.account,
            buyclose: o.close,
            sellclose: t.close,
        }
    } else {
        Trade {
            contract: t.contract,
            price,
            lots,
            buyorder: t.number,
            sellorder: o.number,
            buyer: t.account,
            seller: o.account,
            buyclose: t.close,
            sellclose: o.close,
        }
    }
}
