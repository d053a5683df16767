// The tests of a contract's terms, which a day file and a well-formed state share.
#![tactic(auto)]

ghost use Rattle.std.specs.Prelude.{true, ◌≡◌, ◌≤◌};
ghost use Rattle.rules.specs.Bounds.{within as Bounds·within, on_tick, tick_multiple, terms_in_range, day_low, day_high, allowed_today};

use rules::Contract;

pub fn within(low: u32, high: u32, n: u32) -> bool
    ensures { result ≡ Bounds·within low high n }
{
    low <= n && n <= high
}

// For the crates of this repository: requires a tick, which `terms_in_range` tests before it divides.
#[tactic(auto, unfolding(rules::specs::Bounds::on_tick))]
pub fn on_tick(tick: u32, n: u32) -> bool
    requires { 1 ≤ tick }
    ensures { result ≡ on_tick tick n }
{
    n % tick == 0
}

// "each a multiple of the tick, from one tick to 1,000,000". For the crates of this repository: requires a tick.
#[tactic(auto, unfolding(rules::specs::Bounds::tick_multiple))]
pub fn tick_multiple(tick: u32, n: u32) -> bool
    requires { 1 ≤ tick }
    ensures { result ≡ tick_multiple tick n }
{
    on_tick(tick, n) && within(tick, rules::MAX_PRICE, n)
}

#[tactic(auto, unfolding(rules::specs::Bounds::terms_in_range))]
pub fn terms_in_range(c: Contract) -> bool
    ensures { result ≡ terms_in_range c }
{
    within(1, rules::MAX_MULTIPLIER, c.multiplier)
        && within(1, rules::MAX_TICK, c.tick)
        && tick_multiple(c.tick, c.reference)
        && tick_multiple(c.tick, c.band)
        && within(1, rules::MAX_LIMIT, c.limit)
        && within(1, rules::MAX_RATE, u32::from(c.rate))
        && c.method <= rules::MAX_METHOD
}

// "the larger of one tick and reference minus band"
#[tactic(auto, unfolding(rules::specs::Bounds::day_low))]
fn day_low(c: Contract) -> u32
    ensures { result ≡ day_low c }
{
    c.tick.max(c.reference.saturating_sub(c.band))
}

// "the smaller of reference plus band and the largest tick multiple within 1,000,000". Requires terms within their ranges.
#[tactic(auto, unfolding(rules::specs::Bounds::day_high))]
fn day_high(c: Contract) -> u32
    requires { terms_in_range c ≡ true }
    ensures { result ≡ day_high c }
{
    (c.reference + c.band).min(rules::MAX_PRICE / c.tick * c.tick)
}

// "Both ends may be traded". For the crates of this repository: requires terms within their ranges.
#[tactic(auto, unfolding(rules::specs::Bounds::allowed_today))]
pub fn allowed_today(c: Contract, price: u32) -> bool
    requires { terms_in_range c ≡ true }
    ensures { result ≡ allowed_today c price }
{
    on_tick(c.tick, price) && within(day_low(c), day_high(c), price)
}
