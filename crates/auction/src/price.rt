// The price of an auction (document 02, ticket 4). For our own crates: a sum of lots fits because no more orders than may rest add
// to it.
ghost use Rattle.std.specs.Prelude.{◌∷◌, [], ◌≡◌, ◌≤◌, length};
ghost use Rattle.laws.specs.Choice.{pick};
ghost use Rattle.rules.specs.Auction as rule;
ghost use Rattle.rules.specs.Bounds.{max_resting};
ghost use Rattle.auction.specs.Price.{preferred, level_at, FewOrders, best_level, first_price, chosen_level};

use book::orders::Queue;
use rules::Order;

// A price, the lots that trade at it, and how many more there are on one side than on the other.
#[derive(Clone, Copy)]
pub struct Level {
    pub price: u32,
    pub volume: u64,
    pub surplus: u64,
}

// A buy trades at or below its price, a sell at or above it.
pub fn reaches(sell: bool, price: u32, o: Order) -> bool
    ensures { result ≡ rule.reaches sell price o }
{
    if sell {
        o.price <= price
    } else {
        price <= o.price
    }
}

// What one order adds to the lots that reach a price.
#[tactic(auto, using(crate::proofs::Levels::reaches_not, crate::proofs::Levels::reaches_with))]
fn lots_of(sell: bool, price: u32, o: Order) -> u64
    ensures { result ≡ rule.lots_reaching sell price (o ∷ []) }
{
    if reaches(sell, price, o) {
        u64::from(o.lots)
    } else {
        0
    }
}

// The lots of a side's orders that reach a price.
pub fn lots_reaching(queue: &Queue<'_>, sell: bool, price: u32) -> u64
    requires { length queue.now ≤ max_resting }
    ensures { result ≡ rule.lots_reaching sell price queue.now }
{
    let mut lots: u64 = 0;
    for i in 0..queue.len() {
        lots += lots_of(sell, price, queue.order(i));
    }
    lots
}

// Volume and surplus at a price.
#[tactic(auto, unfolding(rules::specs::Auction::volume, rules::specs::Auction::surplus))]
pub fn level_at(buys: &Queue<'_>, sells: &Queue<'_>, price: u32) -> Level
    requires { FewOrders buys.now sells.now }
    ensures { result ≡ level_at buys.now sells.now price }
{
    let demand = lots_reaching(buys, false, price);
    let supply = lots_reaching(sells, true, price);
    Level {
        price,
        volume: demand.min(supply),
        surplus: demand.abs_diff(supply),
    }
}

// "largest volume .., then smallest surplus whichever its sign, then nearest to the last price, then the higher".
#[tactic(auto, unfolding(crate::specs::Price::preferred))]
pub fn is_better(last: u32, level: Level, other: Level) -> bool
    ensures { result ≡ preferred last level other }
{
    if level.volume != other.volume {
        return other.volume < level.volume;
    }
    if level.surplus != other.surplus {
        return level.surplus < other.surplus;
    }
    let distance = level.price.abs_diff(last);
    let farther = other.price.abs_diff(last);
    if distance != farther {
        return distance < farther;
    }
    other.price < level.price
}

// The first of two, unless the second is better.
fn better_of(last: u32, best: Level, level: Level) -> Level
    ensures { result ≡ pick (preferred last level best) level best }
{
    if is_better(last, level, best) {
        level
    } else {
        best
    }
}

// The best of a price and those that rest in one of the two queues.
fn best_among<'a>(
    best: Level,
    queue: &Queue<'a>,
    buys: &Queue<'a>,
    sells: &Queue<'a>,
    last: u32,
) -> Level
    requires { FewOrders buys.now sells.now × (best ≡ level_at buys.now sells.now best.price) }
    ensures { result ≡ best_level last buys.now sells.now best.price queue.now }
{
    let mut chosen = best;
    for i in 0..queue.len() {
        let level = level_at(buys, sells, queue.order(i).price);
        chosen = better_of(last, chosen, level);
    }
    chosen
}

// A price to start from: the best buy, the best sell where no buy rests, 0 where no order does.
fn first_price(buys: &Queue<'_>, sells: &Queue<'_>) -> u32
    ensures { result ≡ first_price buys.now sells.now }
{
    match buys.best().or(sells.best()) {
        Some(o) => o.price,
        None => 0,
    }
}

// The resting price to which none is preferred, with its volume and surplus.
pub fn chosen<'a>(buys: &Queue<'a>, sells: &Queue<'a>, last: u32) -> Level
    requires { FewOrders buys.now sells.now }
    ensures { result ≡ chosen_level last buys.now sells.now }
{
    let first = level_at(buys, sells, first_price(buys, sells));
    let buy = best_among(first, buys, buys, sells, last);
    best_among(buy, sells, buys, sells, last)
}
