// The settlement price of one contract (document 01, "Margin and settlement"). For our own crates: each function asks for the
// room of what it reads and for trades and terms in the ranges of a well-formed state.
ghost use Rattle.std.specs.Prelude.{◌≡◌, [], ◌∷◌, ◌*◌, ◌/◌, ◌<◌, ◌≤◌};
ghost use Rattle.rules.specs.Bounds.{max_price};
ghost use Rattle.rules.specs.Settlement.{quoted_price, trades_in};
ghost use Rattle.dayprofit.specs.Day.{Sized, SizedDay, TurnoverIs, Priceable, PriceIs};

use book::orders::Queue;
use book::trades::Trades;
use rules::{Contract, Trade};

// What trades of a contract came to, price x lots, and their lots.
#[derive(Clone, Copy)]
pub struct Turnover {
    pub value: u64,
    pub lots: u64,
}

// A trade's part: nothing where it is another contract's.
fn part(t: Trade, contract: u32) -> Turnover
    requires { Sized t }
    ensures { TurnoverIs (trades_in contract (t ∷ [])) result }
{
    if t.contract != contract {
        return Turnover { value: 0, lots: 0 };
    }
    let lots = u64::from(t.lots);
    Turnover {
        value: u64::from(t.price) * lots,
        lots,
    }
}

fn traded(day: &Trades<'_>, contract: u32) -> Turnover
    requires { SizedDay day.now }
    ensures { TurnoverIs (trades_in contract day.now) result }
{
    let mut value: u64 = 0;
    let mut lots: u64 = 0;
    for i in 0..day.len() {
        let p = part(day.trade(i), contract);
        value += p.value;
        lots += p.lots;
    }
    Turnover { value, lots }
}

// "weighted by lots, rounded down, then down to a tick"
fn weighted(value: u64, lots: u64, tick: u32) -> u32
    requires { (0 < lots) × (0 < tick) × (value ≤ max_price * lots) }
    ensures { result ≡ value / lots / tick * tick }
{
    let average = value / lots;
    let step = u64::from(tick);
    (average / step * step) as u32
}

// "with both sides quoted, the middle of best buy, best sell and reference; otherwise the reference"
fn quoted(reference: u32, buys: &Queue<'_>, sells: &Queue<'_>) -> u32
    ensures { result ≡ quoted_price reference buys.now sells.now }
{
    let Some(bid) = buys.best() else {
        return reference;
    };
    let Some(offer) = sells.best() else {
        return reference;
    };
    prices::middle(bid.price, offer.price, reference)
}

// "the day's trades weighted by lots"; without a trade the quotes, or else the reference.
// The trades come as an area and a count, and not as a `Trades`: docs/RULES.md names this call.
pub fn settlement_price<'a>(
    contract: Contract,
    buys: &'a [u32],
    buycount: usize,
    sells: &'a [u32],
    sellcount: usize,
    area: &'a [u32],
    count: usize,
    c: usize,
) -> u32
    requires { Priceable contract buys.now buycount sells.now sellcount area.now count c }
    ensures { PriceIs contract buys.now buycount sells.now sellcount area.now count c result }
{
    let day = traded(&Trades::new(area, count), c as u32);
    if day.lots == 0 {
        let bids = Queue::new(buys, c, buycount);
        let offers = Queue::new(sells, c, sellcount);
        return quoted(contract.reference, &bids, &offers);
    }
    weighted(day.value, day.lots, contract.tick)
}
