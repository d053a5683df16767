// Profit by Article 32 of document 002, of one account in one contract, before the multiplier: from what its legs came to. Closes take
// start-of-day lots first, then today's in trade order. For our own crates: each function asks for sums in the reach of a well-formed
// state's trades.
ghost use Rattle.std.specs.Prelude.{◌≡◌, ◌<◌, ◌≤◌, pos, ◌-ℤ◌};
ghost use Rattle.rules.specs.Bounds.{max_contracts, max_accounts, max_price};
ghost use Rattle.dayprofit.specs.Slots.{Rooms, sums_at, DaySmall, DayFrom};
ghost use Rattle.dayprofit.specs.Sides.{SumsSmall, side_from, SideSmall, ProfitFrom, profit_most};

use crate::sums;
use rules::Holding;

// What the legs of one side come to: lots closed, and what they brought or cost; lots opened, and what for; and of those, what the
// closed ones were opened for.
#[derive(Clone, Copy)]
pub struct Sums {
    pub closed: u32,
    pub closes: u64,
    pub opened: u32,
    pub opens: u64,
    pub used: u64,
}

// A side's day: what its closes came to, what the closed lots were opened for, the lots open, and what they were opened for.
#[derive(Clone, Copy)]
pub struct Side {
    pub closes: u64,
    pub closed: u64,
    pub lots: u32,
    pub opened: u64,
}

#[derive(Clone, Copy)]
pub struct Profit {
    pub closing: i64,
    pub holding: i64,
}

// Sells close long lots and open short ones, buys the other way round.
// Arrays side by side: the contracts name them one by one, and there is no heap.
fn sums_at<'a>(
    closed: &'a [u32],
    closes: &'a [u64],
    opened: &'a [u32],
    opens: &'a [u64],
    used: &'a [u64],
    a: usize,
    c: usize,
    short: bool,
) -> Sums
    requires { (a < max_accounts) × (c < max_contracts) × Rooms closed.now closes.now opened.now opens.now used.now }
    ensures { result ≡ sums_at closed.now closes.now opened.now opens.now used.now a c short }
{
    let closing = sums::slot(a, c, !short);
    let opening = sums::slot(a, c, short);
    Sums {
        closed: closed[closing],
        closes: closes[closing],
        opened: opened[opening],
        opens: opens[opening],
        used: used[opening],
    }
}

// One side of an account's day: start-of-day lots at the reference, today's at their opening prices.
fn side_of(s: Sums, reference: u32, start: u32) -> Side
    requires { SumsSmall reference start s }
    ensures { result ≡ side_from reference start s }
{
    let price = u64::from(reference);
    let first = s.closed.min(start);
    let cost = price * u64::from(first) + s.used;
    Side {
        closes: s.closes,
        closed: cost,
        lots: start + s.opened - s.closed,
        opened: price * u64::from(start) + s.opens - cost,
    }
}

// One sum less another.
fn difference(gains: u64, losses: u64) -> i64
    requires { (gains ≤ profit_most) × (losses ≤ profit_most) }
    ensures { result ≡ pos gains -ℤ pos losses }
{
    gains as i64 - losses as i64
}

// "closing and holding parts, start-of-day lots against the reference, today's against their opening price": what the closes of
// long lots brought less what those lots were opened for, and the other way round for short ones; the open lots at `price`.
fn profit_of(long: Side, short: Side, price: u32) -> Profit
    requires { SideSmall long × SideSmall short × (price ≤ max_price) }
    ensures { ProfitFrom long short price result }
{
    let mark = u64::from(price);
    let longvalue = mark * u64::from(long.lots);
    let shortvalue = mark * u64::from(short.lots);
    Profit {
        closing: difference(long.closes + short.closed, long.closed + short.closes),
        holding: difference(longvalue + short.opened, long.opened + shortvalue),
    }
}

// The account's profit in the contract, from the sums in its slots.
// The sums come in five arrays, and not in one of records: the contract names them one by one.
pub fn profit_at<'a>(
    closed: &'a [u32],
    closes: &'a [u64],
    opened: &'a [u32],
    opens: &'a [u64],
    used: &'a [u64],
    a: usize,
    c: usize,
    reference: u32,
    h: Holding,
    price: u32,
) -> Profit
    requires { DaySmall closed.now closes.now opened.now opens.now used.now a c reference h price }
    ensures { DayFrom closed.now closes.now opened.now opens.now used.now a c reference h price result }
{
    let long = sums_at(closed, closes, opened, opens, used, a, c, false);
    let short = sums_at(closed, closes, opened, opens, used, a, c, true);
    profit_of(
        side_of(long, reference, h.startlong),
        side_of(short, reference, h.startshort),
        price,
    )
}
