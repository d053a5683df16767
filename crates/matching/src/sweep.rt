// The sweep: an arriving order trades with the opposite queue. For our own crates: it asks for the room of the queue and of
// the trades that it makes, and for holdings that are not near their width.
ghost use Rattle.rules.specs.Matching as matching;
ghost use Rattle.rules.specs.Memory.{queue_in};
ghost use Rattle.matching.specs.Sweep.{FilledIs, SweepReady};

use book::{queue, trades};
use rules::{Account, Taker};

// The accounts; lots traded, the last price, resting orders filled, trades of the day. The array stands first, so that nothing
// pads it and fewer copies of it are made.
#[derive(Clone, Copy)]
pub struct Filled {
    pub accounts: [Account; rules::MAX_ACCOUNTS],
    pub traded: u32,
    pub last: u32,
    pub filled: usize,
    pub made: usize,
}

// Trades with the queue's orders in turn. The filled orders still stand in front afterwards: `drop_front` takes them out.
pub fn sweep(
    opposite: &mut [u32],
    count: usize,
    area: &mut [u32],
    before: usize,
    t: Taker,
    lots: u32,
    last: u32,
    accounts: [Account; rules::MAX_ACCOUNTS],
) -> Filled
    requires { SweepReady t lots last accounts opposite.old count area.old before }
    ensures { FilledIs (matching.sweep t lots last (queue_in opposite.old t.contract count)) opposite.old t.contract count area.old before last accounts result opposite.new area.new }
{
    let c = t.contract as usize;
    let mut held = accounts;
    let mut price = last;
    let mut made = before;
    let mut filled: usize = 0;
    let mut done: u32 = 0;
    // document 01 has the sweep as a labelled loop, which yields the lots traded at its break
    let traded = 'sweep: loop {
        let left = lots - done;
        if filled == count || left == 0 {
            break 'sweep done;
        }
        let o = queue::order_at(&opposite[..], c, filled);
        if !prices::is_counterpart(t, o) {
            break 'sweep done;
        }
        let trade = prices::trade_with(t, o, left, price);
        let size = trade.lots;
        let buyer = trade.buyer as usize;
        held[buyer] = holdings::book_leg(held[buyer], c, false, trade.buyclose, size);
        let seller = trade.seller as usize;
        held[seller] = holdings::book_leg(held[seller], c, true, trade.sellclose, size);
        trades::put_trade(area, made, trade);
        made += 1;
        price = trade.price;
        done += size;
        if size < o.lots {
            queue::set_lots(opposite, c, count, filled, o.lots - size);
            break 'sweep done;
        }
        filled += 1;
    };
    Filled {
        traded,
        filled,
        made,
        last: price,
        accounts: held,
    }
}
