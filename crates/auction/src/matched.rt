// The match of an auction (document 02, ticket 4). For our own crates: it asks for the room of the queues and of the trades that it
// makes, for orders within their ranges and for holdings that are not near their width.
ghost use Rattle.std.specs.Prelude.{true, false, ◌&&◌, ◌≡◌, ◌<◌, length, ℕ};
ghost use Rattle.rules.specs.Auction as rule;
ghost use Rattle.rules.specs.Memory.{queue_in};
ghost use Rattle.auction.specs.Price.{FewOrders};
ghost use Rattle.auction.specs.Matched.{FillsIs, MatchReady, MatchedIs, level_match};

use crate::price;
use crate::price::Level;
use book::orders::Queue;
use book::{queue, trades};
use rules::{Account, Order, Trade};

// Whether two orders trade at a price.
fn both_reach(price: u32, b: Order, s: Order) -> bool
    ensures { result ≡ (rule.reaches false price b && rule.reaches true price s) }
{
    price::reaches(false, price, b) && price::reaches(true, price, s)
}

// The trade of a buy and a sell: the smaller remainder, at the one price.
#[tactic(auto, unfolding(rules::specs::Auction::trade_at))]
fn trade_at(contract: u32, price: u32, b: Order, s: Order) -> Trade
    ensures { result ≡ rule.trade_at contract price (rule.paired b s) b s }
{
    Trade {
        contract,
        price,
        lots: b.lots.min(s.lots),
        buyorder: b.number,
        sellorder: s.number,
        buyer: b.account,
        seller: s.account,
        buyclose: b.close,
        sellclose: s.close,
    }
}

// How many trades the match at a price makes: the same turns, of which nothing is written. Of the buy at place i `bid` lots are
// traded already, of the sell at place j `ask`.
fn count_trades(buys: &Queue<'_>, sells: &Queue<'_>, price: u32) -> usize
    requires { FewOrders buys.now sells.now }
    ensures { (c : ℕ) → result ≡ length (rule.match_at c price buys.now sells.now).trades }
{
    let mut i: usize = 0;
    let mut j: usize = 0;
    let mut bid: u32 = 0;
    let mut ask: u32 = 0;
    let mut made: usize = 0;
    // no range counts i or j: a turn moves on in the queue whose order it fills
    while i < buys.len() && j < sells.len() {
        let b = buys.order(i);
        let s = sells.order(j);
        if !both_reach(price, b, s) {
            break;
        }
        made += 1;
        let size = (b.lots - bid).min(s.lots - ask);
        bid += size;
        ask += size;
        if bid == b.lots {
            bid = 0;
            i += 1;
        }
        if ask == s.lots {
            ask = 0;
            j += 1;
        }
    }
    made
}

// The accounts; lots traded, the last price, trades of the day; how many buys and sells are filled, while those still stand in front,
// and how many stay once they are taken out. The array stands first, so that nothing pads it and fewer copies of it are made.
#[derive(Clone, Copy)]
pub struct Match {
    pub accounts: [Account; rules::MAX_ACCOUNTS],
    pub traded: u32,
    pub last: u32,
    pub bought: usize,
    pub sold: usize,
    pub made: usize,
}

// Trades the best buy with the best sell in turn. The filled orders still stand in front afterwards: `drop_front` takes them out.
pub fn match_at(
    buys: &mut [u32],
    bought: usize,
    sells: &mut [u32],
    sold: usize,
    area: &mut [u32],
    before: usize,
    contract: u32,
    price: u32,
    last: u32,
    accounts: [Account; rules::MAX_ACCOUNTS],
) -> Match
    requires { MatchReady (rule.match_at contract price (queue_in buys.old contract bought) (queue_in sells.old contract sold)) contract accounts buys.old bought sells.old sold area.old before }
    ensures { FillsIs (rule.match_at contract price (queue_in buys.old contract bought) (queue_in sells.old contract sold)) contract last accounts buys.old bought sells.old sold area.old before result buys.new sells.new area.new }
{
    let c = contract as usize;
    let mut held = accounts;
    let mut latest = last;
    let mut made = before;
    let mut i: usize = 0;
    let mut j: usize = 0;
    let mut done: u32 = 0;
    // as the sweep, a labelled loop that yields the lots traded at its break
    let traded = 'turns: loop {
        if i == bought || j == sold {
            break 'turns done;
        }
        let b = queue::order_at(&buys[..], c, i);
        let s = queue::order_at(&sells[..], c, j);
        if !both_reach(price, b, s) {
            break 'turns done;
        }
        let trade = trade_at(contract, price, b, s);
        let size = trade.lots;
        let buyer = trade.buyer as usize;
        held[buyer] = holdings::book_leg(held[buyer], c, false, trade.buyclose, size);
        let seller = trade.seller as usize;
        held[seller] = holdings::book_leg(held[seller], c, true, trade.sellclose, size);
        trades::put_trade(area, made, trade);
        made += 1;
        latest = price;
        done += size;
        if size < b.lots {
            queue::set_lots(buys, c, bought, i, b.lots - size);
            j += 1;
            continue;
        }
        i += 1;
        if size < s.lots {
            queue::set_lots(sells, c, sold, j, s.lots - size);
            continue;
        }
        j += 1;
    };
    Match {
        accounts: held,
        traded,
        last: latest,
        bought: i,
        sold: j,
        made,
    }
}

// How many trades the match makes at the chosen price: nothing is written yet.
pub fn trades_needed(buys: &Queue<'_>, sells: &Queue<'_>, chosen: Level) -> usize
    requires { FewOrders buys.now sells.now }
    ensures { (c : ℕ) → result ≡ length (level_match c chosen buys.now sells.now).trades }
{
    if chosen.volume == 0 {
        return 0;
    }
    count_trades(buys, sells, chosen.price)
}

// The match at the chosen price: filled orders leave both queues. "No volume, no price, no trades."
pub fn match_queues(
    buys: &mut [u32],
    bought: usize,
    sells: &mut [u32],
    sold: usize,
    area: &mut [u32],
    before: usize,
    contract: u32,
    chosen: Level,
    last: u32,
    accounts: [Account; rules::MAX_ACCOUNTS],
) -> Match
    requires { MatchReady (level_match contract chosen (queue_in buys.old contract bought) (queue_in sells.old contract sold)) contract accounts buys.old bought sells.old sold area.old before }
    ensures { MatchedIs (level_match contract chosen (queue_in buys.old contract bought) (queue_in sells.old contract sold)) contract last accounts buys.old bought sells.old sold area.old before result buys.new sells.new area.new }
{
    if chosen.volume == 0 {
        return Match {
            accounts,
            traded: 0,
            last,
            bought,
            sold,
            made: before,
        };
    }
    let c = contract as usize;
    let mut m = match_at(
        buys,
        bought,
        sells,
        sold,
        area,
        before,
        contract,
        chosen.price,
        last,
        accounts,
    );
    queue::drop_front(buys, c, bought, m.bought);
    queue::drop_front(sells, c, sold, m.sold);
    m.bought = bought - m.bought;
    m.sold = sold - m.sold;
    m
}
