// The order book's calls for the benchmark, which is written in Rust. For the benchmark alone: each asks for what the book's own
// function asks.
#![tactic(auto)]

ghost use Rattle.std.specs.Prelude.{◌≡◌, ◌+◌, ◌≤◌, length};
ghost use Rattle.areas.specs.Lists.{remove_at};
ghost use Rattle.rules.specs.Command.{price_condition};
ghost use Rattle.rules.specs.Matching.{rest_in};
ghost use Rattle.rules.specs.Memory.{queue_in, put_queue, order_stride, first_word};
ghost use Rattle.book.specs.Places.{index_of};
ghost use Rattle.bench_book.specs.Calls.{order_of, taker_of, accounts_of, SweepsReady, SweptIs};

use book::orders::Queue;
use book::queue;
use matching::entry;
use rules::{Account, Holding, Order, PairingMethod, PriceCondition, Taker};

#[unsafe(no_mangle)]
pub extern "C" fn bench_insert(
    area: &mut [u32],
    c: usize,
    count: usize,
    sell: bool,
    price: u32,
    number: u32,
    account: u32,
    lots: u32,
    close: u32,
)
    requires { first_word c count + order_stride ≤ length area.old }
    ensures { area.new ≡ put_queue area.old c count (rest_in sell (order_of price number account lots close) (queue_in area.old c count)) }
{
    let o = Order {
        price,
        number,
        account,
        lots,
        close,
        stamp: 0,
        quote: 0,
    };
    queue::insert(area, c, count, sell, o);
}

// Takes out the order with a number, if there is one; the number of orders left.
#[unsafe(no_mangle)]
pub extern "C" fn bench_cancel(area: &mut [u32], c: usize, count: usize, number: u32) -> usize
    requires { first_word c count ≤ length area.old }
    ensures value { result ≡ length (remove_at (index_of number (queue_in area.old c count)) (queue_in area.old c count)) }
    ensures area_after { area.new ≡ put_queue area.old c count (remove_at (index_of number (queue_in area.old c count)) (queue_in area.old c count)) }
{
    let Some(found) = Queue::new(&area[..], c, count).find(number) else {
        return count;
    };
    queue::remove(area, c, count, found.place);
    count - 1
}

// An order, paired by the middle price: `kind` is its price condition (0 limit, 1 market, 2 best), `own`, `opposite` and `made` are the counts before it,
// `held` the lots that each account holds of everything, `probe` the account whose holding is asked for.
#[repr(C)]
#[derive(Clone, Copy)]
pub struct Sweeps {
    pub account: u32,
    pub contract: u32,
    pub close: u32,
    pub number: u32,
    pub price: u32,
    pub best: u32,
    pub lots: u32,
    pub last: u32,
    pub held: u32,
    pub probe: u32,
    pub kind: u8,
    pub sell: bool,
    pub day: bool,
    pub own: usize,
    pub opposite: usize,
    pub made: usize,
}

// The counts, the last price and one account's holding after the orders.
#[repr(C)]
#[derive(Clone, Copy)]
pub struct Swept {
    pub own: usize,
    pub opposite: usize,
    pub made: usize,
    pub last: u32,
    pub long: u32,
    pub short: u32,
}

// By its number: the C interface of `Sweeps`.
#[tactic(auto, unfolding(rules::specs::Command::price_condition))]
fn price_condition(value: u8, price: u32) -> PriceCondition
    ensures { result ≡ price_condition value price }
{
    match value {
        0 => PriceCondition::Limit(price),
        1 => PriceCondition::Market,
        _ => PriceCondition::Best,
    }
}

fn taker(s: Sweeps) -> Taker
    ensures { result ≡ taker_of s }
{
    let condition = price_condition(s.kind, s.price);
    Taker {
        account: s.account,
        contract: s.contract,
        sell: s.sell,
        close: s.close,
        number: s.number,
        stamp: s.number,
        quote: 0,
        condition,
        method: PairingMethod::Middle,
        best: s.best,
    }
}

fn accounts_with(lots: u32) -> [Account; rules::MAX_ACCOUNTS]
    ensures { result ≡ accounts_of lots }
{
    let holding = Holding {
        long: lots,
        short: lots,
        startlong: lots,
        startshort: lots,
    };
    let holdings = [holding; rules::MAX_CONTRACTS];
    let account = Account {
        balance: 0,
        maker: 0,
        holdings: holdings,
    };
    [account; rules::MAX_ACCOUNTS]
}

// Enters the order so many times, over accounts made here and kept by value from one order to the next.
#[unsafe(no_mangle)]
pub extern "C" fn bench_sweeps(
    own: &mut [u32],
    opposite: &mut [u32],
    trades: &mut [u32],
    s: Sweeps,
    times: usize,
) -> Swept
    requires { SweepsReady s times own.old opposite.old trades.old }
    ensures { SweptIs s times own.old opposite.old trades.old result own.new opposite.new trades.new }
{
    let t = taker(s);
    let mut accounts = accounts_with(s.held);
    let mut own_count = s.own;
    let mut opposite_count = s.opposite;
    let mut made = s.made;
    let mut last = s.last;
    for _done in 0..times {
        let e = entry::enter(
            own,
            own_count,
            opposite,
            opposite_count,
            trades,
            made,
            t,
            s.lots,
            s.price,
            s.day,
            last,
            accounts,
        );
        own_count = e.own;
        opposite_count = e.opposite;
        made = e.made;
        last = e.last;
        accounts = e.accounts;
    }
    let account = accounts[s.probe as usize];
    let holding = account.holdings[s.contract as usize];
    Swept {
        own: own_count,
        opposite: opposite_count,
        made,
        last,
        long: holding.long,
        short: holding.short,
    }
}
