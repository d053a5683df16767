// Worked examples on the book's own code: 001, 4.3.2.1, and document 01's fillable lots. Every order goes through `enter`; what
// it trades and rests is printed, and at the end what stands in the book.
#![tactic(auto)]

ghost use Rattle.std.specs.Prelude.{true, ◌≡◌};
ghost use Rattle.rules.specs.declared.PairingMethod.TheVariants.{Middle};
ghost use Rattle.test_book.specs.Known.{AccountsKnown, no_holdings};

use book::orders::Queue;
use book::trades::Trades;
use matching::entry;
use matching::entry::Entry;
use rules::{Account, Holding, PairingMethod, PriceCondition, Taker};

const STDOUT_FILENO: i32 = 1;

// The trades that there is room for.
const TRADES: usize = 10;

const TRADES_WORDS: usize = rules::TRADE_STRIDE * TRADES;

// A side of the book: the places of its orders, and how many orders stand there. An array and a count, here and below: no heap.
#[derive(Clone, Copy)]
struct Side {
    area: [u32; rules::QUEUE_STRIDE],
    count: usize,
}

// The trades of the day, and the last price.
#[derive(Clone, Copy)]
struct Day {
    area: [u32; TRADES_WORDS],
    count: usize,
    last: u32,
}

#[derive(Clone, Copy)]
struct Book {
    buys: Side,
    sells: Side,
    day: Day,
}

#[tactic(auto, unfolding(crate::specs::Known::no_holdings))]
fn no_holdings() -> [Account; rules::MAX_ACCOUNTS]
    ensures { result ≡ no_holdings }
{
    let none = Holding {
        long: 0,
        short: 0,
        startlong: 0,
        startshort: 0,
    };
    let empty = Account {
        balance: 0,
        maker: 0,
        holdings: [none; rules::MAX_CONTRACTS],
    };
    [empty; rules::MAX_ACCOUNTS]
}

// A limit order of account 0 in contract 0, paired by the middle price.
fn limit_order(sell: bool, number: u32, limit: u32) -> Taker
    ensures contract { result.contract ≡ 0 }
    ensures account { result.account ≡ 0 }
    ensures method { result.method ≡ Middle }
{
    Taker {
        account: 0,
        contract: 0,
        sell,
        close: 0,
        number,
        stamp: number,
        quote: 0,
        condition: PriceCondition::Limit(limit),
        method: PairingMethod::Middle,
        best: 0,
    }
}

// Whether every order of a queue is of an account that there is room for.
fn accounts_known(queue: &Queue<'_>) -> bool
    ensures { result ≡ true → AccountsKnown queue.now }
{
    for i in 0..queue.len() {
        if queue.order(i).account as usize >= rules::MAX_ACCOUNTS {
            return false;
        }
    }
    true
}

// Enters a good-for-day limit order, where all that `enter` asks for holds.
fn submit(
    own: &mut Side,
    opposite: &mut Side,
    day: &mut Day,
    sell: bool,
    number: u32,
    lots: u32,
    price: u32,
) -> Option<Entry> {
    let owncount = own.count;
    let oppositecount = opposite.count;
    let before = day.count;
    if lots > rules::MAX_LOTS || owncount >= rules::MAX_RESTING {
        return None;
    }
    if oppositecount > rules::MAX_RESTING || before > TRADES {
        return None;
    }
    let queue = Queue::new(&opposite.area, 0, oppositecount);
    if !accounts_known(&queue) {
        return None;
    }
    let t = limit_order(sell, number, price);
    let new = queue.count_trades(t, lots);
    if new > TRADES - before {
        return None;
    }
    let last = day.last;
    let e = entry::enter(
        &mut own.area,
        owncount,
        &mut opposite.area,
        oppositecount,
        &mut day.area,
        before,
        t,
        lots,
        price,
        true,
        last,
        no_holdings(),
    );
    own.count = e.own;
    opposite.count = e.opposite;
    day.count = e.made;
    day.last = e.last;
    Some(e)
}

fn print(word: &[u8], n: u64) {
    io::write_all(STDOUT_FILENO, word);
    io::print_decimal(STDOUT_FILENO, n);
}

fn print_lots(lots: u32, price: u32) {
    print(b" ", u64::from(lots));
    print(b" at ", u64::from(price));
}

fn order(book: &mut Book, number: u32, sell: bool, lots: u32, price: u32) {
    let entered = if sell {
        io::write_all(STDOUT_FILENO, b"sell");
        submit(
            &mut book.sells,
            &mut book.buys,
            &mut book.day,
            sell,
            number,
            lots,
            price,
        )
    } else {
        io::write_all(STDOUT_FILENO, b"buy");
        submit(
            &mut book.buys,
            &mut book.sells,
            &mut book.day,
            sell,
            number,
            lots,
            price,
        )
    };
    print_lots(lots, price);
    if let Some(e) = entered {
        print(b": traded ", u64::from(e.traded));
        print(b", rested ", u64::from(e.rested));
        print(b", last price ", u64::from(e.last));
    }
    io::write_all(STDOUT_FILENO, b"\n");
}

// The lots that a buy at a limit could be filled with.
#[tactic(auto, using(theory::proofs::Codecs::length_queue))]
fn fillable(sells: &Side, limit: u32) -> u64 {
    if sells.count > rules::MAX_RESTING {
        return 0;
    }
    let queue = Queue::new(&sells.area, 0, sells.count);
    queue.fillable_front(limit_order(false, 1, limit))
}

fn print_queue(side: &Side) {
    let queue = Queue::new(&side.area, 0, side.count.min(rules::MAX_RESTING));
    for i in 0..queue.len() {
        let o = queue.order(i);
        print_lots(o.lots, o.price);
    }
}

fn print_trades(day: &Day) {
    let trades = Trades::new(&day.area, day.count.min(TRADES));
    for i in 0..trades.len() {
        let t = trades.trade(i);
        print_lots(t.lots, t.price);
    }
}

// The book before the example's orders.
fn fill(book: &mut Book) {
    order(book, 1, true, 5, 111);
    order(book, 2, true, 7, 110);
    order(book, 3, false, 20, 106);
    order(book, 4, false, 10, 109);
    order(book, 5, false, 15, 109);
    order(book, 6, false, 7, 107);
    order(book, 7, false, 5, 108);
}

fn main() {
    let empty = Side {
        area: [0; rules::QUEUE_STRIDE],
        count: 0,
    };
    let mut book = Book {
        buys: empty,
        sells: empty,
        day: Day {
            area: [0; TRADES_WORDS],
            count: 0,
            last: 109,
        },
    };
    fill(&mut book);
    print(b"fillable at 111: ", fillable(&book.sells, 111));
    print(b"\nfillable at 110: ", fillable(&book.sells, 110));
    io::write_all(STDOUT_FILENO, b"\n");
    order(&mut book, 8, false, 7, 110);
    order(&mut book, 9, false, 8, 112);
    io::write_all(STDOUT_FILENO, b"buys:");
    print_queue(&book.buys);
    io::write_all(STDOUT_FILENO, b"\nsells:");
    print_queue(&book.sells);
    io::write_all(STDOUT_FILENO, b"\ntrades:");
    print_trades(&book.day);
    io::write_all(STDOUT_FILENO, b"\n");
}
