// One queue of a lent area: 64 places of seven words for each contract, best price first; `c` is the contract's place. What a
// function does to the whole area is one equation. For our own crates: each asks that the area has room for the orders it names.
ghost use Rattle.std.specs.Prelude.{◌++◌, ◌≡◌, ◌+◌, ◌-◌, ◌*◌, ◌≤◌, ◌<◌, length, take, drop, get_or, set};
ghost use Rattle.areas.specs.Lists.{insert_at, remove_at};
ghost use Rattle.areas.specs.Moves.{closed_up};
ghost use Rattle.rules.specs.Change.{unmarked};
ghost use Rattle.rules.specs.Exchange as exchange;
ghost use Rattle.rules.specs.Matching as matching;
ghost use Rattle.rules.specs.Memory.{queue_in, put_queue, order_from, order_words, order_stride, first_word, word_of};
ghost use Rattle.book.specs.Places.{place_in};

use crate::orders::Queue;
use rules::Order;
use rules::sizes::{LOTS_WORD, QUOTE_WORD};

// The order at a place.
pub fn order_at(area: &[u32], c: usize, i: usize) -> Order
    requires { first_word c i + order_stride ≤ length area.now }
    ensures { result ≡ order_from (drop (first_word c i) area.now) }
{
    let at = rules::QUEUE_STRIDE * c + rules::ORDER_STRIDE * i;
    Order {
        price: area[at],
        number: area[at + 1],
        account: area[at + 2],
        lots: area[at + 3],
        close: area[at + 4],
        stamp: area[at + 5],
        quote: area[at + 6],
    }
}

// One word of the order at a place.
pub fn word_at(area: &[u32], c: usize, i: usize, word: usize) -> u32
    requires { (first_word c i + order_stride ≤ length area.now) × (word < order_stride) }
    ensures { result ≡ word_of word (order_from (drop (first_word c i) area.now)) }
{
    let at = rules::QUEUE_STRIDE * c + rules::ORDER_STRIDE * i + word;
    area[at]
}

// Writes an order over the first seven words.
pub fn put(part: &mut [u32], o: Order)
    requires { order_stride ≤ length part.old }
    ensures { part.new ≡ order_words o ++ drop order_stride part.old }
{
    part[0] = o.price;
    part[1] = o.number;
    part[2] = o.account;
    part[3] = o.lots;
    part[4] = o.close;
    part[5] = o.stamp;
    part[6] = o.quote;
}

// Whether a price stands strictly behind another on a side.
pub fn worse(sell: bool, price: u32, other: u32) -> bool
    ensures { result ≡ exchange.worse sell price other }
{
    if sell { other < price } else { price < other }
}

// Moves each order of a part one place back, and writes the new one in front. The last place's words go.
pub fn shift(part: &mut [u32], o: Order)
    requires { order_stride ≤ length part.old }
    ensures { part.new ≡ order_words o ++ take (length part.old - order_stride) part.old }
{
    areas::move_back(part, rules::ORDER_STRIDE);
    put(part, o);
}

// Puts an order in at a place: the queue from there on is lent as a writable part and shifted by one order.
pub fn insert_at(area: &mut [u32], c: usize, count: usize, i: usize, o: Order)
    requires { (i ≤ count) × (first_word c count + order_stride ≤ length area.old) }
    ensures { area.new ≡ put_queue area.old c count (insert_at i o (queue_in area.old c count)) }
{
    let a = rules::QUEUE_STRIDE * c + rules::ORDER_STRIDE * i;
    let e = rules::QUEUE_STRIDE * c + rules::ORDER_STRIDE * count + rules::ORDER_STRIDE;
    shift(&mut area[a..e], o);
}

// "A good-for-day remainder rests, and every later order moves one place back."
pub fn insert(area: &mut [u32], c: usize, count: usize, sell: bool, o: Order)
    requires { first_word c count + order_stride ≤ length area.old }
    ensures { area.new ≡ put_queue area.old c count (matching.rest_in sell o (queue_in area.old c count)) }
{
    let i = Queue::new(&area[..], c, count).place(sell, o.price);
    insert_at(area, c, count, i, o);
}

// Takes the first order of a part out: later ones close up, and the freed place is set to zero. A function of its own: by a distance
// that it knows the compiler moves the words as one block.
fn close_up(part: &mut [u32])
    requires { order_stride ≤ length part.old }
    ensures { part.new ≡ closed_up order_stride part.old }
{
    areas::close_up(part, rules::ORDER_STRIDE);
}

// Takes the order at a place out.
pub fn remove(area: &mut [u32], c: usize, count: usize, i: usize)
    requires { (i < count) × (first_word c count ≤ length area.old) }
    ensures { area.new ≡ put_queue area.old c count (remove_at i (queue_in area.old c count)) }
{
    let a = rules::QUEUE_STRIDE * c + rules::ORDER_STRIDE * i;
    let e = rules::QUEUE_STRIDE * c + rules::ORDER_STRIDE * count;
    close_up(&mut area[a..e]);
}

// Takes the first k orders out: later ones close up, and the freed places are set to zero. No order and one order are the common cases.
pub fn drop_front(area: &mut [u32], c: usize, count: usize, k: usize)
    requires { (k ≤ count) × (first_word c count ≤ length area.old) }
    ensures { area.new ≡ put_queue area.old c count (drop k (queue_in area.old c count)) }
{
    if k == 0 {
        return;
    }
    if k == 1 {
        remove(area, c, count, 0);
        return;
    }
    let a = rules::QUEUE_STRIDE * c;
    let e = rules::QUEUE_STRIDE * c + rules::ORDER_STRIDE * count;
    areas::close_up(&mut area[a..e], rules::ORDER_STRIDE * k);
}

// Changes the remaining lots of the order at a place.
pub fn set_lots(area: &mut [u32], c: usize, count: usize, i: usize, lots: u32)
    requires { (i < count) × (first_word c count ≤ length area.old) }
    ensures { area.new ≡ put_queue area.old c count (set (queue_in area.old c count) i (matching.with_lots (get_or (queue_in area.old c count) i exchange.no_order) lots)) }
{
    let at = rules::QUEUE_STRIDE * c + rules::ORDER_STRIDE * i + LOTS_WORD;
    area[at] = lots;
}

// Changes the remaining lots of the order at a place, which is then part of no quote.
pub fn set_lots_unmarked(area: &mut [u32], c: usize, count: usize, i: usize, lots: u32)
    requires { (i < count) × (first_word c count ≤ length area.old) }
    ensures { area.new ≡ put_queue area.old c count (set (queue_in area.old c count) i (unmarked (matching.with_lots (get_or (queue_in area.old c count) i exchange.no_order) lots))) }
{
    let at = rules::QUEUE_STRIDE * c + rules::ORDER_STRIDE * i;
    area[at + LOTS_WORD] = lots;
    area[at + QUOTE_WORD] = 0;
}
