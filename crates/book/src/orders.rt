// The orders of one queue as they stand, read where they lie. In a clause a `Queue` is the list of its orders. For our own crates: some
// calls ask for no more orders than may rest, so that a sum of lots fits.
ghost use Rattle.std.specs.Prelude.{◌≡◌, ◌<◌, ◌≤◌, length, get_or};
ghost use Rattle.rules.specs.Bounds.{max_resting};
ghost use Rattle.rules.specs.Exchange as exchange;
ghost use Rattle.rules.specs.Memory.{first_word, order_stride, queue_in, word_of};
ghost use Rattle.book.specs.EarlyStop as early;
ghost use Rattle.book.specs.Places.{FoundIs, front, place_in};

use crate::queue;
use rules::sizes::ACCOUNT_WORD;
use rules::{Order, Taker};
use std::marker::Model;

// An order and where it stands in its queue.
#[derive(Clone, Copy)]
pub struct Found {
    pub place: usize,
    pub order: Order,
}

// `count` orders of the contract at a place, in the area of their side.
#[derive(Drop)]
pub struct Queue<'a> {
    area: &'a [u32],
    contract: usize,
    count: usize,
}

impl<'a> Model for Queue<'a> {
    ghost use Rattle.std.specs.Prelude.{◌≤◌, List, length};
    ghost use Rattle.rules.specs.Memory.{first_word, queue_in};
    ghost use Rattle.rules.specs.declared.Order.{Order};

    ghost Value = { List Order };

    ghost view = { λ q. queue_in q.area.now q.contract q.count };

    ghost invariant = { λ q. first_word q.contract q.count ≤ length q.area.now };
}

impl<'a> Queue<'a> {
    // Requires the room of its orders.
    pub fn new(area: &'a [u32], contract: usize, count: usize) -> Self
        requires { first_word contract count ≤ length area.now }
        ensures { result ≡ queue_in area.now contract count }
    {
        Queue {
            area,
            contract,
            count,
        }
    }

    pub fn len(&self) -> usize
        ensures { result ≡ length self.now }
    {
        self.count
    }

    // The order at a place.
    pub fn order(&self, i: usize) -> Order
        requires { i < length self.now }
        ensures { result ≡ get_or self.now i exchange.no_order }
    {
        queue::order_at(self.area, self.contract, i)
    }

    // One word of it.
    pub fn word(&self, i: usize, word: usize) -> u32
        requires { (i < length self.now) × (word < order_stride) }
        ensures { result ≡ word_of word (get_or self.now i exchange.no_order) }
    {
        queue::word_at(self.area, self.contract, i, word)
    }

    // The best order, the first of the best price.
    pub fn best(&self) -> Option<Order>
        ensures { result ≡ front self.now }
    {
        if self.len() == 0 {
            return None;
        }
        Some(self.order(0))
    }

    // The place behind every order at this price or better.
    pub fn place(&self, sell: bool, price: u32) -> usize
        ensures { result ≡ place_in sell price self.now }
    {
        for k in 0..self.len() {
            if queue::worse(sell, self.order(k).price, price) {
                return k;
            }
        }
        self.len()
    }

    // The order with a number, and its place.
    pub fn find(&self, number: u32) -> Option<Found>
        ensures { FoundIs number self.now result }
    {
        for place in 0..self.len() {
            let order = self.order(place);
            if order.number == number {
                return Some(Found { place, order });
            }
        }
        None
    }

    // The lots of the counterparts: reading stops at the first order that is none.
    pub fn fillable_front(&self, t: Taker) -> u64
        requires { length self.now ≤ max_resting }
        ensures { result ≡ early.fillable_front t self.now }
    {
        let mut lots: u64 = 0;
        for i in 0..self.len() {
            let o = self.order(i);
            if !prices::is_counterpart(t, o) {
                break;
            }
            lots += u64::from(o.lots);
        }
        lots
    }

    // How many trades an order of so many lots would make.
    pub fn count_trades(&self, t: Taker, lots: u32) -> usize
        ensures { result ≡ early.count_trades t lots self.now }
    {
        let mut left = lots;
        for i in 0..self.len() {
            if left == 0 {
                return i;
            }
            let o = self.order(i);
            if !prices::is_counterpart(t, o) {
                return i;
            }
            left -= left.min(o.lots);
        }
        self.len()
    }

    // An account's resting opens (close 0) or resting closes (close 1).
    pub fn resting(&self, account: u32, close: u32) -> u64
        requires { length self.now ≤ max_resting }
        ensures { result ≡ exchange.resting close account self.now }
    {
        let mut lots: u64 = 0;
        for i in 0..self.len() {
            // most orders are another account's: that word alone is read of them
            if self.word(i, ACCOUNT_WORD) == account {
                let o = self.order(i);
                if o.close == close {
                    lots += u64::from(o.lots);
                }
            }
        }
        lots
    }
}
