// An order entered into the book: it trades, filled orders leave, a good-for-day remainder rests. For our own crates: it
// asks for the room of what it writes and for values within their ranges.
ghost use Rattle.std.specs.Prelude.{◌≡◌, ◌+◌, ◌-◌, ◌≤◌, length};
ghost use Rattle.laws.specs.Choice.{pick};
ghost use Rattle.rules.specs.Matching as matching;
ghost use Rattle.rules.specs.Memory.{queue_in, put_queue, first_word};
ghost use Rattle.matching.specs.Entry.{EntryReady, EntryIs};

use crate::sweep;
use book::queue;
use rules::{Account, Order, Taker};

// The accounts, first as in `Filled`; lots traded and rested; orders in the own and in the opposite queue, trades of the day; the
// last price.
#[derive(Clone, Copy)]
pub struct Entry {
    pub accounts: [Account; rules::MAX_ACCOUNTS],
    pub traded: u32,
    pub rested: u32,
    pub own: usize,
    pub opposite: usize,
    pub made: usize,
    pub last: u32,
}

// "A good-for-day remainder rests .. Other remainders vanish."
fn remaining(day: bool, lots: u32, traded: u32) -> u32
    requires { traded ≤ lots }
    ensures { result ≡ pick day (lots - traded) 0 }
{
    if day { lots - traded } else { 0 }
}

// The remainder takes its place in the own queue; the number of orders there.
pub fn rest(own: &mut [u32], c: usize, count: usize, t: Taker, price: u32, lots: u32) -> usize
    requires { first_word c (length (matching.rest_lots t price lots (queue_in own.old c count))) ≤ length own.old }
    ensures value { result ≡ length (matching.rest_lots t price lots (queue_in own.old c count)) }
    ensures own_after { own.new ≡ put_queue own.old c count (matching.rest_lots t price lots (queue_in own.old c count)) }
{
    if lots == 0 {
        return count;
    }
    let o = Order {
        price,
        number: t.number,
        account: t.account,
        lots,
        close: t.close,
        stamp: t.stamp,
        quote: t.quote,
    };
    queue::insert(own, c, count, t.sell, o);
    count + 1
}

pub fn enter(
    own: &mut [u32],
    owncount: usize,
    opposite: &mut [u32],
    oppositecount: usize,
    area: &mut [u32],
    before: usize,
    t: Taker,
    lots: u32,
    price: u32,
    day: bool,
    last: u32,
    accounts: [Account; rules::MAX_ACCOUNTS],
) -> Entry
    requires { EntryReady t lots price day last accounts own.old owncount opposite.old oppositecount area.old before }
    ensures { EntryIs (matching.enter t lots price day last (queue_in own.old t.contract owncount) (queue_in opposite.old t.contract oppositecount)) t.contract own.old owncount opposite.old oppositecount area.old before last accounts result own.new opposite.new area.new }
{
    let c = t.contract as usize;
    let f = sweep::sweep(
        opposite,
        oppositecount,
        area,
        before,
        t,
        lots,
        last,
        accounts,
    );
    queue::drop_front(opposite, c, oppositecount, f.filled);
    let rested = remaining(day, lots, f.traded);
    let resting = rest(own, c, owncount, t, price, rested);
    let held = f.accounts;
    Entry {
        traded: f.traded,
        rested,
        own: resting,
        opposite: oppositecount - f.filled,
        made: f.made,
        last: f.last,
        accounts: held,
    }
}
