// An order that enters, with a number and a quote mark, and insert. For our own crates: `insert` asks for a well-formed state, the others
// for what they read to be in range.
//
// An order that meets no counterpart rests without the accounts (`arrive`); one that trades is given all of them (`trade`). So the accounts
// are copied only where they change.
#![tactic(auto)]

ghost use Rattle.std.specs.Prelude.{◌≡◌, ◌≤◌, length};
ghost use Rattle.rules.specs.Memory.{first_word, memory, queue_in, WellFormedState};
ghost use Rattle.rules.specs.declared.Command.TheVariants.{Insert};
ghost use Rattle.engine.specs.Arrival.{Arriving, Arrives, ArrivedIs, ArrivalReady, Trades, entered_on};
ghost use Rattle.engine.specs.Decision.{DecisionIs, HeldBy, decided};
ghost use Rattle.insertion.specs.Entry.{ArriveIs, ArriveOn, Known, TradedOn, TradesOn, arrival_of, rested_alone, rests_alone};

use book::orders::Queue;
use engine::market::Market;
use engine::updates;
use engine::updates::{Arrival, Carried, Decision, Listed, Pending, Update};
use matching::entry;
use refusals::{codes, orders};
use rules::codes::Code;
use rules::{AUCTION, Account, Answer, NewOrder, State};

// An order about to enter, after which `next` is the next number; one time stamp more is used.
pub fn arrival_of<'a>(
    state: &State,
    buys: &'a [u32],
    sells: &'a [u32],
    o: NewOrder,
    number: u32,
    quote: u32,
    next: u32,
) -> Arrival
    requires { Known state.now buys.now sells.now o }
    ensures { result ≡ arrival_of state.now buys.now sells.now o number quote next }
{
    let mut listed = updates::listed_at(state, laws::place_of(o.contract));
    let terms = listed.terms;
    let count = orders::by_side(o.sell, listed.bought, listed.sold);
    let queue = Queue::new(orders::side_area(!o.sell, buys, sells), listed.place, count);
    let taker = orders::taker_of(number, quote, listed.nextstamp, terms, &queue, o);
    listed.next = next;
    listed.nextstamp = listed.nextstamp + 1;
    Arrival {
        order: o,
        taker,
        listed,
    }
}

// The contract after an order on a side: the orders on its own side and on the opposite one, the trades of the day, the last price.
fn entered_on(
    listed: Listed,
    sell: bool,
    own: usize,
    opposite: usize,
    made: usize,
    last: u32,
) -> Listed
    ensures { result ≡ entered_on listed sell own opposite made last }
{
    let mut next = listed;
    let mut terms = listed.terms;
    terms.last = last;
    next.terms = terms;
    next.bought = orders::by_side(sell, opposite, own);
    next.sold = orders::by_side(sell, own, opposite);
    next.recorded = made;
    next
}

// Whether an order makes no trade: in auction, whatever it crosses; elsewhere where the first order opposite is no counterpart.
fn rests_alone(a: Arrival, opposite: &Queue<'_>) -> bool
    ensures { result ≡ rests_alone a opposite.now }
{
    if a.listed.terms.phase == AUCTION {
        return true;
    }
    match opposite.best() {
        Some(first) => !prices::is_counterpart(a.taker, first),
        None => true,
    }
}

// The lots that rest of such an order: in auction all; elsewhere "A good-for-day remainder rests .. Other remainders vanish."
fn rested_alone(a: Arrival) -> u32
    ensures { result ≡ rested_alone a }
{
    if a.listed.terms.phase == AUCTION || orders::is_day(a.order.time) {
        a.order.lots
    } else {
        0
    }
}

fn arrive_on(
    a: Arrival,
    own: &mut [u32],
    owncount: usize,
    opposite: &[u32],
    oppositecount: usize,
) -> Decision
    requires { Arriving a own.old owncount opposite.now oppositecount }
    ensures { ArriveOn a own.old owncount opposite.now oppositecount result own.new }
{
    let facing = Queue::new(opposite, a.listed.place, oppositecount);
    if !rests_alone(a, &facing) {
        return updates::left(Update::Left(Pending::Trading(a)));
    }
    let listed = a.listed;
    let taker = a.taker;
    let price = orders::limit_of(a.order.condition);
    let rested = rested_alone(a);
    let resting = entry::rest(own, listed.place, owncount, taker, price, rested);
    let after = entered_on(
        listed,
        taker.sell,
        resting,
        oppositecount,
        listed.recorded,
        listed.terms.last,
    );
    updates::accepted(Update::Listing(after), taker.number, rested)
}

// The order rests, or it is left to trade with all accounts and the areas are as they were.
pub fn arrive(a: Arrival, buys: &mut [u32], sells: &mut [u32]) -> Decision
    requires { Arrives a buys.old sells.old }
    ensures { ArriveIs a buys.old sells.old result buys.new sells.new }
{
    if a.taker.sell {
        arrive_on(a, sells, a.listed.sold, &buys[..], a.listed.bought)
    } else {
        arrive_on(a, buys, a.listed.bought, &sells[..], a.listed.sold)
    }
}

fn trade_on(
    accounts: [Account; rules::MAX_ACCOUNTS],
    a: Arrival,
    own: &mut [u32],
    owncount: usize,
    opposite: &mut [u32],
    oppositecount: usize,
    trades: &mut [u32],
) -> Carried
    requires { TradesOn accounts a own.old owncount opposite.old oppositecount trades.old }
    ensures { TradedOn accounts a own.old owncount opposite.old oppositecount trades.old result own.new opposite.new trades.new }
{
    let listed = a.listed;
    let taker = a.taker;
    let price = orders::limit_of(a.order.condition);
    let day = orders::is_day(a.order.time);
    let e = entry::enter(
        own,
        owncount,
        opposite,
        oppositecount,
        trades,
        listed.recorded,
        taker,
        a.order.lots,
        price,
        day,
        listed.terms.last,
        accounts,
    );
    let held = e.accounts;
    Carried {
        accounts: held,
        listed: entered_on(listed, taker.sell, e.own, e.opposite, e.made, e.last),
        answer: Answer {
            code: 0,
            number: taker.number,
            traded: e.traded,
            lots: e.rested,
        },
    }
}

// The order sweeps the opposite side, and its remainder rests or vanishes. Not in auction.
pub fn trade(
    accounts: [Account; rules::MAX_ACCOUNTS],
    a: Arrival,
    buys: &mut [u32],
    sells: &mut [u32],
    trades: &mut [u32],
) -> Carried
    requires { Trades accounts a buys.old sells.old trades.old }
    ensures { ArrivedIs accounts a buys.old sells.old trades.old result buys.new sells.new trades.new }
{
    let listed = a.listed;
    if a.taker.sell {
        trade_on(accounts, a, sells, listed.sold, buys, listed.bought, trades)
    } else {
        trade_on(accounts, a, buys, listed.bought, sells, listed.sold, trades)
    }
}

// The order enters with all accounts: it rests, or it trades.
pub fn enter(
    accounts: [Account; rules::MAX_ACCOUNTS],
    a: Arrival,
    buys: &mut [u32],
    sells: &mut [u32],
    trades: &mut [u32],
) -> Carried
    requires { ArrivalReady accounts a buys.old sells.old trades.old }
    ensures { ArrivedIs accounts a buys.old sells.old trades.old result buys.new sells.new trades.new }
{
    // before the areas are written: else the compiler keeps a copy of all accounts
    let kept = accounts;
    let decision = arrive(a, buys, sells);
    match decision.update {
        Update::Listing(listed) => Carried {
            accounts: kept,
            listed,
            answer: decision.answer,
        },
        _ => trade(accounts, a, buys, sells, trades),
    }
}

// "given to accepted orders in turn over all contracts": an accepted insert enters with the next number. `who` is its account.
pub fn insert(
    state: &State,
    who: Account,
    buys: &mut [u32],
    sells: &mut [u32],
    trades: &[u32],
    o: NewOrder,
) -> Result<Decision, Code>
    requires { WellFormedState state.now buys.old sells.old trades.now × HeldBy state.now o.account who }
    ensures { DecisionIs (memory state.now buys.old sells.old trades.now) (Insert o) (decided result) buys.new sells.new trades.now }
{
    let market = Market {
        state,
        buys: &buys[..],
        sells: &sells[..],
        trades,
    };
    codes::code_of(&market, who, o)?;
    let number = state.next;
    let a = arrival_of(state, &buys[..], &sells[..], o, number, 0, number + 1);
    Ok(arrive(a, buys, sells))
}
