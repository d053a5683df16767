// Changing a resting order (document 02, ticket 8). For our own crates: it asks for a well-formed state.
//
// A change that loses its place takes its order out, is tested on the contract without it, and then arrives as any order does.
#![tactic(auto)]

ghost use Rattle.std.specs.Prelude.{MatchOption, [], true, ◌≡◌, ◌+◌, ◌++◌, ◌<◌, ◌≤◌, eqb, length};
ghost use Rattle.laws.specs.Choice.{pick};
ghost use Rattle.rules.specs.Answers as answer;
ghost use Rattle.rules.specs.Change.{loses};
ghost use Rattle.rules.specs.Codes.{code_in};
ghost use Rattle.rules.specs.Bounds.{terms_in_range};
ghost use Rattle.rules.specs.Memory.{memory, queue_in, first_word, order_stride, WellFormedState};
ghost use Rattle.rules.specs.declared.Command.TheVariants.{Change};
ghost use Rattle.engine.specs.Arrival.{orders_on};
ghost use Rattle.engine.specs.Decision.{DecisionIs, HeldBy, decided};
ghost use Rattle.engine.specs.Sides.{side_area};
ghost use Rattle.changing.specs.Resting.{LosesPlace, RestingIs, lessened_in, one_less, put_back_in, removed_in, resting_refusals};

use book::orders::Queue;
use book::queue;
use engine::market::Market;
use engine::updates::{Decision, Listed, Update};
use engine::{removal, updates};
use refusals::{codes, orders};
use rules::codes::Code;
use rules::{Account, Contract, NewOrder, Order, State};

// "account, contract, order number, the new remaining lots and the price"
#[derive(Clone, Copy)]
pub struct Asked {
    pub account: u32,
    pub contract: u32,
    pub number: u32,
    pub lots: u32,
    pub price: u32,
}

// An order as it rests: its side, its place in the queue, the order itself.
#[derive(Clone, Copy)]
struct Resting {
    order: Order,
    place: usize,
    sell: bool,
}

// The order with a number among the orders of a contract: "buys first".
fn resting_order<'a>(
    buys: &'a [u32],
    sells: &'a [u32],
    listed: Listed,
    number: u32,
) -> Option<Resting>
    requires { (first_word listed.place listed.bought ≤ length buys.now) × (first_word listed.place listed.sold ≤ length sells.now) }
    ensures { MatchOption result (answer.numbered number (queue_in buys.now listed.place listed.bought ++ queue_in sells.now listed.place listed.sold) ≡ []) (RestingIs number (queue_in buys.now listed.place listed.bought) (queue_in sells.now listed.place listed.sold)) }
{
    let c = listed.place;
    if let Some(bid) = Queue::new(buys, c, listed.bought).find(number) {
        return Some(Resting {
            order: bid.order,
            place: bid.place,
            sell: false,
        });
    }
    let Some(offer) = Queue::new(sells, c, listed.sold).find(number) else {
        return None;
    };
    Some(Resting {
        order: offer.order,
        place: offer.place,
        sell: true,
    })
}

// Codes 15, 5 and 7 of the order found. `account` is the account's place.
#[tactic(auto, unfolding(rules::specs::Answers::first_of, rules::specs::Answers::no_such_order, rules::specs::Answers::of_another))]
fn resting_code(
    terms: Contract,
    account: u32,
    order: Order,
    lots: u32,
    price: u32,
) -> Result<(), Code>
    requires { terms_in_range terms ≡ true }
    ensures { code_in result ≡ answer.first_of (resting_refusals terms account order lots price) }
{
    if order.account != account {
        return Err(Code::AnothersOrder);
    }
    if rules::MAX_LOTS < lots {
        return Err(Code::LotsOutOfRange);
    }
    if lots != 0 && !terms::allowed_today(terms, price) {
        return Err(Code::PriceNotAllowed);
    }
    Ok(())
}

// "more lots or another price lose it"
fn loses_place(order: Order, lots: u32, price: u32) -> bool
    ensures { result ≡ loses order lots price }
{
    order.lots < lots || price != order.price
}

// The order as it arrives again, to open or close as before.
fn arriving(asked: Asked, r: Resting) -> NewOrder
    ensures { result ≡ answer.day_limit_order asked.account asked.contract r.sell (eqb r.order.close 1) asked.lots asked.price }
{
    orders::day_limit(
        asked.account,
        asked.contract,
        r.sell,
        r.order.close == 1,
        asked.lots,
        asked.price,
    )
}

// Fewer lots: that order's lots alone, and its mark.
fn lessen(buys: &mut [u32], sells: &mut [u32], listed: Listed, r: Resting, lots: u32)
    requires { (r.place < orders_on r.sell listed) × (first_word listed.place (orders_on r.sell listed) ≤ length (side_area r.sell buys.old sells.old)) }
    ensures buys_after { buys.new ≡ pick r.sell buys.old (lessened_in buys.old listed.place listed.bought r.place lots) }
    ensures sells_after { sells.new ≡ pick r.sell (lessened_in sells.old listed.place listed.sold r.place lots) sells.old }
{
    if r.sell {
        queue::set_lots_unmarked(sells, listed.place, listed.sold, r.place, lots);
    } else {
        queue::set_lots_unmarked(buys, listed.place, listed.bought, r.place, lots);
    }
}

// The order is taken out of its queue.
fn take_out(buys: &mut [u32], sells: &mut [u32], listed: Listed, r: Resting)
    requires { (r.place < orders_on r.sell listed) × (first_word listed.place (orders_on r.sell listed) ≤ length (side_area r.sell buys.old sells.old)) }
    ensures buys_after { buys.new ≡ pick r.sell buys.old (removed_in buys.old listed.place listed.bought r.place) }
    ensures sells_after { sells.new ≡ pick r.sell (removed_in sells.old listed.place listed.sold r.place) sells.old }
{
    if r.sell {
        queue::remove(sells, listed.place, listed.sold, r.place);
    } else {
        queue::remove(buys, listed.place, listed.bought, r.place);
    }
}

// The contract with one order less on a side.
fn one_less(listed: Listed, sell: bool) -> Listed
    requires { 1 ≤ orders_on sell listed }
    ensures { result ≡ one_less listed sell }
{
    let mut less = listed;
    if sell {
        less.sold -= 1;
    } else {
        less.bought -= 1;
    }
    less
}

// The order that was taken out is put back at its place. `less` is the contract without it.
fn put_back(buys: &mut [u32], sells: &mut [u32], less: Listed, r: Resting)
    requires { (r.place ≤ orders_on r.sell less) × (first_word less.place (orders_on r.sell less) + order_stride ≤ length (side_area r.sell buys.old sells.old)) }
    ensures buys_after { buys.new ≡ pick r.sell buys.old (put_back_in buys.old less.place less.bought r.place r.order) }
    ensures sells_after { sells.new ≡ pick r.sell (put_back_in sells.old less.place less.sold r.place r.order) sells.old }
{
    if r.sell {
        queue::insert_at(sells, less.place, less.sold, r.place, r.order);
    } else {
        queue::insert_at(buys, less.place, less.bought, r.place, r.order);
    }
}

// The place lost: "tested as though the old order were gone, then matched at once". A refusal puts it back. `listed` is its contract.
fn lose_place(
    state: &State,
    who: Account,
    buys: &mut [u32],
    sells: &mut [u32],
    trades: &[u32],
    asked: Asked,
    listed: Listed,
    r: Resting,
) -> Result<Decision, Code>
    requires { LosesPlace state.now who buys.old sells.old trades.now asked listed r }
    ensures { DecisionIs (memory state.now buys.old sells.old trades.now) (Change asked.account asked.contract asked.number asked.lots asked.price) (decided result) buys.new sells.new trades.now }
{
    let number = asked.number;
    let o = arriving(asked, r);
    let less = one_less(listed, r.sell);
    let gone = removal::with_counts(state, less.place, less.bought, less.sold);
    take_out(buys, sells, listed, r);
    let market = Market {
        state: &gone,
        buys: &buys[..],
        sells: &sells[..],
        trades,
    };
    if let Err(code) = codes::reentry_code(&market, who, o, number) {
        put_back(buys, sells, less, r);
        return Err(code);
    }
    let a = insertion::arrival_of(&gone, &buys[..], &sells[..], o, number, 0, gone.next);
    Ok(insertion::arrive(a, buys, sells))
}

// `who` is the account that it names.
pub fn change(
    state: &State,
    who: Account,
    buys: &mut [u32],
    sells: &mut [u32],
    trades: &[u32],
    asked: Asked,
) -> Result<Decision, Code>
    requires { WellFormedState state.now buys.old sells.old trades.now × HeldBy state.now asked.account who }
    ensures { DecisionIs (memory state.now buys.old sells.old trades.now) (Change asked.account asked.contract asked.number asked.lots asked.price) (decided result) buys.new sells.new trades.now }
{
    codes::continuous_code(state, asked.account, asked.contract)?;
    let number = asked.number;
    let lots = asked.lots;
    let listed = updates::listed_at(state, laws::place_of(asked.contract));
    let Some(r) = resting_order(&buys[..], &sells[..], listed, number) else {
        return Err(Code::NoSuchOrder);
    };
    let a = laws::place_word(asked.account);
    let order = r.order;
    resting_code(listed.terms, a, order, lots, asked.price)?;
    if lots == 0 {
        take_out(buys, sells, listed, r);
        let less = one_less(listed, r.sell);
        return Ok(updates::accepted(Update::Listing(less), number, order.lots));
    }
    if loses_place(order, lots, asked.price) {
        return lose_place(state, who, buys, sells, trades, asked, listed, r);
    }
    if lots == order.lots {
        return Ok(updates::accepted(Update::Nothing, number, lots));
    }
    lessen(buys, sells, listed, r, lots);
    Ok(updates::accepted(Update::Nothing, number, lots))
}
