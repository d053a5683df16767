// The code of an insert: the refusals 2 to 13 in their order, those from 5 on as a call of its own; and of an order that is entered
// again, which some of them test. For our own crates: `code_of`, `order_code` and `reentry_code` read a market, the last two for an order
// whose account is in use, the others ask for what they read of it; `continuous_code` gives 2, 3 and 4 of a quote and of a change.
ghost use Rattle.std.specs.Prelude.{true, ◌&&◌, ◌||◌, ◌≡◌, ◌≤◌, leb, ltb, get_or, length};
ghost use Rattle.rules.specs.Answers as answer;
ghost use Rattle.rules.specs.Bounds.{terms_in_range, max_contracts, max_lots, max_trades, numbers_end, max_accounts, max_limit, max_resting};
ghost use Rattle.rules.specs.Codes.{code_in};
ghost use Rattle.rules.specs.Exchange.{Exchange, no_account, place_of};
ghost use Rattle.rules.specs.Matching as matching;
ghost use Rattle.rules.specs.Kinds.{code_of};
ghost use Rattle.rules.specs.Memory.{exchange_of};
ghost use Rattle.rules.specs.declared.Command.TheVariants.{Insert};
ghost use Rattle.rules.specs.Change.{reentry_refusals};
ghost use Rattle.engine.specs.Decision.{HeldBy};
ghost use Rattle.engine.specs.Market.{memory_of};
ghost use Rattle.refusals.specs.Insertion.{Present, Facing, MeetsQueue, ContinuousIs};

use crate::orders;
use book::orders::Queue;
use engine::market::Market;
use engine::updates::Listed;
use engine::{answers, updates};
use rules::codes::Code;
use rules::sizes::TRADES_WITH_ROOM;
use rules::{
    AUCTION, Account, CONTINUOUS, Contract, Holding, NewOrder, PriceCondition, State, Taker,
    TimeCondition,
};

// 4: "Insert needs continuous.", and auction.
#[tactic(auto, unfolding(rules::specs::Answers::takes_orders))]
fn takes_orders(terms: Contract) -> bool
    ensures { result ≡ answer.takes_orders terms }
{
    terms.phase == CONTINUOUS || terms.phase == AUCTION
}

// 6: "market or best with good for day". Another crate asks for it too.
pub fn is_day_without_limit(condition: PriceCondition, time: TimeCondition) -> bool
    ensures { result ≡ answer.day_without_limit condition time }
{
    !orders::is_limit(condition) && orders::is_day(time)
}

// Whether an order is limit good for day.
fn is_limit_day(condition: PriceCondition, time: TimeCondition) -> bool
    ensures { result ≡ (answer.is_limit condition && answer.is_good_for_day time) }
{
    orders::is_limit(condition) && orders::is_day(time)
}

// 6 of an insert: in auction any order that is not limit good for day.
#[tactic(auto, unfolding(rules::specs::Answers::conditions_refused))]
fn conditions_refused(terms: Contract, o: NewOrder) -> bool
    ensures { result ≡ answer.conditions_refused terms o }
{
    if terms.phase == AUCTION {
        !is_limit_day(o.condition, o.time)
    } else {
        is_day_without_limit(o.condition, o.time)
    }
}

// 7: a limit must be allowed today, market and best have no price.
#[tactic(auto, unfolding(rules::specs::Answers::price_refused_by))]
fn price_refused(terms: Contract, condition: PriceCondition, price: u32) -> bool
    requires { terms_in_range terms ≡ true }
    ensures { result ≡ answer.price_refused_by terms condition price }
{
    match condition {
        PriceCondition::Limit(limit) => !terms::allowed_today(terms, limit),
        PriceCondition::Market | PriceCondition::Best => price != 0,
    }
}

// Codes 5 to 7: what an order's own fields are refused for. `conditions` is the test of 6. Another crate asks for it too.
#[tactic(auto, unfolding(rules::specs::Answers::first_of))]
pub fn fields_code(terms: Contract, conditions: bool, o: NewOrder) -> Result<(), Code>
    requires { terms_in_range terms ≡ true }
    ensures { code_in result ≡ answer.first_of (answer.fields_refusals conditions terms o) }
{
    if !terms::within(1, rules::MAX_LOTS, o.lots) {
        return Err(Code::LotsOutOfRange);
    }
    if conditions {
        return Err(Code::DayWithoutLimit);
    }
    if price_refused(terms, o.condition, o.price) {
        return Err(Code::PriceNotAllowed);
    }
    Ok(())
}

// 8: an open may not lift holding and resting opens above the limit, a close may not exceed what is held less resting closes.
// `rested` are the account's resting lots on the order's side, opens of an open and closes of a close.
#[tactic(auto, unfolding(rules::specs::Answers::lots_refused))]
fn lots_refused(terms: Contract, h: Holding, rested: u64, o: NewOrder) -> bool
    requires { rested ≤ max_limit }
    ensures { result ≡ answer.lots_refused terms h rested o }
{
    let lots = u64::from(o.lots);
    if o.close {
        let held = orders::by_side(o.sell, h.long, h.short);
        u64::from(held) < rested + lots
    } else {
        let held = orders::by_side(o.sell, h.short, h.long);
        u64::from(terms.limit) < u64::from(held) + rested + lots
    }
}

// 9: an open passes if all charged margin, its lots included, is at most the balance. A close is never refused for money. `who` is
// the order's account.
fn money_refused(market: &Market<'_>, who: Account, o: NewOrder) -> bool
    requires { Present market.now.state.now o × (o.lots ≤ max_lots) × (get_or market.now.state.now.accounts (place_of o.account) no_account ≡ who) }
    ensures { result ≡ answer.money_refused (exchange_of (memory_of market.now)) o }
{
    if o.close {
        return false;
    }
    let c = laws::place_of(o.contract);
    let a = laws::place_of(o.account);
    let held = holdings::book_leg(who, c, o.sell, 0, o.lots);
    let balance = who.balance;
    let charged = margin::charged(
        held.holdings,
        market.state.contracts,
        market.state.contractcount,
        market.buys,
        market.state.buycounts,
        market.sells,
        market.state.sellcounts,
        a,
    );
    margin::too_little(balance, charged)
}

// Codes 8 and 9. `who` is the order's account.
fn account_code(market: &Market<'_>, who: Account, o: NewOrder) -> Result<(), Code>
    requires { Present market.now.state.now o × (o.lots ≤ max_lots) × (get_or market.now.state.now.accounts (place_of o.account) no_account ≡ who) }
    ensures { code_in result ≡ answer.first_of (answer.account_refusals (exchange_of (memory_of market.now)) o) }
{
    let c = laws::place_of(o.contract);
    let terms = market.state.contracts[c];
    let h = who.holdings[c];
    let count = orders::side_count(o.sell, market.state, c);
    let own = Queue::new(
        orders::side_area(o.sell, market.buys, market.sells),
        c,
        count,
    );
    let rested = own.resting(laws::place_word(o.account), orders::mark(o.close));
    if lots_refused(terms, h, rested, o) {
        return Err(Code::AboveHolding);
    }
    if money_refused(market, who, o) {
        return Err(Code::TooLittleMoney);
    }
    Ok(())
}

// Whether an order would not be filled at once.
fn is_short(queue: &Queue<'_>, t: Taker, lots: u32) -> bool
    requires { Facing t queue.now }
    ensures { result ≡ ltb (matching.fillable t queue.now) lots }
{
    queue.fillable_front(t) < u64::from(lots)
}

// 11: "fill or kill: fillable lots below lots".
fn kill_refused(queue: &Queue<'_>, t: Taker, lots: u32, time: TimeCondition) -> bool
    requires { Facing t queue.now }
    ensures { result ≡ answer.kill_refused (matching.fillable t queue.now) lots time }
{
    orders::is_kill(time) && is_short(queue, t, lots)
}

// 12: more trades than the day has room for. An order trades at most once with each order of the opposite queue, so up to
// `TRADES_WITH_ROOM` recorded trades nothing needs to be counted. In auction it makes no trades.
fn trades_refused(terms: Contract, recorded: usize, queue: &Queue<'_>, t: Taker, lots: u32) -> bool
    requires { (length queue.now ≤ max_resting) × (recorded ≤ max_trades) }
    ensures { result ≡ answer.no_room_for recorded (answer.trades_against terms t lots queue.now) }
{
    if terms.phase == AUCTION || recorded <= TRADES_WITH_ROOM {
        return false;
    }
    rules::MAX_TRADES < recorded + queue.count_trades(t, lots)
}

// 13: "good for day, own side has 64, fillable lots below lots", in auction "whenever the own side has 64". `own` is the number of
// orders on the own side.
fn full_refused(
    auction: bool,
    own: usize,
    queue: &Queue<'_>,
    t: Taker,
    lots: u32,
    time: TimeCondition,
) -> bool
    requires { Facing t queue.now }
    ensures { result ≡ answer.full_refused auction own (matching.fillable t queue.now) lots time }
{
    orders::is_day(time) && rules::MAX_RESTING <= own && (auction || is_short(queue, t, lots))
}

// 10: "order numbers used up", or time stamps.
fn used_up(next: u32, nextstamp: u32) -> bool
    ensures { result ≡ (leb numbers_end next || leb numbers_end nextstamp) }
{
    rules::NUMBERS_END <= next || rules::NUMBERS_END <= nextstamp
}

// Codes 10 to 13, in any exchange in which the order meets the opposite queue so, with so many orders on its own side.
fn book_code(
    listed: Listed,
    terms: Contract,
    own: usize,
    queue: &Queue<'_>,
    t: Taker,
    o: NewOrder,
) -> Result<(), Code>
    requires { Facing t queue.now × (listed.recorded ≤ max_trades) }
    ensures { (x : Exchange) → MeetsQueue x o listed terms own t queue.now → code_in result ≡ answer.first_of (answer.book_refusals x o) }
{
    let time = o.time;
    let lots = o.lots;
    let auction = terms.phase == AUCTION;
    if used_up(listed.next, listed.nextstamp) {
        return Err(Code::NumbersUsedUp);
    }
    if kill_refused(queue, t, lots, time) {
        return Err(Code::NotFilledAtOnce);
    }
    if trades_refused(terms, listed.recorded, queue, t, lots) {
        return Err(Code::NoRoomForTrades);
    }
    if full_refused(auction, own, queue, t, lots, time) {
        return Err(Code::QueueFull);
    }
    Ok(())
}

// An order's code "from 5 on". `who` is the order's account, which its caller has read: no copy of all accounts is made to read
// one.
pub fn order_code(market: &Market<'_>, who: Account, o: NewOrder) -> Result<(), Code>
    requires { Present market.now.state.now o × (get_or market.now.state.now.accounts (place_of o.account) no_account ≡ who) }
    ensures { code_in result ≡ answer.first_of (answer.order_refusals (exchange_of (memory_of market.now)) o) }
{
    let c = laws::place_of(o.contract);
    let terms = market.state.contracts[c];
    let conditions = conditions_refused(terms, o);
    fields_code(terms, conditions, o)?;
    account_code(market, who, o)?;
    let own = orders::side_count(o.sell, market.state, c);
    let count = orders::side_count(!o.sell, market.state, c);
    let listed = updates::listed_at(market.state, c);
    let queue = Queue::new(
        orders::side_area(!o.sell, market.buys, market.sells),
        c,
        count,
    );
    let t = orders::taker_of(listed.next, 0, listed.nextstamp, terms, &queue, o);
    book_code(listed, terms, own, &queue, t, o)
}

// The first refusal that holds. `who` is the account that the order names.
pub fn code_of(market: &Market<'_>, who: Account, o: NewOrder) -> Result<(), Code>
    requires { HeldBy market.now.state.now o.account who }
    ensures { code_in result ≡ code_of (exchange_of (memory_of market.now)) (Insert o) }
{
    if answers::is_absent(o.account, market.state.accountcount) {
        return Err(Code::NoSuchAccount);
    }
    if answers::is_absent(o.contract, market.state.contractcount) {
        return Err(Code::NoSuchContract);
    }
    let c = laws::place_of(o.contract);
    let terms = market.state.contracts[c];
    if !takes_orders(terms) {
        return Err(Code::PhaseForbids);
    }
    order_code(market, who, o)
}

// The code of an order that is entered again with its number: 8 and 9, 10 of time stamps alone, and 12.
// `who` is the order's account.
pub fn reentry_code(market: &Market<'_>, who: Account, o: NewOrder, number: u32) -> Result<(), Code>
    requires { Present market.now.state.now o × (o.lots ≤ max_lots) × (get_or market.now.state.now.accounts (place_of o.account) no_account ≡ who) }
    ensures { code_in result ≡ answer.first_of (reentry_refusals (exchange_of (memory_of market.now)) number o) }
{
    account_code(market, who, o)?;
    let nextstamp = market.state.nextstamp;
    if rules::NUMBERS_END <= nextstamp {
        return Err(Code::NumbersUsedUp);
    }
    let c = laws::place_of(o.contract);
    let terms = market.state.contracts[c];
    let count = orders::side_count(!o.sell, market.state, c);
    let queue = Queue::new(
        orders::side_area(!o.sell, market.buys, market.sells),
        c,
        count,
    );
    let t = orders::taker_of(number, 0, nextstamp, terms, &queue, o);
    if trades_refused(terms, market.state.tradecount, &queue, t, o.lots) {
        return Err(Code::NoRoomForTrades);
    }
    Ok(())
}

// Codes 2, 3 and 4 of a quote and of a change: "in continuous only". Requires at most 4 contracts and 32 accounts.
pub fn continuous_code(state: &State, account: u32, contract: u32) -> Result<(), Code>
    requires { (state.now.contractcount ≤ max_contracts) × (state.now.accountcount ≤ max_accounts) }
    ensures { ContinuousIs state.now account contract (code_in result) }
{
    answers::absent_code(state.accountcount, state.contractcount, account, contract)?;
    let place = laws::place_of(contract);
    let terms = state.contracts[place];
    if terms.phase != CONTINUOUS {
        return Err(Code::PhaseForbids);
    }
    Ok(())
}
