// Quotes from market makers (document 02, ticket 7). For our own crates: it asks for a well-formed state. A refused quote leaves every
// area as it was: the words of the contract's two queues, and of the trades that the buy can make, are kept before anything is written
// and put back.
#![tactic(auto)]

ghost use Rattle.std.specs.Prelude.{false, ◌≡◌, ◌+◌, ◌≤◌, length, get_or, take, drop};
ghost use Rattle.areas.specs.Lists.{over};
ghost use Rattle.rules.specs.Answers as answer;
ghost use Rattle.rules.specs.Bounds.{max_accounts, max_contracts, max_trades};
ghost use Rattle.rules.specs.Codes.{code_in};
ghost use Rattle.rules.specs.Exchange.{no_account, place_of};
ghost use Rattle.rules.specs.Memory.{exchange_of, memory, step_in, WellFormedState};
ghost use Rattle.engine.specs.Decision.{DecisionIs, HeldBy, decided};
ghost use Rattle.engine.specs.Outcome.{OutcomeIs, CodeIn};
ghost use Rattle.quoting.specs.Placing.{early_refusals, GoneIs, Quotable, marked_in, PlacedIs, RestedIs, RestedBothIs, asked, made_from, outcome_in};

use engine::answers::Outcome;
use engine::market::Market;
use engine::updates::{Decision, Listed, Quoted, Remaining, Update};
use engine::{answers, updates};
use refusals::{codes, orders};
use rules::codes::Code;
use rules::sizes::TRADES_WITH_ROOM;
use rules::{Account, Answer, NewOrder, State};

// The words of the trades that one order can make: at most one with each order that it meets.
const MADE: usize = rules::TRADE_STRIDE * rules::MAX_RESTING;

// Codes 2, 3, 4, 23 and 24. Requires at most 4 contracts and 32 accounts.
fn early_code(state: &State, q: Quoted) -> Result<(), Code>
    requires { (state.now.contractcount ≤ max_contracts) × (state.now.accountcount ≤ max_accounts) }
    ensures { CodeIn state.now (λ x. early_refusals x q.account q.contract q.buy q.sell) (code_in result) }
{
    codes::continuous_code(state, q.account, q.contract)?;
    let a = laws::place_of(q.account);
    if state.accounts[a].maker != 1 {
        return Err(Code::NoMarketMaker);
    }
    if q.sell <= q.buy {
        return Err(Code::BuyNotBelowSell);
    }
    Ok(())
}

// What is left of the account's old quote is taken out.
fn remove_quote(
    state: &State,
    buys: &mut [u32],
    sells: &mut [u32],
    trades: &[u32],
    account: u32,
    contract: u32,
) -> State
    requires { WellFormedState state.now buys.old sells.old trades.now × (answer.first_of (answer.pull_refusals (exchange_of (memory state.now buys.old sells.old trades.now)) account contract false) ≡ 0) }
    ensures { GoneIs state.now buys.old sells.old trades.now account contract result buys.new sells.new }
{
    let c = laws::place_of(contract);
    let a = laws::place_word(account);
    let bid = book::removal::pull(buys, c, state.buycounts[c], a, true);
    let offer = book::removal::pull(sells, c, state.sellcounts[c], a, true);
    engine::removal::with_counts(state, c, bid.count, offer.count)
}

// An order of a quote: its code from 5 on, or entered with the next number, marked.
fn enter_marked(
    state: &State,
    buys: &mut [u32],
    sells: &mut [u32],
    trades: &mut [u32],
    o: NewOrder,
) -> Result<Outcome, Code>
    requires { WellFormedState state.now buys.old sells.old trades.old × Quotable state.now buys.old sells.old trades.old o }
    ensures outcome { OutcomeIs (marked_in (memory state.now buys.old sells.old trades.old) o) (outcome_in state.now result) buys.new sells.new trades.new }
    ensures code { (outcome_in state.now result).answer.code ≡ code_in result }
{
    let a = laws::place_of(o.account);
    let who = state.accounts[a];
    let market = Market {
        state,
        buys: &buys[..],
        sells: &sells[..],
        trades: &trades[..],
    };
    codes::order_code(&market, who, o)?;
    let number = state.next;
    let arrival = insertion::arrival_of(state, &buys[..], &sells[..], o, number, 1, number + 1);
    let e = insertion::enter(state.accounts, arrival, buys, sells, trades);
    Ok(answers::carried(*state, e))
}

// "removed first; then the buy is inserted, then the sell, on the state each step leaves". Where one of them is refused the areas are
// left as the steps before it left them.
fn place(
    state: &State,
    buys: &mut [u32],
    sells: &mut [u32],
    trades: &mut [u32],
    q: Quoted,
) -> Result<Outcome, Code>
    requires { WellFormedState state.now buys.old sells.old trades.old × (answer.first_of (early_refusals (exchange_of (memory state.now buys.old sells.old trades.old)) q.account q.contract q.buy q.sell) ≡ 0) }
    ensures outcome { PlacedIs state.now buys.old sells.old trades.old q.account q.contract q.lots q.buy q.sell (outcome_in state.now result) buys.new sells.new trades.new }
    ensures code { (outcome_in state.now result).answer.code ≡ code_in result }
{
    let gone = remove_quote(state, buys, sells, &trades[..], q.account, q.contract);
    // "a buy and a sell good-for-day limit open with equal lots"
    let buy = orders::day_limit(q.account, q.contract, false, false, q.lots, q.buy);
    let bought = enter_marked(&gone, buys, sells, trades, buy)?;
    let sell = orders::day_limit(q.account, q.contract, true, false, q.lots, q.sell);
    let sold = enter_marked(&bought.state, buys, sells, trades, sell)?;
    Ok(answers::accepted(
        sold.state,
        state.next,
        bought.answer.traded + sold.answer.traded,
        bought.answer.lots + sold.answer.lots,
    ))
}

// Where the words to be kept of the trade area begin: at the next free place, and early enough that all of them lie within the day's
// room.
fn first_made(recorded: usize) -> usize
    requires { recorded ≤ max_trades }
    ensures { result ≡ made_from recorded }
{
    rules::TRADE_STRIDE * recorded.min(TRADES_WITH_ROOM)
}

// The words of an area from a place on are kept: the library's copy, under the name of what it is for.
fn keep(area: &[u32], at: usize, kept: &mut [u32])
    requires { at + length kept.old ≤ length area.now }
    ensures { kept.new ≡ take (length kept.old) (drop at area.now) }
{
    kept.copy_from_slice(&area[at..at + kept.len()]);
}

// And put back: the same copy the other way.
fn put_back(area: &mut [u32], at: usize, kept: &[u32])
    requires { at + length kept.now ≤ length area.old }
    ensures { area.new ≡ over area.old at kept.now }
{
    area[at..at + kept.len()].copy_from_slice(kept);
}

// A quote of which an order trades: carried out on the whole state.
pub fn trade(
    state: &State,
    buys: &mut [u32],
    sells: &mut [u32],
    trades: &mut [u32],
    q: Quoted,
) -> Outcome
    requires { WellFormedState state.now buys.old sells.old trades.old }
    ensures { OutcomeIs (step_in (memory state.now buys.old sells.old trades.old) (asked q)) result buys.new sells.new trades.new }
{
    if let Err(code) = early_code(state, q) {
        return answers::refused(*state, code.number());
    }
    let queue = rules::QUEUE_STRIDE * laws::place_of(q.contract);
    let recorded = first_made(state.tradecount);
    let mut bids = [0; rules::QUEUE_STRIDE];
    let mut offers = [0; rules::QUEUE_STRIDE];
    let mut made = [0; MADE];
    keep(&buys[..], queue, &mut bids[..]);
    keep(&sells[..], queue, &mut offers[..]);
    keep(&trades[..], recorded, &mut made[..]);
    match place(state, buys, sells, trades, q) {
        Ok(placed) => placed,
        Err(code) => {
            put_back(buys, queue, &bids[..]);
            put_back(sells, queue, &offers[..]);
            put_back(trades, recorded, &made[..]);
            answers::refused(*state, code.number())
        }
    }
}

// An order of a quote, or both, at rest: the answer, and the contract as it leaves it.
#[derive(Clone, Copy)]
struct Rested {
    listed: Listed,
    answer: Answer,
}

// An order of a quote without the accounts: refused, or it rests with the next number, marked; `None` where it would trade, and then
// nothing is done of it. `who` is its account.
fn rest_marked(
    state: &State,
    who: Account,
    buys: &mut [u32],
    sells: &mut [u32],
    trades: &[u32],
    o: NewOrder,
) -> Result<Option<Rested>, Code>
    requires { WellFormedState state.now buys.old sells.old trades.now × Quotable state.now buys.old sells.old trades.now o × (get_or state.now.accounts (place_of o.account) no_account ≡ who) }
    ensures { RestedIs state.now buys.old sells.old trades.now o result buys.new sells.new }
{
    let market = Market {
        state,
        buys: &buys[..],
        sells: &sells[..],
        trades,
    };
    codes::order_code(&market, who, o)?;
    let number = state.next;
    let arrival = insertion::arrival_of(state, &buys[..], &sells[..], o, number, 1, number + 1);
    let decision = insertion::arrive(arrival, buys, sells);
    match decision.update {
        Update::Listing(listed) => Ok(Some(Rested {
            listed,
            answer: decision.answer,
        })),
        _ => Ok(None),
    }
}

// "removed first; then the buy is inserted, then the sell, on the state each step leaves": up to the order that is refused or would trade.
fn rest_both(
    state: &State,
    who: Account,
    buys: &mut [u32],
    sells: &mut [u32],
    trades: &[u32],
    q: Quoted,
) -> Result<Option<Rested>, Code>
    requires { WellFormedState state.now buys.old sells.old trades.now × (answer.first_of (early_refusals (exchange_of (memory state.now buys.old sells.old trades.now)) q.account q.contract q.buy q.sell) ≡ 0) × (get_or state.now.accounts (place_of q.account) no_account ≡ who) }
    ensures { RestedBothIs state.now buys.old sells.old trades.now q result buys.new sells.new }
{
    let gone = remove_quote(state, buys, sells, trades, q.account, q.contract);
    let bid = orders::day_limit(q.account, q.contract, false, false, q.lots, q.buy);
    let Some(bought) = rest_marked(&gone, who, buys, sells, trades, bid)? else {
        return Ok(None);
    };
    let after = updates::with_listed(gone, bought.listed);
    let offer = orders::day_limit(q.account, q.contract, true, false, q.lots, q.sell);
    let Some(sold) = rest_marked(&after, who, buys, sells, trades, offer)? else {
        return Ok(None);
    };
    Ok(Some(Rested {
        listed: sold.listed,
        answer: Answer {
            code: 0,
            number: state.next,
            traded: bought.answer.traded + sold.answer.traded,
            lots: bought.answer.lots + sold.answer.lots,
        },
    }))
}

// A quote that rests leaves the contract; where an order of it is refused or would trade, both queues are put back. `who` is its account.
pub fn quote(
    state: &State,
    who: Account,
    buys: &mut [u32],
    sells: &mut [u32],
    trades: &[u32],
    q: Quoted,
) -> Result<Decision, Code>
    requires { WellFormedState state.now buys.old sells.old trades.now × HeldBy state.now q.account who }
    ensures { DecisionIs (memory state.now buys.old sells.old trades.now) (asked q) (decided result) buys.new sells.new trades.now }
{
    early_code(state, q)?;
    let queue = rules::QUEUE_STRIDE * laws::place_of(q.contract);
    let mut bids = [0; rules::QUEUE_STRIDE];
    let mut offers = [0; rules::QUEUE_STRIDE];
    keep(&buys[..], queue, &mut bids[..]);
    keep(&sells[..], queue, &mut offers[..]);
    match rest_both(state, who, buys, sells, trades, q) {
        Ok(Some(rested)) => Ok(Decision {
            answer: rested.answer,
            update: Update::Listing(rested.listed),
        }),
        Ok(None) => {
            put_back(buys, queue, &bids[..]);
            put_back(sells, queue, &offers[..]);
            Ok(updates::left(Update::Whole(Remaining::Quoting(q))))
        }
        Err(code) => {
            put_back(buys, queue, &bids[..]);
            put_back(sells, queue, &offers[..]);
            Err(code)
        }
    }
}
