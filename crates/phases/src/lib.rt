// Changes of a contract's state, with the match where it leaves auction (document 02, ticket 4). For our own crates: each asks for a
// well-formed state.
#![tactic(auto)]

ghost use Rattle.std.specs.Prelude.{◌≡◌, true, ◌≤◌, ◌<◌};
ghost use Rattle.rules.specs.Bounds.{max_contracts, phase_known, continuous};
ghost use Rattle.rules.specs.Answers.{change_listed};
ghost use Rattle.rules.specs.Codes.{code_number};
ghost use Rattle.rules.specs.Memory.{memory, WellFormedState};
ghost use Rattle.rules.specs.declared.Command.TheVariants.{Phase};
ghost use Rattle.engine.specs.Decision.{DecisionIs, CarriedOut, decided, listed_in};
ghost use Rattle.engine.specs.Market.{memory_of};
ghost use Rattle.engine.specs.Outcome.{is_match};
ghost use Rattle.phases.specs.AfterMatch.{matched_as, refused_at};

use auction::matched::Match;
use auction::{matched, price};
use book::orders::Queue;
use engine::market::Market;
use engine::updates::{Carried, Decision, Listed, Pending, Update};
use engine::{answers, updates};
use rules::codes::Code;
use rules::{AUCTION, Answer, CLOSED, CONTINUOUS, MAX_PHASE, NO_TRADING, PRE_OPEN, State};

// 0 to 1, 0 to 3, 1 to 2, 2 to 1, 1 to 3, 2 to 3, 0 to 4, 4 to 1.
#[tactic(auto, unfolding(rules::specs::Answers::change_listed))]
fn is_listed(from: u32, to: u32) -> bool
    ensures { result ≡ change_listed from to }
{
    match from {
        PRE_OPEN => to == CONTINUOUS || to == CLOSED || to == AUCTION,
        CONTINUOUS => to == NO_TRADING || to == CLOSED,
        NO_TRADING => to == CONTINUOUS || to == CLOSED,
        AUCTION => to == CONTINUOUS,
        _ => false,
    }
}

// "flags above 4 are unknown"
fn is_known(phase: u32) -> bool
    ensures { result ≡ phase_known phase }
{
    phase <= MAX_PHASE
}

// Whether a change is the one that makes a match: from auction to continuous. Requires at most 4 contracts.
#[tactic(auto, using(engine::proofs::Tests::place_below), unfolding(engine::specs::Outcome::is_match))]
fn is_match(state: &State, contract: u32, phase: u32) -> bool
    requires { state.now.contractcount ≤ max_contracts }
    ensures { result ≡ is_match state.now contract phase }
{
    phase == CONTINUOUS
        && !answers::is_absent(contract, state.contractcount)
        && state.contracts[laws::place_of(contract)].phase == AUCTION
}

// The change that makes a match is left for all accounts.
pub fn change(market: &Market<'_>, contract: u32, phase: u32) -> Result<Decision, Code>
    ensures { DecisionIs (memory_of market.now) (Phase contract phase) (decided result) market.now.buys.now market.now.sells.now market.now.trades.now }
{
    if is_match(market.state, contract, phase) {
        return Ok(updates::left(Update::Left(Pending::Matching(contract))));
    }
    if !is_known(phase) {
        return Err(Code::Malformed);
    }
    if answers::is_absent(contract, market.state.contractcount) {
        return Err(Code::NoSuchContract);
    }
    let mut listed = updates::listed_at(market.state, laws::place_of(contract));
    if !is_listed(listed.terms.phase, phase) {
        return Err(Code::PhaseChangeNotListed);
    }
    listed.terms.phase = phase;
    Ok(updates::accepted(Update::Listing(listed), 0, 0))
}

// The contract after the match: it trades on.
fn with_match(state: &State, c: usize, m: Match) -> Listed
    requires { c < max_contracts }
    ensures { result ≡ matched_as (listed_in state.now c) m }
{
    let mut listed = updates::listed_at(state, c);
    listed.terms.last = m.last;
    listed.terms.phase = CONTINUOUS;
    listed.bought = m.bought;
    listed.sold = m.sold;
    listed.recorded = m.made;
    listed
}

// Nothing has happened: the contract is as it stands.
fn refused(state: &State, c: usize, code: Code) -> Carried
    requires { c < max_contracts }
    ensures { result ≡ refused_at state.now c (code_number code) }
{
    let accounts = state.accounts;
    Carried {
        accounts,
        listed: updates::listed_at(state, c),
        answer: Answer {
            code: code.number(),
            number: 0,
            traded: 0,
            lots: 0,
        },
    }
}

// The change from auction to continuous: 12 if the match needs more room than the day has left, and then nothing has happened.
pub fn leave_auction(
    state: &State,
    buys: &mut [u32],
    sells: &mut [u32],
    trades: &mut [u32],
    contract: u32,
) -> Carried
    requires { WellFormedState state.now buys.old sells.old trades.old × (is_match state.now contract continuous ≡ true) }
    ensures { CarriedOut (memory state.now buys.old sells.old trades.old) (Phase contract continuous) result buys.new sells.new trades.new }
{
    let c = laws::place_of(contract);
    let bought = state.buycounts[c];
    let sold = state.sellcounts[c];
    let last = state.contracts[c].last;
    let bids = Queue::new(&buys[..], c, bought);
    let offers = Queue::new(&sells[..], c, sold);
    let chosen = price::chosen(&bids, &offers, last);
    let needed = matched::trades_needed(&bids, &offers, chosen);
    if rules::MAX_TRADES < state.tradecount + needed {
        return refused(state, c, Code::NoRoomForTrades);
    }
    let m = matched::match_queues(
        buys,
        bought,
        sells,
        sold,
        trades,
        state.tradecount,
        laws::place_word(contract),
        chosen,
        last,
        state.accounts,
    );
    let held = m.accounts;
    Carried {
        accounts: held,
        listed: with_match(state, c, m),
        answer: Answer {
            code: 0,
            number: 0,
            traded: m.traded,
            lots: 0,
        },
    }
}
