// How much could I get? What an order would trade now, asked without sending it: the areas are lent for reading only, and nothing is
// changed.
#![tactic(auto)]

ghost use Rattle.std.specs.Prelude.{true, ◌≡◌};
ghost use Rattle.rules.specs.Answers.{fields_refusals};
ghost use Rattle.rules.specs.Answers as answer;
ghost use Rattle.rules.specs.Bounds.{terms_in_range};
ghost use Rattle.rules.specs.Codes.{code_in};
ghost use Rattle.rules.specs.DayFile.{record_from};
ghost use Rattle.rules.specs.Memory.{exchange_of, memory};
ghost use Rattle.engine.specs.Market.{memory_of};
ghost use Rattle.query.specs.Gettable.{gettable_now, order_reading, reading_from};

use crate::scan::Gathered;
use book::orders::Queue;
use engine::answers;
use engine::market::Market;
use refusals::{codes, orders};
use rules::codes::Code;
use rules::{Command, Contract, NewOrder, Record, State};

pub mod scan;

// The code, the lots that would trade, and the number of resting orders read to know it. The C interface needs the code's number, 0
// for none.
#[repr(C)]
#[derive(Clone, Copy)]
pub struct Reading {
    pub code: u32,
    pub lots: u32,
    pub read: usize,
}

// What a question gives, as the record holds it: "both numbers are then 0" beside a code.
fn reading_from(given: Result<Gathered, Code>) -> Reading
    ensures { result ≡ reading_from given }
{
    match given {
        Ok(gathered) => Reading {
            code: 0,
            lots: gathered.lots,
            read: gathered.read,
        },
        Err(code) => Reading {
            code: code.number(),
            lots: 0,
            read: 0,
        },
    }
}

// Codes 5 to 7 of the question: its 6 is that of document 01 in every state, auction too.
fn fields_code(terms: Contract, o: NewOrder) -> Result<(), Code>
    requires { terms_in_range terms ≡ true }
    ensures { code_in result ≡ answer.first_of (fields_refusals (answer.day_without_limit o.condition o.time) terms o) }
{
    let conditions = codes::is_day_without_limit(o.condition, o.time);
    codes::fields_code(terms, conditions, o)
}

// An order on a well-formed state. Its contract's state and its time condition are not looked at beyond code 6.
fn reading_of(market: &Market<'_>, o: NewOrder) -> Result<Gathered, Code>
    ensures { reading_from result ≡ order_reading (exchange_of (memory_of market.now)) o }
{
    let state = market.state;
    answers::absent_code(
        state.accountcount,
        state.contractcount,
        o.account,
        o.contract,
    )?;
    let c = laws::place_of(o.contract);
    let terms = state.contracts[c];
    fields_code(terms, o)?;
    let count = orders::side_count(!o.sell, state, c);
    let queue = Queue::new(
        orders::side_area(!o.sell, market.buys, market.sells),
        c,
        count,
    );
    let t = orders::taker_of(state.next, 0, state.nextstamp, terms, &queue, o);
    Ok(scan::gather(&queue, t, o.lots))
}

// The order that a record would insert, on any state.
fn asked_of<'a>(
    state: State,
    buys: &'a [u32],
    sells: &'a [u32],
    trades: &'a [u32],
    asked: Record,
) -> Result<Gathered, Code>
    ensures { reading_from result ≡ gettable_now (memory state buys.now sells.now trades.now) asked }
{
    if !audit::well_formed(state, buys, sells, trades) {
        return Err(Code::StateNotWellFormed);
    }
    let Command::Insert(o) = commands::command_of(asked) else {
        return Err(Code::Malformed);
    };
    let market = Market {
        state: &state,
        buys,
        sells,
        trades,
    };
    reading_of(&market, o)
}

// A call for users: it answers on anything. The order is asked for by the record that would insert it. The state and its areas are
// taken one by one, as C lends them.
pub fn gettable_record<'a>(
    state: State,
    buys: &'a [u32],
    sells: &'a [u32],
    trades: &'a [u32],
    asked: Record,
) -> Reading
    ensures { result ≡ gettable_now (memory state buys.now sells.now trades.now) asked }
{
    reading_from(asked_of(state, buys, sells, trades, asked))
}

// The same by the record's 24 bytes.
pub fn gettable<'a>(
    state: State,
    buys: &'a [u32],
    sells: &'a [u32],
    trades: &'a [u32],
    bytes: [u8; rules::COMMAND_WIDTH],
) -> Reading
    ensures { result ≡ gettable_now (memory state buys.now sells.now trades.now) (record_from bytes 0) }
{
    let asked = endian::reading::record_at(&bytes[..], 0);
    gettable_record(state, buys, sells, trades, asked)
}
