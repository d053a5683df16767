// The statement's bytes written into a lent area. Each call gives the place after what it wrote. For the crates of this repository: each
// requires room for its bytes.
ghost use Rattle.std.specs.Prelude.{[], ◌≡◌, ℕ, ◌+◌, ◌*◌, ◌<◌, ◌≤◌, eqb, length, get_or};
ghost use Rattle.laws.specs.Choice.{pick};
ghost use Rattle.areas.specs.Lists.{over};
ghost use Rattle.rules.specs.Bounds.{max_contracts};
ghost use Rattle.rules.specs.Exchange.{no_trade};
ghost use Rattle.rules.specs.Memory.{recorded_trades, trade_stride};
ghost use Rattle.endian.specs.Written.{Written};
ghost use Rattle.clients.specs.Clients.{is_client, max_clients};
ghost use Rattle.statements.specs.Statement.{leg_width, profit_width};
ghost use Rattle.statements.specs.Parts.{book_bytes, Tellable, told};
ghost use Rattle.statements.specs.Statement as statement;

use book::trades;
use endian::writing::{put_byte, put_u32, put_u64, unsigned};
use rules::{Account, Trade};
use sections::put_holdings;

// How many bytes a leg and a client's profit take.
pub const LEG_WIDTH: usize = 16;

pub const PROFIT_WIDTH: usize = 16;

// "marks are 0 or 1"
fn mark(close: u32) -> u8
    ensures { result ≡ pick (eqb close 0) 0 1 }
{
    u8::from(close != 0)
}

// A leg of the client at a place.
fn put_leg(
    out: &mut [u8],
    at: usize,
    t: Trade,
    place: u32,
    sell: u8,
    close: u32,
    order: u32,
) -> usize
    requires { (at + leg_width ≤ length out.old) × (place < max_clients) × (t.contract < max_contracts) }
    ensures { Written leg_width out.old at (statement.leg_bytes t place sell close order) out.new result }
{
    let client = place + 1;
    let contract = t.contract + 1;
    let first = put_byte(out, at, client as u8);
    let second = put_byte(out, first, contract as u8);
    let third = put_byte(out, second, sell);
    let fourth = put_byte(out, third, mark(close));
    let price = put_u32(out, fourth, t.price);
    let lots = put_u32(out, price, t.lots);
    put_u32(out, lots, order)
}

// A leg, where it is a client's.
fn put_side(
    out: &mut [u8],
    at: usize,
    t: Trade,
    place: u32,
    sell: u8,
    close: u32,
    order: u32,
) -> usize
    requires { (at + length (pick (is_client place) (statement.leg_bytes t place sell close order) []) ≤ length out.old) × (t.contract < max_contracts) }
    ensures { Written leg_width out.old at (pick (is_client place) (statement.leg_bytes t place sell close order) []) out.new result }
{
    if clients::MAX_CLIENTS <= place {
        return at;
    }
    put_leg(out, at, t, place, sell, close, order)
}

// "the buyer's first"
fn put_trade(out: &mut [u8], at: usize, t: Trade) -> usize
    requires { (at + length (statement.trade_bytes t) ≤ length out.old) × (t.contract < max_contracts) }
    ensures { Written (2 * leg_width) out.old at (statement.trade_bytes t) out.new result }
{
    let next = put_side(out, at, t, t.buyer, 0, t.buyclose, t.buyorder);
    put_side(out, next, t, t.seller, 1, t.sellclose, t.sellorder)
}

// The trades come as an area and a count, and not as a `Trades`: docs/RULES.md names this call.
fn put_trades(area: &[u32], count: usize, out: &mut [u8], at: usize) -> usize
    requires count_in_bounds { (trade_stride * count ≤ length area.now) × (at + length (statement.trades_bytes (recorded_trades area.now count)) ≤ length out.old) }
    requires by_index { (i : ℕ) → i < count → (get_or (recorded_trades area.now count) i no_trade).contract < max_contracts }
    ensures { Written (length (statement.trades_bytes (recorded_trades area.now count))) out.old at (statement.trades_bytes (recorded_trades area.now count)) out.new result }
{
    let mut next = at;
    for i in 0..count {
        next = put_trade(out, next, trades::trade_at(area, i));
    }
    next
}

fn put_profit(out: &mut [u8], at: usize, closing: i64, holding: i64) -> usize
    requires { at + profit_width ≤ length out.old }
    ensures { Written profit_width out.old at (statement.profit_bytes closing holding) out.new result }
{
    let next = put_u64(out, at, unsigned(closing));
    put_u64(out, next, unsigned(holding))
}

// Closing and holding profit come in two arrays, as a settlement gives them.
fn put_profits(
    out: &mut [u8],
    at: usize,
    closing: [i64; rules::MAX_ACCOUNTS],
    holding: [i64; rules::MAX_ACCOUNTS],
    clients: usize,
) -> usize
    requires { (clients ≤ max_clients) × (at + length (book_bytes closing holding clients) ≤ length out.old) }
    ensures { Written (length (book_bytes closing holding clients)) out.old at (book_bytes closing holding clients) out.new result }
{
    let mut next = at;
    for k in 0..clients {
        next = put_profit(out, next, closing[k], holding[k]);
    }
    next
}

// The three sections, each after its count. The trades come as `put_trades` takes them.
pub fn put_statement(
    out: &mut [u8],
    area: &[u32],
    count: usize,
    legs: usize,
    accounts: [Account; rules::MAX_ACCOUNTS],
    closing: [i64; rules::MAX_ACCOUNTS],
    holding: [i64; rules::MAX_ACCOUNTS],
    clients: usize,
    contracts: usize,
)
    requires { Tellable area.now count legs accounts closing holding clients contracts out.old }
    ensures { out.new ≡ over out.old 0 (told (recorded_trades area.now count) legs accounts closing holding clients contracts) }
{
    let first = put_u32(out, 0, legs as u32);
    let second = put_trades(area, count, out, first);
    let entries = clients * contracts;
    let third = put_u32(out, second, entries as u32);
    let fourth = put_holdings(out, third, accounts, clients, contracts);
    let fifth = put_u32(out, fourth, clients as u32);
    put_profits(out, fifth, closing, holding, clients);
}
