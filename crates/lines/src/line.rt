// The C, T, P and B lines: a letter, the fields with a space before each, a newline.
ghost use Rattle.std.specs.Prelude.{[], ◌∷◌, ◌+◌, ◌≤◌, length};
ghost use Rattle.rules.specs.Lines.{decimal, signed, fields_of, answer_line, trade_line, broken_line, space};
ghost use Rattle.endian.specs.Written.{Written};
ghost use Rattle.lines.specs.Tables.{price_line, account_line, field_most, signed_field_most, answer_line_most, trade_line_most, price_line_most, account_line_most, broken_line_most};

use super::number::{DIGITS_MOST, put_decimal, put_signed};
use endian::writing::put_byte;
use rules::codes::Code;
use rules::{Answer, Trade};

// How many bytes a field may have, a space and twenty digits, and one with a sign.
const FIELD_MOST: usize = 1 + DIGITS_MOST;

const SIGNED_FIELD_MOST: usize = 1 + FIELD_MOST;

// How many bytes a line may have: its letter, its fields, a newline.
pub const ANSWER_LINE_MOST: usize = 1 + 5 * FIELD_MOST + 1;

pub const TRADE_LINE_MOST: usize = 1 + 6 * FIELD_MOST + 1;

pub const PRICE_LINE_MOST: usize = 1 + 2 * FIELD_MOST + 1;

pub const ACCOUNT_LINE_MOST: usize = 1 + 2 * FIELD_MOST + 3 * SIGNED_FIELD_MOST + 1;

pub const BROKEN_LINE_MOST: usize = 1 + FIELD_MOST + 1;

// Two functions for a field, since each writes by a definition of its own: `decimal` and `signed`.
pub fn put_field(out: &mut [u8], at: usize, n: u64) -> usize
    requires { at + field_most ≤ length out.old }
    ensures { Written field_most out.old at (space ∷ decimal n) out.new result }
{
    let next = put_byte(out, at, b' ');
    put_decimal(out, next, n)
}

pub fn put_signed_field(out: &mut [u8], at: usize, x: i64) -> usize
    requires { at + signed_field_most ≤ length out.old }
    ensures { Written signed_field_most out.old at (space ∷ signed x) out.new result }
{
    let next = put_byte(out, at, b' ');
    put_signed(out, next, x)
}

// A line's letter and its first field.
fn put_first(out: &mut [u8], at: usize, letter: u8, n: u64) -> usize
    requires { at + (1 + field_most) ≤ length out.old }
    ensures { Written (1 + field_most) out.old at (letter ∷ space ∷ decimal n) out.new result }
{
    let next = put_byte(out, at, letter);
    put_field(out, next, n)
}

// A line's last field and the newline.
fn put_last(out: &mut [u8], at: usize, n: u64) -> usize
    requires { at + (field_most + 1) ≤ length out.old }
    ensures { Written (field_most + 1) out.old at (fields_of (decimal n ∷ [])) out.new result }
{
    let next = put_field(out, at, n);
    put_byte(out, next, b'\n')
}

// "C: command, code, order, traded, rested or removed."
pub fn put_answer(out: &mut [u8], at: usize, k: u64, a: Answer) -> usize
    requires { at + answer_line_most ≤ length out.old }
    ensures { Written answer_line_most out.old at (answer_line k a) out.new result }
{
    let command = put_first(out, at, b'C', k);
    let code = put_field(out, command, u64::from(a.code));
    let order = put_field(out, code, u64::from(a.number));
    let traded = put_field(out, order, u64::from(a.traded));
    put_last(out, traded, u64::from(a.lots))
}

// "T: trade of the day, contract, price, lots, buy order, sell order."
pub fn put_trade(out: &mut [u8], at: usize, k: u64, t: Trade) -> usize
    requires { at + trade_line_most ≤ length out.old }
    ensures { Written trade_line_most out.old at (trade_line k t) out.new result }
{
    let trade = put_first(out, at, b'T', k);
    let contract = put_field(out, trade, u64::from(t.contract) + 1);
    let price = put_field(out, contract, u64::from(t.price));
    let lots = put_field(out, price, u64::from(t.lots));
    let buyer = put_field(out, lots, u64::from(t.buyorder));
    put_last(out, buyer, u64::from(t.sellorder))
}

// "P: contract, settlement price." c is the contract's place.
pub fn put_price(out: &mut [u8], at: usize, c: u32, price: u32) -> usize
    requires { at + price_line_most ≤ length out.old }
    ensures { Written price_line_most out.old at (price_line c price) out.new result }
{
    let contract = put_first(out, at, b'P', u64::from(c) + 1);
    put_last(out, contract, u64::from(price))
}

// "B: account, closing and holding profit, balance, charged margin." a is the account's place.
pub fn put_account(
    out: &mut [u8],
    at: usize,
    a: u32,
    closing: i64,
    holding: i64,
    balance: i64,
    charged: u64,
) -> usize
    requires { at + account_line_most ≤ length out.old }
    ensures { Written account_line_most out.old at (account_line a closing holding balance charged) out.new result }
{
    let account = put_first(out, at, b'B', u64::from(a) + 1);
    let closed = put_signed_field(out, account, closing);
    let held = put_signed_field(out, closed, holding);
    let owned = put_signed_field(out, held, balance);
    put_last(out, owned, charged)
}

// "A broken file prints `X 20`."
pub fn put_broken(out: &mut [u8], at: usize) -> usize
    requires { at + broken_line_most ≤ length out.old }
    ensures { Written broken_line_most out.old at broken_line out.new result }
{
    let letter = put_byte(out, at, b'X');
    put_last(out, letter, u64::from(Code::FileBroken.number()))
}
