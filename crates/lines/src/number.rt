// Numbers as decimal digits, in ASCII.
ghost use Rattle.std.specs.Prelude.{◌+◌, ◌≤◌, length};
ghost use Rattle.rules.specs.Lines.{digits, decimal, signed, digits_most};
ghost use Rattle.endian.specs.Written.{Written};
ghost use Rattle.lines.specs.Tables.{signed_most};

use endian::writing::{magnitude, put_byte};

// The last `places` digits of n, or fewer where n has fewer.
fn put_digits(out: &mut [u8], at: usize, places: usize, n: u64) -> usize
    requires { at + places ≤ length out.old }
    ensures { Written places out.old at (digits places n) out.new result }
{
    if places == 0 {
        return at;
    }
    if n < 10 {
        return put_byte(out, at, b'0' + n as u8);
    }
    let next = put_digits(out, at, places - 1, n / 10);
    let last = n % 10;
    put_byte(out, next, b'0' + last as u8)
}

// Twenty digits hold every u64.
pub const DIGITS_MOST: usize = 20;

#[tactic(auto, unfolding(rules::specs::Lines::decimal))]
pub fn put_decimal(out: &mut [u8], at: usize, n: u64) -> usize
    requires { at + digits_most ≤ length out.old }
    ensures { Written digits_most out.old at (decimal n) out.new result }
{
    put_digits(out, at, DIGITS_MOST, n)
}

pub fn put_signed(out: &mut [u8], at: usize, x: i64) -> usize
    requires { at + signed_most ≤ length out.old }
    ensures { Written signed_most out.old at (signed x) out.new result }
{
    let n = magnitude(x);
    if x < 0 {
        let next = put_byte(out, at, b'-');
        return put_decimal(out, next, n);
    }
    put_decimal(out, at, n)
}
