// Bytes and little-endian numbers written into a lent area, and a signed number as eight bytes hold it. For the crates of this
// repository: a call that writes requires room, and gives the place after what it wrote.
// Buffer and place stay two parameters: a struct of both needs a clause more in each contract, that it still holds the same buffer.
ghost use Rattle.std.specs.Prelude.{[], ◌∷◌, ◌≡◌, ◌+◌, ◌≤◌, nat_abs, length, take, drop};
ghost use Rattle.endian.specs.Numbers as numbers;
ghost use Rattle.endian.specs.Numbers.{two, four, eight};
ghost use Rattle.endian.specs.Written.{Written};

pub fn put_byte(out: &mut [u8], at: usize, byte: u8) -> usize
    requires { at + 1 ≤ length out.old }
    ensures { Written 1 out.old at (byte ∷ []) out.new result }
{
    out[at] = byte;
    at + 1
}

// A function for each width, since each integer type has a `to_le_bytes` of its own, and each width its definition.
pub fn put_u16(out: &mut [u8], at: usize, n: u16) -> usize
    requires { at + 2 ≤ length out.old }
    ensures { Written 2 out.old at (two n) out.new result }
{
    out[at..at + 2].copy_from_slice(&n.to_le_bytes());
    at + 2
}

pub fn put_u32(out: &mut [u8], at: usize, n: u32) -> usize
    requires { at + 4 ≤ length out.old }
    ensures { Written 4 out.old at (four n) out.new result }
{
    out[at..at + 4].copy_from_slice(&n.to_le_bytes());
    at + 4
}

pub fn put_u64(out: &mut [u8], at: usize, n: u64) -> usize
    requires { at + 8 ≤ length out.old }
    ensures { Written 8 out.old at (eight n) out.new result }
{
    out[at..at + 8].copy_from_slice(&n.to_le_bytes());
    at + 8
}

// How far x is from 0.
pub fn magnitude(x: i64) -> u64
    ensures { result ≡ nat_abs x }
{
    x.unsigned_abs()
}

// A signed number as its eight bytes hold it.
#[tactic(auto, unfolding(crate::specs::Numbers::unsigned))]
pub fn unsigned(x: i64) -> u64
    ensures { result ≡ numbers.unsigned x }
{
    x.cast_unsigned()
}

// The n bytes of the file from `from` on. The library's copy, under the name and definition of what it is for.
pub fn put_part(out: &mut [u8], at: usize, file: &[u8], from: usize, n: usize) -> usize
    requires { (at + n ≤ length out.old) × (from + n ≤ length file.now) }
    ensures { Written n out.old at (take n (drop from file.now)) out.new result }
{
    out[at..at + n].copy_from_slice(&file[from..from + n]);
    at + n
}
