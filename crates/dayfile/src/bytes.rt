// A contract and an account of a day file, out of its bytes. For the crates of this repository: each requires its bytes within
// the file.
ghost use Rattle.std.specs.Prelude.{◌≡◌, ◌+◌, ◌%◌, ◌≤◌, leb, length};
ghost use Rattle.laws.specs.Choice.{pick};
ghost use Rattle.rules.specs.DayFile.{u64_at, contract_from, maker_bit, contract_width, account_width};

use endian::reading::{u16_at, u32_at, u64_at};
use rules::Contract;

// "Bit 63 of an account's opening balance in the file marks a maker."
const MAKER_BIT: u64 = 9223372036854775808;

// An account's opening balance: the other 63 bits.
pub fn balance_at(file: &[u8], at: usize) -> u64
    requires { at + account_width ≤ length file.now }
    ensures { result ≡ u64_at file.now at % maker_bit }
{
    u64_at(file, at) % MAKER_BIT
}

// 1 for a maker, 0 for another account.
pub fn maker_at(file: &[u8], at: usize) -> u64
    requires { at + account_width ≤ length file.now }
    ensures { result ≡ pick (leb maker_bit (u64_at file.now at)) 1 0 }
{
    u64::from(MAKER_BIT <= u64_at(file, at))
}

// "A contract is 20 bytes", the last two of them its pairing method
#[tactic(auto, unfolding(rules::specs::DayFile::contract_from))]
pub fn contract_at(file: &[u8], at: usize) -> Contract
    requires { at + contract_width ≤ length file.now }
    ensures { result ≡ contract_from file.now at }
{
    let reference = u32_at(file, at + 4);
    Contract {
        multiplier: u32::from(u16_at(file, at)),
        tick: u32::from(u16_at(file, at + 2)),
        reference,
        band: u32_at(file, at + 8),
        limit: u32_at(file, at + 12),
        rate: u16_at(file, at + 16),
        method: u16_at(file, at + 18),
        phase: rules::PRE_OPEN,
        last: reference,
    }
}
