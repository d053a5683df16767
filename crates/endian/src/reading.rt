// Little-endian numbers, signed ones too, and a command's record. For the crates of this repository: a call that reads a file requires
// its bytes within it.
ghost use Rattle.std.specs.Prelude.{◌≡◌, ◌+◌, ◌<◌, ◌≤◌, length};
ghost use Rattle.rules.specs.DayFile.{u8_at, u16_at, u32_at, u64_at, record_from, command_width};
ghost use Rattle.endian.specs.Numbers.{signed_of};

use rules::Record;

#[tactic(auto, unfolding(rules::specs::DayFile::u8_at))]
pub fn u8_at(file: &[u8], at: usize) -> u8
    requires { at + 1 ≤ length file.now }
    ensures { result ≡ u8_at file.now at }
{
    file[at]
}

#[tactic(auto, unfolding(rules::specs::DayFile::u16_at, rules::specs::DayFile::u8_at))]
pub fn u16_at(file: &[u8], at: usize) -> u16
    requires { at + 2 ≤ length file.now }
    ensures { result ≡ u16_at file.now at }
{
    u16::from_le_bytes([file[at], file[at + 1]])
}

#[tactic(auto, unfolding(rules::specs::DayFile::u32_at, rules::specs::DayFile::u16_at, rules::specs::DayFile::u8_at))]
pub fn u32_at(file: &[u8], at: usize) -> u32
    requires { at + 4 ≤ length file.now }
    ensures { result ≡ u32_at file.now at }
{
    u32::from_le_bytes([file[at], file[at + 1], file[at + 2], file[at + 3]])
}

#[tactic(auto, unfolding(rules::specs::DayFile::u64_at, rules::specs::DayFile::u32_at, rules::specs::DayFile::u16_at, rules::specs::DayFile::u8_at))]
pub fn u64_at(file: &[u8], at: usize) -> u64
    requires { at + 8 ≤ length file.now }
    ensures { result ≡ u64_at file.now at }
{
    u64::from_le_bytes([
        file[at],
        file[at + 1],
        file[at + 2],
        file[at + 3],
        file[at + 4],
        file[at + 5],
        file[at + 6],
        file[at + 7],
    ])
}

// A signed number from its eight bytes.
#[tactic(auto, unfolding(crate::specs::Numbers::signed_of))]
pub fn signed(n: u64) -> i64
    ensures { result ≡ signed_of n }
{
    n.cast_signed()
}

// "A command is 24 bytes"
#[tactic(auto, unfolding(rules::specs::DayFile::record_from))]
pub fn record_at(file: &[u8], at: usize) -> Record
    requires { at + command_width ≤ length file.now }
    ensures { result ≡ record_from file.now at }
{
    Record {
        kind: u8_at(file, at),
        account: u8_at(file, at + 1),
        contract: u8_at(file, at + 2),
        flags: u8_at(file, at + 3),
        lots: u32_at(file, at + 4),
        price: u32_at(file, at + 8),
        number: u32_at(file, at + 12),
        amount: u64_at(file, at + 16),
    }
}
