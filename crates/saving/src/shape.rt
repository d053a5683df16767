// The counts and the length of a saved file, and its makers' marks. A count is tested before it is multiplied, and a part of the file is
// read once the file is known to reach so far.
ghost use Rattle.std.specs.Prelude.{true, false, ◌≡◌, ◌+◌, ◌≤◌, MatchOption};
ghost use Rattle.laws.specs.Choice.{all};
ghost use Rattle.rules.specs.Bounds.{max_contracts, max_accounts};
ghost use Rattle.statefile.specs.StateFile as statefile;
ghost use Rattle.saving.specs.Parts.{Laid, saved_most};

use dayfile::head::{TWO_COUNTS, count_before};
use endian::reading::{u8_at, u32_at};
use sections::HOLDING_WIDTH;

// How many bytes a last price, a balance, a maker's mark and the lots of one side of a holding take.
const PRICE_WIDTH: usize = 4;

pub const BALANCE_WIDTH: usize = 8;

const MARK_WIDTH: usize = 1;

pub const LOTS_WIDTH: usize = 4;

// A contract, the day file's and the last price; an account, its balance and its mark; and the settlement count.
pub const SAVED_CONTRACT_WIDTH: usize = rules::CONTRACT_WIDTH + PRICE_WIDTH;

pub const SAVED_ACCOUNT_WIDTH: usize = BALANCE_WIDTH + MARK_WIDTH;

pub const SETTLEMENTS_WIDTH: usize = 4;

// How many bytes every file has, however many contracts and accounts: the counts of all four sections and the settlement count; and
// how many of them are the last section's.
const FIXED_WIDTH: usize = 4 * rules::COUNT_WIDTH + SETTLEMENTS_WIDTH;

const LAST_SECTION: usize = rules::COUNT_WIDTH + SETTLEMENTS_WIDTH;

// Before the first account's mark, the contracts aside: two counts and the balance.
const FIRST_MARK: usize = TWO_COUNTS + BALANCE_WIDTH;

// How many bytes a file of so many contracts and accounts has.
pub fn file_length(contracts: usize, accounts: usize) -> usize
    requires { (contracts ≤ max_contracts) × (accounts ≤ max_accounts) }
    ensures { (result ≡ statefile.settlements_place contracts accounts + statefile.settlements_width) × (result ≤ saved_most) }
{
    FIXED_WIDTH
        + SAVED_CONTRACT_WIDTH * contracts
        + SAVED_ACCOUNT_WIDTH * accounts
        + HOLDING_WIDTH * contracts * accounts
}

// A saved file that was tested to be as long as its counts say: so what takes one asks for nothing more.
#[derive(Clone, Copy)]
pub struct SavedFile<'a> {
    pub bytes: &'a [u8],
    pub contracts: usize,
    pub accounts: usize,

    pub ghost laid: { Laid bytes.now contracts accounts },
}

impl<'a> SavedFile<'a> {
    pub fn of(bytes: &'a [u8]) -> Option<Self>
        ensures { MatchOption result (statefile.shaped bytes.now ≡ false) (λ file. (statefile.shaped bytes.now ≡ true) × (file.bytes.now ≡ bytes.now)) }
    {
        let contracts = count_before(bytes, rules::COUNT_WIDTH, rules::MAX_CONTRACTS)?;
        let end = TWO_COUNTS + SAVED_CONTRACT_WIDTH * contracts;
        let accounts = count_before(bytes, end, rules::MAX_ACCOUNTS)?;
        if bytes.len() != file_length(contracts, accounts) {
            return None;
        }
        let file = SavedFile {
            bytes,
            contracts,
            accounts,
        };
        if !counts_right(&file) {
            return None;
        }
        Some(file)
    }
}

// The counts of the last two sections.
fn counts_right(file: &SavedFile<'_>) -> bool
    ensures { result ≡ statefile.counts_right file.now.bytes.now }
{
    let at = TWO_COUNTS
        + SAVED_CONTRACT_WIDTH * file.contracts
        + SAVED_ACCOUNT_WIDTH * file.accounts;
    let holdings = u32_at(file.bytes, at) as usize;
    if holdings != file.accounts * file.contracts {
        return false;
    }
    u32_at(file.bytes, file.bytes.len() - LAST_SECTION) == 1
}

// "maker mark 1, its value 0 or 1"
pub fn marks_sound(file: &SavedFile<'_>) -> bool
    ensures { result ≡ all (statefile.mark_sound file.now.bytes.now) file.now.accounts }
{
    let first = FIRST_MARK + SAVED_CONTRACT_WIDTH * file.contracts;
    for a in 0..file.accounts {
        if 1 < u8_at(file.bytes, first + SAVED_ACCOUNT_WIDTH * a) {
            return false;
        }
    }
    true
}
