// The part of a day file before its commands, for any bytes at all. A count is tested before it is multiplied, and a part of the
// file is read once the file is known to reach so far.
ghost use Rattle.std.specs.Prelude.{true, false, ◌≡◌, ◌+◌, ◌*◌, ◌<◌, ◌≤◌, length, MatchOption};
ghost use Rattle.laws.specs.Choice.{all};
ghost use Rattle.rules.specs.Bounds.{max_contracts, max_accounts};
ghost use Rattle.rules.specs.DayFile.{contracts_in, accounts_in, commands_in, contract_place, account_place, command_place, contract_sound, account_sound, count_width, contract_width, account_width};
ghost use Rattle.dayfile.specs.FileHead.{count_before, head_whole, head_sound};

use super::bytes::{balance_at, contract_at};
use endian::reading::u32_at;

// The counts before the accounts, and before the commands.
pub const TWO_COUNTS: usize = 2 * rules::COUNT_WIDTH;

const THREE_COUNTS: usize = 3 * rules::COUNT_WIDTH;

// Each count stands behind the section before it. For the crates of this repository: each requires the counts before it, and
// a file that reaches so far.
#[tactic(auto, using(crate::proofs::Places::contracts_read))]
pub fn contract_count(file: &[u8]) -> usize
    requires { count_width ≤ length file.now }
    ensures { result ≡ contracts_in file.now }
{
    u32_at(file, 0) as usize
}

#[tactic(auto, using(crate::proofs::Places::accounts_read))]
pub fn account_count(file: &[u8], contracts: usize) -> usize
    requires { (contracts ≡ contracts_in file.now) × (contracts ≤ max_contracts) × (2 * count_width + contract_width * contracts ≤ length file.now) }
    ensures { result ≡ accounts_in file.now }
{
    u32_at(file, rules::COUNT_WIDTH + rules::CONTRACT_WIDTH * contracts) as usize
}

#[tactic(auto, unfolding(rules::specs::DayFile::contract_place, rules::specs::DayFile::contract_sound))]
fn contract_sound(file: &[u8], c: usize) -> bool
    requires { (c < max_contracts) × (contract_place (c + 1) ≤ length file.now) }
    ensures { result ≡ contract_sound file.now c }
{
    terms::terms_in_range(contract_at(file, rules::COUNT_WIDTH + rules::CONTRACT_WIDTH * c))
}

pub fn contracts_sound(file: &[u8], contracts: usize) -> bool
    requires { (contracts ≤ max_contracts) × (contract_place contracts ≤ length file.now) }
    ensures { result ≡ all (contract_sound file.now) contracts }
{
    for c in 0..contracts {
        if !contract_sound(file, c) {
            return false;
        }
    }
    true
}

// The accounts begin at `start`.
pub fn accounts_sound(file: &[u8], start: usize, accounts: usize) -> bool
    requires { (accounts ≤ max_accounts) × (start ≡ account_place file.now 0) × (start + account_width * accounts ≤ length file.now) }
    ensures { result ≡ all (account_sound file.now) accounts }
{
    for a in 0..accounts {
        if rules::MAX_BALANCE < balance_at(file, start + rules::ACCOUNT_WIDTH * a) {
            return false;
        }
    }
    true
}

// The count that ends at a place, of any bytes: none where the file ends before, or the count is 0 or above the most. For the crates of
// this repository: a saved state's counts are read by it too. Requires a place behind four bytes.
pub fn count_before(file: &[u8], end: usize, most: usize) -> Option<usize>
    requires { count_width ≤ end }
    ensures { MatchOption result (count_before file.now end most ≡ 0) (λ n. (n ≡ count_before file.now end most) × (1 ≤ n) × (n ≤ most)) }
{
    if file.len() < end {
        return None;
    }
    let count = u32_at(file, end - rules::COUNT_WIDTH) as usize;
    if count == 0 || most < count {
        return None;
    }
    Some(count)
}

#[tactic(auto, using(crate::proofs::Places::no_contracts_lem, crate::proofs::Places::no_accounts_lem, crate::proofs::Places::reach_decides))]
fn head_whole(file: &[u8]) -> bool
    ensures { result ≡ head_whole file.now }
{
    let Some(contracts) = count_before(file, rules::COUNT_WIDTH, rules::MAX_CONTRACTS) else {
        return false;
    };
    let end = TWO_COUNTS + rules::CONTRACT_WIDTH * contracts;
    let Some(accounts) = count_before(file, end, rules::MAX_ACCOUNTS) else {
        return false;
    };
    THREE_COUNTS + rules::CONTRACT_WIDTH * contracts + rules::ACCOUNT_WIDTH * accounts <= file.len()
}

#[tactic(auto, using(crate::proofs::Places::head_is, crate::proofs::Places::head, crate::proofs::Places::account_place_lem, crate::proofs::Places::contract_place_lem))]
pub fn head_sound(file: &[u8]) -> bool
    ensures { result ≡ head_sound file.now }
{
    if !head_whole(file) {
        return false;
    }
    let contracts = contract_count(file);
    if !contracts_sound(file, contracts) {
        return false;
    }
    let accounts = account_count(file, contracts);
    accounts_sound(
        file,
        TWO_COUNTS + rules::CONTRACT_WIDTH * contracts,
        accounts,
    )
}

// A file whose head was tested: so what takes one asks for nothing more. For the crates of this repository.
#[derive(Clone, Copy)]
pub struct Head<'a> {
    pub bytes: &'a [u8],

    pub ghost sound: { head_sound bytes.now ≡ true },
}

impl<'a> Head<'a> {
    // A file whose head is not sound can be neither run nor mended: code 20.
    pub fn of(bytes: &'a [u8]) -> Option<Self>
        ensures { MatchOption result (head_sound bytes.now ≡ false) (λ head. head.bytes.now ≡ bytes.now) }
    {
        if !head_sound(bytes) {
            return None;
        }
        Some(Head { bytes })
    }
}

// Where the first command's record begins.
#[tactic(auto, using(crate::proofs::Places::sound_head, crate::proofs::Places::command_place_lem))]
pub fn head_end(head: &Head<'_>) -> usize
    ensures { result ≡ command_place head.now.bytes.now 0 }
{
    let contracts = contract_count(head.bytes);
    let accounts = account_count(head.bytes, contracts);
    THREE_COUNTS + rules::CONTRACT_WIDTH * contracts + rules::ACCOUNT_WIDTH * accounts
}

// How many commands the file says it has.
#[tactic(auto, using(crate::proofs::Places::sound_head, crate::proofs::Places::command_place_lem, crate::proofs::Places::commands_before))]
pub fn command_count(head: &Head<'_>) -> usize
    ensures { result ≡ commands_in head.now.bytes.now }
{
    let end = head_end(head);
    u32_at(head.bytes, end - rules::COUNT_WIDTH) as usize
}
