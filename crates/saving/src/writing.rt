// A state's bytes written into a lent area. Each call but the last gives the place after what it wrote. For this crate: each requires room
// for its bytes.
ghost use Rattle.std.specs.Prelude.{◌≡◌, ℕ, ◌+◌, ◌*◌, ◌<◌, ◌≤◌, length, get_or};
ghost use Rattle.areas.specs.Lists.{over};
ghost use Rattle.rules.specs.Bounds.{max_contracts, max_accounts};
ghost use Rattle.rules.specs.DayFile.{count_width};
ghost use Rattle.endian.specs.Numbers.{four};
ghost use Rattle.endian.specs.Written.{Written};
ghost use Rattle.rules.specs.Exchange.{no_account, no_contract};
ghost use Rattle.sections.specs.Sections.{section};
ghost use Rattle.statefile.specs.StateFile.{contract_bytes, account_bytes, saved_contract_width, saved_account_width, settlements_width};
ghost use Rattle.saving.specs.Parts.{Short, Fitting, contract_section, account_section, holding_section, state_bytes};

use endian::writing::{put_byte, put_u16, put_u32, put_u64, unsigned};
use rules::{Account, Contract, State};
use sections::put_holdings;

// "the day file's 20 bytes, then last price 4"
fn put_contract(out: &mut [u8], at: usize, c: Contract) -> usize
    requires { (at + saved_contract_width ≤ length out.old) × Short c }
    ensures { Written saved_contract_width out.old at (contract_bytes c) out.new result }
{
    let multiplier = put_u16(out, at, c.multiplier as u16);
    let tick = put_u16(out, multiplier, c.tick as u16);
    let reference = put_u32(out, tick, c.reference);
    let band = put_u32(out, reference, c.band);
    let limit = put_u32(out, band, c.limit);
    let rate = put_u16(out, limit, c.rate);
    let method = put_u16(out, rate, c.method);
    put_u32(out, method, c.last)
}

// "signed balance 8, maker mark 1"
fn put_account(out: &mut [u8], at: usize, a: Account) -> usize
    requires { (at + saved_account_width ≤ length out.old) × (a.maker ≤ 1) }
    ensures { Written saved_account_width out.old at (account_bytes a) out.new result }
{
    let next = put_u64(out, at, unsigned(a.balance));
    put_byte(out, next, a.maker as u8)
}

// "Sections in a fixed order, each after its count". Two loops: one with a closure that writes an entry would be no plainer.
fn put_contract_section(out: &mut [u8], at: usize, list: &[Contract]) -> usize
    requires few { (length list.now ≤ max_contracts) × (at + length (contract_section list.now (length list.now)) ≤ length out.old) }
    requires by_index { (c : ℕ) → c < length list.now → Short (get_or list.now c no_contract) }
    ensures { Written (length (contract_section list.now (length list.now))) out.old at (contract_section list.now (length list.now)) out.new result }
{
    let mut next = put_u32(out, at, list.len() as u32);
    for c in list {
        next = put_contract(out, next, *c);
    }
    next
}

fn put_account_section(out: &mut [u8], at: usize, list: &[Account]) -> usize
    requires few { (length list.now ≤ max_accounts) × (at + length (account_section list.now (length list.now)) ≤ length out.old) }
    requires by_index { (a : ℕ) → a < length list.now → (get_or list.now a no_account).maker ≤ 1 }
    ensures { Written (length (account_section list.now (length list.now))) out.old at (account_section list.now (length list.now)) out.new result }
{
    let mut next = put_u32(out, at, list.len() as u32);
    for a in list {
        next = put_account(out, next, *a);
    }
    next
}

fn put_holding_section(
    out: &mut [u8],
    at: usize,
    list: [Account; rules::MAX_ACCOUNTS],
    n: usize,
    contracts: usize,
) -> usize
    requires { (n ≤ max_accounts) × (contracts ≤ max_contracts) × (at + length (holding_section list n contracts) ≤ length out.old) }
    ensures { Written (length (holding_section list n contracts)) out.old at (holding_section list n contracts) out.new result }
{
    let next = put_u32(out, at, (n * contracts) as u32);
    put_holdings(out, next, list, n, contracts)
}

// "the settlement count (4) as a section of one"
fn put_settlements(out: &mut [u8], at: usize, settlements: u32) -> usize
    requires { at + (count_width + settlements_width) ≤ length out.old }
    ensures { Written (count_width + settlements_width) out.old at (section 1 (four settlements)) out.new result }
{
    let next = put_u32(out, at, 1);
    put_u32(out, next, settlements)
}

pub fn put_state(state: State, out: &mut [u8])
    requires { Fitting state out.old }
    ensures { out.new ≡ over out.old 0 (state_bytes state) }
{
    let contracts = state.contractcount;
    let accounts = state.accountcount;
    let first = put_contract_section(out, 0, &state.contracts[..contracts]);
    let second = put_account_section(out, first, &state.accounts[..accounts]);
    let third = put_holding_section(out, second, state.accounts, accounts, contracts);
    put_settlements(out, third, state.settlements);
}
