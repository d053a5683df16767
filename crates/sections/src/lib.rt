// What the files of client statements and of saved states share (tickets 9 and 10 of document 02): sections, each after its count, and
// the holdings of accounts. For the crates of this repository: each call requires room for its bytes, and gives the place after them.
#![tactic(auto)]

ghost use Rattle.std.specs.Prelude.{◌+◌, ◌≤◌, length};
ghost use Rattle.rules.specs.Bounds.{max_contracts, max_accounts};
ghost use Rattle.endian.specs.Written.{Written};
ghost use Rattle.sections.specs.Sections.{account_holdings, holding_bytes, holding_width, holdings_bytes};

use endian::writing::put_u32;
use rules::{Account, Holding};

// How many bytes a holding takes.
pub const HOLDING_WIDTH: usize = 8;

fn put_holding(out: &mut [u8], at: usize, h: Holding) -> usize
    requires { at + holding_width ≤ length out.old }
    ensures { Written holding_width out.old at (holding_bytes h) out.new result }
{
    let next = put_u32(out, at, h.long);
    put_u32(out, next, h.short)
}

// What one account holds.
fn put_account(out: &mut [u8], at: usize, a: Account, contracts: usize) -> usize
    requires { (contracts ≤ max_contracts) × (at + length (account_holdings a contracts) ≤ length out.old) }
    ensures { Written (length (account_holdings a contracts)) out.old at (account_holdings a contracts) out.new result }
{
    let mut next = at;
    for h in &a.holdings[..contracts] {
        next = put_holding(out, next, *h);
    }
    next
}

// The holdings of so many accounts, by account then contract.
pub fn put_holdings(
    out: &mut [u8],
    at: usize,
    accounts: [Account; rules::MAX_ACCOUNTS],
    count: usize,
    contracts: usize,
) -> usize
    requires { (count ≤ max_accounts) × (contracts ≤ max_contracts) × (at + length (holdings_bytes accounts count contracts) ≤ length out.old) }
    ensures { Written (length (holdings_bytes accounts count contracts)) out.old at (holdings_bytes accounts count contracts) out.new result }
{
    let mut next = at;
    for a in &accounts[..count] {
        next = put_account(out, next, *a, contracts);
    }
    next
}
