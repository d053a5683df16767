// Whether a state may be written. For this crate: each requires counts within the arrays.
ghost use Rattle.std.specs.Prelude.{◌≡◌, ◌≤◌, ◌<◌, length, take};
ghost use Rattle.laws.specs.Choice.{all};
ghost use Rattle.rules.specs.Bounds.{max_contracts, max_accounts};
ghost use Rattle.statefile.specs.StateFile.{totals_equal};
ghost use Rattle.saving.specs.Parts.{empty_pre_open_at, state_writable};

use rules::{Account, State};

// "its long and short totals are equal"
fn totals_equal(accounts: &[Account], c: usize) -> bool
    requires { (length accounts.now ≤ max_accounts) × (c < max_contracts) }
    ensures { result ≡ totals_equal accounts.now c }
{
    let mut long = 0;
    let mut short = 0;
    for a in accounts {
        let h = a.holdings[c];
        // Casts: with `u64::from` the proof does not find that a number read from a list is so small.
        long += h.long as u64;
        short += h.short as u64;
    }
    long == short
}

pub fn all_equal(list: [Account; rules::MAX_ACCOUNTS], accounts: usize, contracts: usize) -> bool
    requires { (accounts ≤ max_accounts) × (contracts ≤ max_contracts) }
    ensures { result ≡ all (totals_equal (take accounts list)) contracts }
{
    for c in 0..contracts {
        if !totals_equal(&list[..accounts], c) {
            return false;
        }
    }
    true
}

// "every contract is in pre-open", and no orders exist
fn all_empty(state: State) -> bool
    requires { state.contractcount ≤ max_contracts }
    ensures { result ≡ all (empty_pre_open_at state) state.contractcount }
{
    for c in 0..state.contractcount {
        if state.contracts[c].phase != rules::PRE_OPEN
            || state.buycounts[c] != 0
            || state.sellcounts[c] != 0
        {
            return false;
        }
    }
    true
}

pub fn is_writable(state: State) -> bool
    requires { (state.contractcount ≤ max_contracts) × (state.accountcount ≤ max_accounts) }
    ensures { result ≡ state_writable state }
{
    if !all_empty(state) {
        return false;
    }
    if !all_equal(state.accounts, state.accountcount, state.contractcount) {
        return false;
    }
    if state.tradecount != 0 {
        return false;
    }
    if state.next != 1 {
        return false;
    }
    state.nextstamp == 1
}
