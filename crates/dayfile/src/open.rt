// A day file opened: the state that a sound file's run begins with has the file's contracts and accounts in the first places, zeros in
// the others; a broken file gets 20.
ghost use Rattle.std.specs.Prelude.{true, ◌≡◌, ◌≤◌};
ghost use Rattle.rules.specs.Bounds.{max_balance};
ghost use Rattle.rules.specs.DayFile.{sound, contracts_in, accounts_in, account_place};
ghost use Rattle.rules.specs.Exchange.{no_contract};
ghost use Rattle.dayfile.specs.Opened.{no_state, opened_from};
ghost use Rattle.dayfile.specs.Opening.{account_with, opening_contracts, opening_accounts, opening_state};

use super::bytes::{balance_at, contract_at, maker_at};
use super::file::{self, SoundFile};
use super::head::{TWO_COUNTS, account_count, contract_count};
use rules::codes::Code;
use rules::{Account, Contract, Holding, State};

#[tactic(auto, using(crate::proofs::Places::sound_layout))]
fn opening_contracts(file: &SoundFile<'_>, contracts: usize) -> [Contract; rules::MAX_CONTRACTS]
    requires { contracts ≡ contracts_in file.now.bytes.now }
    ensures { result ≡ opening_contracts file.now.bytes.now }
{
    let mut places = [Contract::default(); rules::MAX_CONTRACTS];
    for c in 0..contracts {
        places[c] = contract_at(file.bytes, rules::COUNT_WIDTH + rules::CONTRACT_WIDTH * c);
    }
    places
}

fn account_with(balance: u64, maker: u64) -> Account
    requires { balance ≤ max_balance }
    ensures { result ≡ account_with balance maker }
{
    let none = Holding {
        long: 0,
        short: 0,
        startlong: 0,
        startshort: 0,
    };
    let holdings = [none; rules::MAX_CONTRACTS];
    Account {
        balance: balance as i64,
        maker,
        holdings,
    }
}

// The accounts begin at `start`.
#[tactic(auto, using(crate::proofs::Places::sound_layout, crate::proofs::Places::account_place_lem))]
fn opening_accounts(
    file: &SoundFile<'_>,
    start: usize,
    accounts: usize,
) -> [Account; rules::MAX_ACCOUNTS]
    requires { (start ≡ account_place file.now.bytes.now 0) × (accounts ≡ accounts_in file.now.bytes.now) }
    ensures { result ≡ opening_accounts file.now.bytes.now }
{
    let none = account_with(0, 0);
    let mut places = [none; rules::MAX_ACCOUNTS];
    for a in 0..accounts {
        let at = start + rules::ACCOUNT_WIDTH * a;
        places[a] = account_with(balance_at(file.bytes, at), maker_at(file.bytes, at));
    }
    places
}

// For the crates of this repository: requires a sound file. It takes bytes, since docs/RULES.md names it.
#[tactic(auto, using(crate::proofs::Places::sound_layout, crate::proofs::Places::account_place_lem), unfolding(crate::specs::Opening::opening_state))]
pub fn opening_state(file: &[u8]) -> State
    requires { sound file.now ≡ true }
    ensures { result ≡ opening_state file.now }
{
    let contractcount = contract_count(file);
    let accountcount = account_count(file, contractcount);
    let sound = SoundFile { bytes: file };
    let contracts = opening_contracts(&sound, contractcount);
    let accounts = opening_accounts(
        &sound,
        TWO_COUNTS + rules::CONTRACT_WIDTH * contractcount,
        accountcount,
    );
    State {
        contracts,
        accounts,
        buycounts: [0; rules::MAX_CONTRACTS],
        sellcounts: [0; rules::MAX_CONTRACTS],
        contractcount,
        accountcount,
        tradecount: 0,
        next: 1,
        nextstamp: 1,
        settlements: 0,
    }
}

// 0, or 20 where the file is broken; the place of the first command's first byte in the file, and the number of commands, 24 bytes
// each; the state that the file's run begins with. With 20 all else is zero, and a call that tests the state refuses it with 21.
#[repr(C)]
#[derive(Clone, Copy)]
pub struct Opened {
    pub code: u32,
    pub first: usize,
    pub commands: usize,
    pub state: State,
}

// The state of a broken file: all zero.
fn no_state() -> State
    ensures { result ≡ no_state }
{
    let contract = Contract::default();
    let account = account_with(0, 0);
    State {
        contracts: [contract; rules::MAX_CONTRACTS],
        accounts: [account; rules::MAX_ACCOUNTS],
        buycounts: [0; rules::MAX_CONTRACTS],
        sellcounts: [0; rules::MAX_CONTRACTS],
        contractcount: 0,
        accountcount: 0,
        tradecount: 0,
        next: 0,
        nextstamp: 0,
        settlements: 0,
    }
}

// A call for users: it answers on any bytes.
#[tactic(auto, using(crate::proofs::Opened::opened_broken, crate::proofs::Opened::opened_sound))]
pub fn open_day(file: &[u8]) -> Opened
    ensures { result ≡ opened_from file.now }
{
    let Some(sound) = SoundFile::of(file) else {
        return Opened {
            code: Code::FileBroken.number(),
            first: 0,
            commands: 0,
            state: no_state(),
        };
    };
    let first = file::first_command(&sound);
    let commands = file::commands_in(&sound);
    let state = opening_state(file);
    Opened {
        code: 0,
        first,
        commands,
        state,
    }
}
