// Answers, and the tests that several kinds share.
ghost use Rattle.std.specs.Prelude.{◌≡◌, ◌<◌, ◌≤◌};
ghost use Rattle.rules.specs.Bounds.{max_accounts, max_contracts};
ghost use Rattle.rules.specs.Codes.{code_in};
ghost use Rattle.rules.specs.Exchange.{is_absent};
ghost use Rattle.engine.specs.Decision.{outcome_of};
ghost use Rattle.engine.specs.Outcome.{AbsentIs, refused_with, accepted_with};

use crate::updates;
use crate::updates::Carried;
use rules::codes::Code;
use rules::{Answer, State};

// An answer and the state after it.
#[derive(Clone, Copy)]
pub struct Outcome {
    pub answer: Answer,
    pub state: State,
}

// "a refusal gives three zeros and changes nothing"
pub fn refused(state: State, code: u32) -> Outcome
    ensures { result ≡ refused_with state code }
{
    Outcome {
        answer: Answer {
            code,
            number: 0,
            traded: 0,
            lots: 0,
        },
        state,
    }
}

pub fn accepted(state: State, number: u32, traded: u32, lots: u32) -> Outcome
    ensures { result ≡ accepted_with state number traded lots }
{
    Outcome {
        answer: Answer {
            code: 0,
            number,
            traded,
            lots,
        },
        state,
    }
}

// What was carried out, written into the state.
pub fn carried(state: State, r: Carried) -> Outcome
    requires { r.listed.place < max_contracts }
    ensures { result ≡ outcome_of state r }
{
    let mut next = state;
    let accounts = r.accounts;
    next.accounts = accounts;
    updates::write_listed(&mut next, r.listed);
    Outcome {
        answer: r.answer,
        state: next,
    }
}

// A number that no place has: 0, or above the count.
pub fn is_absent(number: u32, count: usize) -> bool
    ensures { result ≡ is_absent number count }
{
    number == 0 || count < number as usize
}

// 2 and 3: "account 0 or absent", "contract 0 or absent". Requires at most 32 accounts.
pub fn absent_code(
    accounts: usize,
    contracts: usize,
    account: u32,
    contract: u32,
) -> Result<(), Code>
    requires { accounts ≤ max_accounts }
    ensures { AbsentIs accounts contracts account contract (code_in result) }
{
    if is_absent(account, accounts) {
        return Err(Code::NoSuchAccount);
    }
    if is_absent(contract, contracts) {
        return Err(Code::NoSuchContract);
    }
    Ok(())
}
