// Deposit and withdraw. For our own crates: each reads a market, and asks for the account that it names.
ghost use Rattle.std.specs.Prelude.{◌≡◌, pos, ◌+ℤ◌, ◌≤◌};
ghost use Rattle.std.specs.Int.Signed.{lt_z};
ghost use Rattle.rules.specs.Bounds.{balance_most, max_amount, max_balance};
ghost use Rattle.rules.specs.Answers.{amount_refused};
ghost use Rattle.rules.specs.declared.Command.TheVariants.{Deposit, Withdraw};
ghost use Rattle.laws.specs.Bound.{Within};
ghost use Rattle.engine.specs.Decision.{DecisionIs, HeldBy, accepted_by, decided};
ghost use Rattle.engine.specs.Market.{memory_of};
ghost use Rattle.engine.specs.declared.updates.Update.TheVariants.{Balance};

use crate::market::Market;
use crate::updates::{Decision, Update};
use crate::{answers, updates};
use rules::Account;
use rules::codes::Code;

#[tactic(auto, unfolding(rules::specs::Answers::amount_refused))]
fn amount_refused(amount: u64) -> bool
    ensures { result ≡ amount_refused amount }
{
    amount < 1 || rules::MAX_AMOUNT < amount
}

// "deposit lifts the balance above 10^18"
fn lifts_too_high(balance: i64, amount: u64) -> bool
    requires { Within balance_most balance × (amount ≤ max_amount) }
    ensures { result ≡ lt_z (pos max_balance) (balance +ℤ pos amount) }
{
    (rules::MAX_BALANCE as i64) < balance + amount as i64
}

// The account's balance changes and nothing else.
fn paid(place: usize, balance: i64) -> Decision
    ensures { result ≡ accepted_by (Balance place balance) 0 0 }
{
    updates::accepted(Update::Balance { place, balance }, 0, 0)
}

// `who` is the account.
pub fn deposit(
    market: &Market<'_>,
    who: Account,
    account: u32,
    amount: u64,
) -> Result<Decision, Code>
    requires { HeldBy market.now.state.now account who }
    ensures { DecisionIs (memory_of market.now) (Deposit account amount) (decided result) market.now.buys.now market.now.sells.now market.now.trades.now }
{
    if answers::is_absent(account, market.state.accountcount) {
        return Err(Code::NoSuchAccount);
    }
    if amount_refused(amount) {
        return Err(Code::AmountOutOfRange);
    }
    if lifts_too_high(who.balance, amount) {
        return Err(Code::AmountOutOfRange);
    }
    Ok(paid(laws::place_of(account), who.balance + amount as i64))
}

// `who` is the account.
pub fn withdraw(
    market: &Market<'_>,
    who: Account,
    account: u32,
    amount: u64,
) -> Result<Decision, Code>
    requires { HeldBy market.now.state.now account who }
    ensures { DecisionIs (memory_of market.now) (Withdraw account amount) (decided result) market.now.buys.now market.now.sells.now market.now.trades.now }
{
    let state = market.state;
    if answers::is_absent(account, state.accountcount) {
        return Err(Code::NoSuchAccount);
    }
    if amount_refused(amount) {
        return Err(Code::AmountOutOfRange);
    }
    let place = laws::place_of(account);
    let left = who.balance - amount as i64;
    let charged = margin::charged(
        who.holdings,
        state.contracts,
        state.contractcount,
        market.buys,
        state.buycounts,
        market.sells,
        state.sellcounts,
        place,
    );
    if margin::too_little(left, charged) {
        return Err(Code::TooLittleMoney);
    }
    Ok(paid(place, left))
}
