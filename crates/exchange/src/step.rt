// One command on a well-formed state: decided without a change of the state, and written where it stands; or carried out with all accounts. For
// our own crates.
ghost use Rattle.rules.specs.Memory.{memory, WellFormedState};
ghost use Rattle.commands.specs.Accounts.{account_number};
ghost use Rattle.engine.specs.Decision.{Carriable, CarriedIs, HeldBy, command_left, decided};
ghost use Rattle.exchange.specs.Decided.{DecidedIs};
ghost use Rattle.exchange.specs.Response.{ResponseIs};

use crate::settling;
use crate::settling::Response;
use changing::Asked;
use engine::answers::Outcome;
use engine::market::Market;
use engine::updates::{Carried, Decision, Pending, Quoted, Remaining, Update};
use engine::{answers, payments, removal, updates};
use rules::codes::Code;
use rules::{Account, Command, State};

// What is decided of a command. `who` is the account that it names.
pub fn decide(
    state: &State,
    who: Account,
    buys: &mut [u32],
    sells: &mut [u32],
    trades: &[u32],
    command: Command,
) -> Result<Decision, Code>
    requires { WellFormedState state.now buys.old sells.old trades.now × HeldBy state.now (account_number command) who }
    ensures { DecidedIs (memory state.now buys.old sells.old trades.now) command (decided result) buys.new sells.new trades.now }
{
    let market = Market {
        state,
        buys: &buys[..],
        sells: &sells[..],
        trades,
    };
    match command {
        Command::Malformed => Err(Code::Malformed),
        Command::Deposit { account, amount } => payments::deposit(&market, who, account, amount),
        Command::Withdraw { account, amount } => payments::withdraw(&market, who, account, amount),
        Command::Insert(o) => insertion::insert(state, who, buys, sells, trades, o),
        Command::Cancel {
            account,
            contract,
            operator,
            number,
        } => removal::cancel(
            state, buys, sells, trades, account, contract, operator, number,
        ),
        Command::Pull {
            account,
            contract,
            operator,
        } => removal::pull(state, buys, sells, trades, account, contract, operator),
        Command::Phase { contract, phase } => phases::change(&market, contract, phase),
        Command::Settle => Ok(updates::left(Update::Whole(Remaining::Settling))),
        Command::Quote {
            account,
            contract,
            lots,
            buy,
            sell,
        } => quoting::quote(
            state,
            who,
            buys,
            sells,
            trades,
            Quoted {
                account,
                contract,
                lots,
                buy,
                sell,
            },
        ),
        Command::Change {
            account,
            contract,
            number,
            lots,
            price,
        } => changing::change(
            state,
            who,
            buys,
            sells,
            trades,
            Asked {
                account,
                contract,
                number,
                lots,
                price,
            },
        ),
    }
}

// What is left of a command, carried out with all accounts.
pub fn carry_out(
    state: &State,
    buys: &mut [u32],
    sells: &mut [u32],
    trades: &mut [u32],
    pending: Pending,
) -> Carried
    requires { Carriable state.now pending buys.old sells.old trades.old }
    ensures { CarriedIs state.now pending buys.old sells.old trades.old result buys.new sells.new trades.new }
{
    match pending {
        Pending::Trading(a) => {
            let accounts = state.accounts;
            insertion::trade(accounts, a, buys, sells, trades)
        }
        Pending::Matching(contract) => {
            phases::leave_auction(state, buys, sells, trades, contract)
        }
    }
}

// What is left of a command, carried out on the whole state.
pub fn carry_whole(
    state: &State,
    buys: &mut [u32],
    sells: &mut [u32],
    trades: &mut [u32],
    remaining: Remaining,
) -> Response
    requires { WellFormedState state.now buys.old sells.old trades.old }
    ensures { ResponseIs (memory state.now buys.old sells.old trades.old) (command_left remaining) result buys.new sells.new trades.new }
{
    match remaining {
        Remaining::Quoting(q) => settling::plain(quoting::trade(state, buys, sells, trades, q)),
        Remaining::Settling => settling::settle(state, buys, sells, trades),
    }
}

pub fn step(
    state: State,
    buys: &mut [u32],
    sells: &mut [u32],
    trades: &mut [u32],
    command: Command,
) -> Response
    requires { WellFormedState state buys.old sells.old trades.old }
    ensures { ResponseIs (memory state buys.old sells.old trades.old) command result buys.new sells.new trades.new }
{
    let mut next = state;
    let a = commands::account_place(command, next.accountcount);
    let who = next.accounts[a];
    let decision = match decide(&next, who, buys, sells, &trades[..], command) {
        Ok(decision) => decision,
        Err(code) => return settling::plain(answers::refused(next, code.number())),
    };
    let mut answer = decision.answer;
    match decision.update {
        Update::Nothing => {}
        Update::Balance { place, balance } => next.accounts[place].balance = balance,
        Update::Listing(listed) => updates::write_listed(&mut next, listed),
        Update::Left(pending) => {
            let t = carry_out(&next, buys, sells, trades, pending);
            let held = t.accounts;
            next.accounts = held;
            updates::write_listed(&mut next, t.listed);
            answer = t.answer;
        }
        Update::Whole(remaining) => {
            return carry_whole(&next, buys, sells, trades, remaining);
        }
    }
    settling::plain(Outcome {
        answer,
        state: next,
    })
}
