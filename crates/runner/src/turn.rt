// One command of a day: its step, and its lines printed into a lent buffer. For our own crates: each asks for room for the
// longest lines that it can print, and `play_record` for a well-formed state.
ghost use Rattle.std.specs.Prelude.{◌+◌, ◌≤◌, length};
ghost use Rattle.rules.specs.Bounds.{max_contracts, max_accounts};
ghost use Rattle.rules.specs.Command.{command_of};
ghost use Rattle.rules.specs.Memory.{memory, WellFormedState};
ghost use Rattle.endian.specs.Written.{Written};
ghost use Rattle.runner.specs.Rows.{settlement_rows, report_rows, response_rows};
ghost use Rattle.runner.specs.Turns.{command_most, settlement_most, InRange, TurnIs};

use crate::printing::{put_accounts, put_prices, put_trades};
use exchange::settling::{Report, Response};
use exchange::step;
use lines::line::put_answer;
use rules::{Command, Record, State};

// The state after a command, and the place after its lines.
#[derive(Clone, Copy)]
pub struct Turn {
    pub state: State,
    pub end: usize,
}

// All P lines, then all B lines.
fn put_settlement(out: &mut [u8], at: usize, state: State, report: Report) -> usize
    requires { (state.contractcount ≤ max_contracts) × (state.accountcount ≤ max_accounts) × (at + settlement_most ≤ length out.old) }
    ensures { Written settlement_most out.old at (settlement_rows state report) out.new result }
{
    let prices = report.prices;
    let accounts = state.accounts;
    let next = put_prices(out, at, prices, state.contractcount);
    put_accounts(out, next, report, accounts, state.accountcount)
}

// "After an accepted settlement come all P, then all B, by number."
fn put_report(out: &mut [u8], at: usize, command: Command, response: Response) -> usize
    requires { (response.state.contractcount ≤ max_contracts) × (response.state.accountcount ≤ max_accounts) × (at + settlement_most ≤ length out.old) }
    ensures { Written settlement_most out.old at (report_rows command response) out.new result }
{
    if !commands::is_settle(command) {
        return at;
    }
    let answer = response.answer;
    // A number: the answer is a record of the C interface, which holds its code as one.
    if answer.code != 0 {
        return at;
    }
    let state = response.state;
    let report = response.report;
    put_settlement(out, at, state, report)
}

// The lines of command k: its C line, a T line for each trade past the `before` that were recorded, and a settlement's.
fn put_response(
    out: &mut [u8],
    at: usize,
    k: u64,
    command: Command,
    before: usize,
    trades: &[u32],
    response: Response,
) -> usize
    requires { InRange response trades.now × (at + command_most ≤ length out.old) }
    ensures { Written command_most out.old at (response_rows k command before trades.now response) out.new result }
{
    let answer = response.answer;
    let state = response.state;
    let answered = put_answer(out, at, k, answer);
    let traded = put_trades(out, answered, trades, before, state.tradecount);
    put_report(out, traded, command, response)
}

// A record's command carried out as command k, with its lines from `at` on.
pub fn play_record(
    state: State,
    buys: &mut [u32],
    sells: &mut [u32],
    trades: &mut [u32],
    r: Record,
    k: u64,
    out: &mut [u8],
    at: usize,
) -> Turn
    requires { WellFormedState state buys.old sells.old trades.old × (at + command_most ≤ length out.old) }
    ensures { TurnIs (memory state buys.old sells.old trades.old) (command_of r) k out.old at result (memory result.state buys.new sells.new trades.new) out.new }
{
    let before = state.tradecount;
    let command = commands::command_of(r);
    let response = step::step(state, buys, sells, trades, command);
    let end = put_response(out, at, k, command, before, &trades[..], response);
    let next = response.state;
    Turn { state: next, end }
}
