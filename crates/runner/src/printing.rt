// Lines printed one after the other into a lent buffer. For our own crates: each asks for room for the longest lines that it
// can print.
ghost use Rattle.std.specs.Prelude.{◌+◌, ◌*◌, ◌-◌, ◌≤◌, length, drop};
ghost use Rattle.rules.specs.Bounds.{max_trades, max_contracts, max_accounts};
ghost use Rattle.rules.specs.Lines.{trade_lines};
ghost use Rattle.rules.specs.Memory.{recorded_trades, trade_stride};
ghost use Rattle.endian.specs.Written.{Written};
ghost use Rattle.lines.specs.Tables.{trade_line_most, price_line_most, account_line_most};
ghost use Rattle.runner.specs.Rows.{rows, price_row, account_row};

use exchange::settling::Report;
use lines::line::{put_account, put_price, put_trade};
use rules::Account;

// T lines of the day's trades from place `first` on, `count` of them being recorded: none where there are no more than `first`.
// The trades come as an area and a count, and not as a `Trades`: docs/RULES.md names this call.
pub fn put_trades(out: &mut [u8], at: usize, area: &[u32], first: usize, count: usize) -> usize
    requires { (count ≤ max_trades) × (trade_stride * count ≤ length area.now) × (at + trade_line_most * (count - first) ≤ length out.old) }
    ensures { Written (trade_line_most * (count - first)) out.old at (trade_lines (first + 1) (drop first (recorded_trades area.now count))) out.new result }
{
    let mut next = at;
    for i in first..count {
        let trade = book::trades::trade_at(area, i);
        next = put_trade(out, next, i as u64 + 1, trade);
    }
    next
}

// P lines of the first n contracts.
pub fn put_prices(out: &mut [u8], at: usize, prices: [u32; rules::MAX_CONTRACTS], n: usize) -> usize
    requires { (n ≤ max_contracts) × (at + price_line_most * n ≤ length out.old) }
    ensures { Written (price_line_most * n) out.old at (rows (price_row prices) n) out.new result }
{
    let mut next = at;
    for c in 0..n {
        next = put_price(out, next, c as u32, prices[c]);
    }
    next
}

// B lines of the first n accounts.
pub fn put_accounts(
    out: &mut [u8],
    at: usize,
    report: Report,
    accounts: [Account; rules::MAX_ACCOUNTS],
    n: usize,
) -> usize
    requires { (n ≤ max_accounts) × (at + account_line_most * n ≤ length out.old) }
    ensures { Written (account_line_most * n) out.old at (rows (account_row report.closing report.holding report.charged accounts) n) out.new result }
{
    let mut next = at;
    for a in 0..n {
        next = put_account(
            out,
            next,
            a as u32,
            report.closing[a],
            report.holding[a],
            accounts[a].balance,
            report.charged[a],
        );
    }
    next
}
