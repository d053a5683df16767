// The test of a whole state and one command by itself, for the benchmark, which is written in Rust: each behind the run of a list. For the
// benchmark alone: each call asks for a sound day file, and for places that exist.
#![tactic(auto)]

ghost use Rattle.std.specs.Prelude.{true, ◌≡◌, ◌<◌};
ghost use Rattle.rules.specs.Bounds.{max_contracts, max_accounts};
ghost use Rattle.rules.specs.DayFile.{command_from, sound};
ghost use Rattle.rules.specs.Memory.{respond};
ghost use Rattle.bench_exchange.specs.Probes.{ran_of, ProbedIs, TestedIs};

use bench_exchange::Probe;

// Runs the commands, then tests the whole state that they leave.
#[unsafe(no_mangle)]
pub extern "C" fn bench_test<'a>(
    day: &'a [u8],
    commands: &'a [u8],
    buys: &mut [u32],
    sells: &mut [u32],
    trades: &mut [u32],
) -> bool
    requires { sound day.now ≡ true }
    ensures { TestedIs (ran_of day.now commands.now buys.old sells.old trades.old) result buys.new sells.new trades.new }
{
    let opening = dayfile::open::opening_state(day);
    let state = exchange::run::run(opening, buys, sells, trades, commands);
    audit::well_formed(state, &buys[..], &sells[..], &trades[..])
}

// The bytes of one command.
#[repr(C)]
#[derive(Clone, Copy)]
pub struct Single {
    pub bytes: [u8; rules::COMMAND_WIDTH],
}

// Runs the commands, then one more by itself, which tests the whole state first.
#[unsafe(no_mangle)]
pub extern "C" fn bench_execute<'a>(
    day: &'a [u8],
    commands: &'a [u8],
    single: Single,
    buys: &mut [u32],
    sells: &mut [u32],
    trades: &mut [u32],
    account: usize,
    contract: usize,
) -> Probe
    requires { (sound day.now ≡ true) × (account < max_accounts) × (contract < max_contracts) }
    ensures { ProbedIs (respond (ran_of day.now commands.now buys.old sells.old trades.old) (command_from single.bytes 0)).memory account contract result buys.new sells.new trades.new }
{
    let opening = dayfile::open::opening_state(day);
    let state = exchange::run::run(opening, buys, sells, trades, commands);
    let bytes = single.bytes;
    let response = exchange::execute::execute(state, buys, sells, trades, bytes);
    let left = response.state;
    bench_exchange::probed(left, account, contract)
}
