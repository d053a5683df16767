// The run of a list of commands, as the benchmark calls it: the call of `bench_exchange` under a C name.
#![tactic(auto)]

ghost use Rattle.std.specs.Prelude.{true, ◌≡◌, ◌<◌};
ghost use Rattle.rules.specs.Bounds.{max_contracts, max_accounts};
ghost use Rattle.rules.specs.DayFile.{sound};
ghost use Rattle.bench_exchange.specs.Probes.{ran_of, ProbedIs};

use bench_exchange::Probe;

#[unsafe(no_mangle)]
pub extern "C" fn bench_run<'a>(
    day: &'a [u8],
    commands: &'a [u8],
    buys: &mut [u32],
    sells: &mut [u32],
    trades: &mut [u32],
    account: usize,
    contract: usize,
) -> Probe
    requires { (sound day.now ≡ true) × (account < max_accounts) × (contract < max_contracts) }
    ensures { ProbedIs (ran_of day.now commands.now buys.old sells.old trades.old) account contract result buys.new sells.new trades.new }
{
    bench_exchange::bench_run(day, commands, buys, sells, trades, account, contract)
}
