// The run of a list of commands for the benchmark, which is written in Rust, and what it asks of the state that a run leaves. For the
// benchmark alone: the call asks for a sound day file and for places that exist. No other call stands here, so that the engine's step has
// one caller.
#![tactic(auto)]

ghost use Rattle.std.specs.Prelude.{true, ◌≡◌, ◌<◌};
ghost use Rattle.rules.specs.Bounds.{max_contracts, max_accounts};
ghost use Rattle.rules.specs.DayFile.{sound};
ghost use Rattle.bench_exchange.specs.Probes.{probe_of, ran_of, ProbedIs};

use rules::State;

// What the benchmark asks about a state: an account's balance and holding, what changes of a contract, the counts; numbers, as the
// benchmark's C call gives them.
#[repr(C)]
#[derive(Clone, Copy)]
pub struct Probe {
    pub balance: i64,
    pub bought: usize,
    pub sold: usize,
    pub made: usize,
    pub long: u32,
    pub short: u32,
    pub startlong: u32,
    pub startshort: u32,
    pub reference: u32,
    pub phase: u32,
    pub last: u32,
    pub next: u32,
    pub settlements: u32,
}

pub fn probed(state: State, account: usize, contract: usize) -> Probe
    requires { (account < max_accounts) × (contract < max_contracts) }
    ensures { result ≡ probe_of state account contract }
{
    let who = state.accounts[account];
    let h = who.holdings[contract];
    let terms = state.contracts[contract];
    Probe {
        balance: who.balance,
        bought: state.buycounts[contract],
        sold: state.sellcounts[contract],
        made: state.tradecount,
        long: h.long,
        short: h.short,
        startlong: h.startlong,
        startshort: h.startshort,
        reference: terms.reference,
        phase: terms.phase,
        last: terms.last,
        next: state.next,
        settlements: state.settlements,
    }
}

// Runs the commands on the state that the day file opens with.
pub fn bench_run<'a>(
    day: &'a [u8],
    commands: &'a [u8],
    buys: &mut [u32],
    sells: &mut [u32],
    trades: &mut [u32],
    account: usize,
    contract: usize,
) -> Probe
    requires { (sound day.now ≡ true) × (account < max_accounts) × (contract < max_contracts) }
    ensures { ProbedIs (ran_of day.now commands.now buys.old sells.old trades.old) account contract result buys.new sells.new trades.new }
{
    let opening = dayfile::open::opening_state(day);
    let state = exchange::run::run(opening, buys, sells, trades, commands);
    probed(state, account, contract)
}
