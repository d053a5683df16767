// A list of commands, each getting the state that the last one left. A call for users: it answers on anything.
ghost use Rattle.std.specs.Prelude.{◌≡◌};
ghost use Rattle.rules.specs.Condition3 as condition3;
ghost use Rattle.rules.specs.Memory.{memory, WellFormedState};
ghost use Rattle.exchange.specs.Run.{RanIs, whole_commands};

use crate::step;
use engine::updates;
use engine::updates::Update;
use rules::State;

// The list on a well-formed state, which is changed where it stands.
fn run_through(
    state: State,
    buys: &mut [u32],
    sells: &mut [u32],
    trades: &mut [u32],
    bytes: &[u8],
) -> State
    requires { WellFormedState state buys.old sells.old trades.old }
    ensures { memory result buys.new sells.new trades.new ≡ condition3.run (memory state buys.old sells.old trades.old) (whole_commands bytes.now) }
{
    let n = bytes.len() / rules::COMMAND_WIDTH;
    let mut current = state;
    for k in 0..n {
        let record = endian::reading::record_at(bytes, rules::COMMAND_WIDTH * k);
        let command = commands::command_of(record);
        let a = commands::account_place(command, current.accountcount);
        let who = current.accounts[a];
        let Ok(decision) = step::decide(&current, who, buys, sells, &trades[..], command) else {
            continue;
        };
        match decision.update {
            Update::Nothing => {}
            Update::Balance { place, balance } => current.accounts[place].balance = balance,
            Update::Listing(listed) => updates::write_listed(&mut current, listed),
            Update::Left(pending) => {
                let t = step::carry_out(&current, buys, sells, trades, pending);
                let held = t.accounts;
                current.accounts = held;
                updates::write_listed(&mut current, t.listed);
            }
            Update::Whole(remaining) => {
                let r = step::carry_whole(&current, buys, sells, trades, remaining);
                current = r.state;
            }
        }
    }
    current
}

// The bytes are whole records of 24; what is left behind the last whole one is no command. A state that is not well formed
// answers 21 to every command and stays as it is; a well-formed one stays so, and is tested once.
pub fn run(
    state: State,
    buys: &mut [u32],
    sells: &mut [u32],
    trades: &mut [u32],
    bytes: &[u8],
) -> State
    ensures { RanIs (memory state buys.old sells.old trades.old) (whole_commands bytes.now) (memory result buys.new sells.new trades.new) }
{
    if !audit::well_formed(state, &buys[..], &sells[..], &trades[..]) {
        return state;
    }
    run_through(state, buys, sells, trades, bytes)
}
