// One command. `execute` and `execute_record` are calls for users: they answer on anything. They take the
// state and its areas one by one, as C lends them.
ghost use Rattle.std.specs.Prelude.{◌≡◌};
ghost use Rattle.rules.specs.Command.{command_of};
ghost use Rattle.rules.specs.DayFile.{command_from};
ghost use Rattle.rules.specs.Memory.{memory, well_formed_memory};
ghost use Rattle.exchange.specs.Response.{ExecutedIs};

use crate::settling::Response;
use crate::{settling, step};
use engine::answers;
use rules::codes::Code;
use rules::{Command, Record, State};

// Code 21 comes before all that a command may say. For our own crates: it asks to be told whether the state is well formed.
pub fn respond(
    formed: bool,
    state: State,
    buys: &mut [u32],
    sells: &mut [u32],
    trades: &mut [u32],
    command: Command,
) -> Response
    requires { formed ≡ well_formed_memory (memory state buys.old sells.old trades.old) }
    ensures { ExecutedIs (memory state buys.old sells.old trades.old) command result buys.new sells.new trades.new }
{
    if !formed {
        return settling::plain(answers::refused(state, Code::StateNotWellFormed.number()));
    }
    step::step(state, buys, sells, trades, command)
}

// A command by its record.
pub fn execute_record(
    state: State,
    buys: &mut [u32],
    sells: &mut [u32],
    trades: &mut [u32],
    given: Record,
) -> Response
    ensures { ExecutedIs (memory state buys.old sells.old trades.old) (command_of given) result buys.new sells.new trades.new }
{
    let formed = audit::well_formed(state, &buys[..], &sells[..], &trades[..]);
    let command = commands::command_of(given);
    respond(formed, state, buys, sells, trades, command)
}

// "A command is 24 bytes", so many and no others by the type.
pub fn execute(
    state: State,
    buys: &mut [u32],
    sells: &mut [u32],
    trades: &mut [u32],
    bytes: [u8; rules::COMMAND_WIDTH],
) -> Response
    ensures { ExecutedIs (memory state buys.old sells.old trades.old) (command_from bytes 0) result buys.new sells.new trades.new }
{
    let given = endian::reading::record_at(&bytes[..], 0);
    execute_record(state, buys, sells, trades, given)
}
