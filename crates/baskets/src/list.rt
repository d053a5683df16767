// A list of commands of any length, with an area for their answers. `run` is a call for users: it answers on anything. It takes the
// state and its areas one by one, as C lends them.
ghost use Rattle.std.specs.Prelude.{◌≡◌, ◌*◌, ◌≤◌, length};
ghost use Rattle.areas.specs.Records.{store};
ghost use Rattle.rules.specs.Condition3.{run as rules·run};
ghost use Rattle.rules.specs.DayFile.{command_width};
ghost use Rattle.rules.specs.Memory.{memory, well_formed_memory};
ghost use Rattle.exchange.specs.Run.{first_commands};
ghost use Rattle.baskets.specs.Answered.{AnsweredIs};
ghost use Rattle.baskets.specs.Bundle.{answer_words, answers_to, answer_stride};

use crate::answers::answer_command;
use rules::State;

// How many commands were played, and the state after them.
#[repr(C)]
#[derive(Clone, Copy)]
pub struct Ran {
    pub played: usize,
    pub state: State,
}

// The commands of the first `count` records in turn, each answered in the area. For this file: it asks to be told whether the state
// is well formed, for as many whole records, and for room for as many answers.
fn answer_records(
    formed: bool,
    state: State,
    buys: &mut [u32],
    sells: &mut [u32],
    trades: &mut [u32],
    bytes: &[u8],
    count: usize,
    answers: &mut [u32],
) -> State
    requires { (formed ≡ well_formed_memory (memory state buys.old sells.old trades.old)) × (command_width * count ≤ length bytes.now) × (answer_stride * count ≤ length answers.old) }
    ensures trades_after { memory result buys.new sells.new trades.new ≡ rules·run (memory state buys.old sells.old trades.old) (first_commands bytes.now count) }
    ensures answers_after { answers.new ≡ store answer_words answers.old 0 (answers_to (memory state buys.old sells.old trades.old) (first_commands bytes.now count)) }
{
    let mut current = state;
    for k in 0..count {
        let record = endian::reading::record_at(bytes, rules::COMMAND_WIDTH * k);
        let command = commands::command_of(record);
        current = answer_command(formed, current, buys, sells, trades, command, answers, k);
    }
    current
}

// The bytes are whole records of 24; what is left behind the last whole one is no command. As many are played as there are places for
// answers, four words each. A state that is not well formed answers 21 to each and stays as it is.
pub fn run(
    state: State,
    buys: &mut [u32],
    sells: &mut [u32],
    trades: &mut [u32],
    bytes: &[u8],
    answers: &mut [u32],
) -> Ran
    ensures { AnsweredIs (memory state buys.old sells.old trades.old) bytes.now answers.old result (memory result.state buys.new sells.new trades.new) answers.new }
{
    let formed = audit::well_formed(state, &buys[..], &sells[..], &trades[..]);
    let whole = bytes.len() / rules::COMMAND_WIDTH;
    let count = whole.min(answers.len() / rules::ANSWER_STRIDE);
    let next = answer_records(formed, state, buys, sells, trades, bytes, count, answers);
    Ran {
        played: count,
        state: next,
    }
}
