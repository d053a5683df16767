// A bundle of up to 100 commands, with an area for their answers. `submit` and `submit_bytes` are calls for users: they answer on
// anything. They take the state and its areas one by one, as C lends them.
ghost use Rattle.std.specs.Prelude.{true, ◌≡◌, ◌*◌, ◌/◌, ◌≤◌, length, replicate, take};
ghost use Rattle.laws.specs.Written.{overwritten};
ghost use Rattle.areas.specs.Records.{store};
ghost use Rattle.rules.specs.Codes.{code_in};
ghost use Rattle.rules.specs.Condition3.{run};
ghost use Rattle.rules.specs.DayFile.{command_from, command_width};
ghost use Rattle.rules.specs.Memory.{memory, well_formed_memory};
ghost use Rattle.rules.specs.declared.Command.TheVariants.{Malformed};
ghost use Rattle.exchange.specs.Run.{whole_commands};
ghost use Rattle.baskets.specs.Bundle.{BundleIs, answer_words, answers_to, bundle_code, max_bundle, answer_stride};

use crate::answers::answer_command;
use rules::codes::Code;
use rules::{Command, State};

// "up to 100 commands in one call"
pub const MAX_BUNDLE: usize = 100;

// 0, or the code that refuses the whole bundle, and the state after it. The C interface needs the code's number.
#[repr(C)]
#[derive(Clone, Copy)]
pub struct Receipt {
    pub code: u32,
    pub state: State,
}

// "Refusals, for the whole bundle": 21, then 22. The area for answers has `words` words.
#[tactic(auto, unfolding(crate::specs::Bundle::bundle_code, rules::specs::Answers::first_of))]
fn refusal(
    state: State,
    buys: &[u32],
    sells: &[u32],
    trades: &[u32],
    count: usize,
    words: usize,
) -> Result<(), Code>
    ensures { code_in result ≡ bundle_code (memory state buys.now sells.now trades.now) count words }
{
    if !audit::well_formed(state, buys, sells, trades) {
        return Err(Code::StateNotWellFormed);
    }
    if count > MAX_BUNDLE || words < rules::ANSWER_STRIDE * count {
        return Err(Code::BundleTooLarge);
    }
    Ok(())
}

// The first `count` commands in turn, each answered in the area. For this file: it asks for a well-formed state, a count within
// the array and room for as many answers.
fn answer_all(
    state: State,
    buys: &mut [u32],
    sells: &mut [u32],
    trades: &mut [u32],
    commands: [Command; MAX_BUNDLE],
    count: usize,
    answers: &mut [u32],
) -> State
    requires { (true ≡ well_formed_memory (memory state buys.old sells.old trades.old)) × (count ≤ max_bundle) × (answer_stride * count ≤ length answers.old) }
    ensures trades_after { memory result buys.new sells.new trades.new ≡ run (memory state buys.old sells.old trades.old) (take count commands) }
    ensures answers_after { answers.new ≡ store answer_words answers.old 0 (answers_to (memory state buys.old sells.old trades.old) (take count commands)) }
{
    let mut current = state;
    for k in 0..count {
        let command = commands[k];
        current = answer_command(true, current, buys, sells, trades, command, answers, k);
    }
    current
}

// The first `count` commands of the array are the bundle's.
pub fn submit(
    state: State,
    buys: &mut [u32],
    sells: &mut [u32],
    trades: &mut [u32],
    commands: [Command; MAX_BUNDLE],
    count: usize,
    answers: &mut [u32],
) -> Receipt
    ensures { BundleIs (memory state buys.old sells.old trades.old) commands count answers.old result (memory result.state buys.new sells.new trades.new) answers.new }
{
    let refused = refusal(
        state,
        &buys[..],
        &sells[..],
        &trades[..],
        count,
        answers.len(),
    );
    if let Err(code) = refused {
        return Receipt {
            code: code.number(),
            state,
        };
    }
    let next = answer_all(state, buys, sells, trades, commands, count, answers);
    Receipt {
        code: 0,
        state: next,
    }
}

// The commands of the first `count` records, at the array's first places. For this file: it asks for as many whole records, and for no
// more than a bundle has.
fn read_commands(bytes: &[u8], count: usize) -> [Command; MAX_BUNDLE]
    requires { (count ≤ max_bundle) × (command_width * count ≤ length bytes.now) }
    ensures { result ≡ overwritten (λ i. command_from bytes.now (command_width * i)) (replicate max_bundle Malformed) count }
{
    let mut commands = [Command::Malformed; MAX_BUNDLE];
    for k in 0..count {
        let record = endian::reading::record_at(bytes, rules::COMMAND_WIDTH * k);
        commands[k] = commands::command_of(record);
    }
    commands
}

// The same for a bundle's bytes: whole records of 24; what is left behind the last whole one is no command.
pub fn submit_bytes(
    state: State,
    buys: &mut [u32],
    sells: &mut [u32],
    trades: &mut [u32],
    bytes: &[u8],
    answers: &mut [u32],
) -> Receipt
    ensures { BundleIs (memory state buys.old sells.old trades.old) (whole_commands bytes.now) (length bytes.now / command_width) answers.old result (memory result.state buys.new sells.new trades.new) answers.new }
{
    let count = bytes.len() / rules::COMMAND_WIDTH;
    let commands = read_commands(bytes, count.min(MAX_BUNDLE));
    submit(state, buys, sells, trades, commands, count, answers)
}
