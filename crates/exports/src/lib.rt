// The library for programs in other languages. Each export is a proved call under a C name: none requires anything, and each
// promises what that call promises, by the same definition, but for a day file opened and one side's orders, which have definitions of
// their own. `tools/make_header.py` makes `include/zelvorm.h` from this file, and what stands above a call here stands above it there.
// Some calls look alike, since each only passes its arguments on: C needs a name for each.
#![tactic(auto)]

ghost use Rattle.std.specs.Prelude.{◌≡◌, ◌/◌, length};
ghost use Rattle.rules.specs.Command.{command_of};
ghost use Rattle.rules.specs.DayFile.{command_width};
ghost use Rattle.rules.specs.Memory.{memory, well_formed_memory};
ghost use Rattle.exchange.specs.Response.{ExecutedIs};
ghost use Rattle.exchange.specs.Run.{whole_commands};
ghost use Rattle.baskets.specs.Bundle.{BundleIs};
ghost use Rattle.baskets.specs.Answered.{AnsweredIs};
ghost use Rattle.query.specs.Gettable.{gettable_now};
ghost use Rattle.mending.specs.Mend.{MendIs};
ghost use Rattle.statements.specs.Parts.{broker};
ghost use Rattle.statements.specs.Statement.{StatementIs};
ghost use Rattle.statefile.specs.StateFile.{WrittenIs, ReadIs};
ghost use Rattle.dayfile.specs.Opened.{opened_from};
ghost use Rattle.runner.specs.Output.{LinesIs};
ghost use Rattle.exports.specs.Calls.{SideIs};

use baskets::basket::Receipt;
use baskets::list::Ran;
use dayfile::open::Opened;
use exchange::settling::Response;
use mending::mend::Mended;
use query::Reading;
use rules::{Record, State};
use runner::output::Printed;
use saving::{Loaded, Saved};
use statements::Statement;

pub mod flags;
pub mod side;

use crate::side::Part;

// The flags of an insert: what is not set is a buy, an open, limit and good for day.
pub const FLAG_SELL: u8 = 1;

pub const FLAG_CLOSE: u8 = 2;

pub const FLAG_MARKET: u8 = 4;

pub const FLAG_BEST: u8 = 8;

pub const FLAG_IMMEDIATE_OR_CANCEL: u8 = 16;

pub const FLAG_FILL_OR_KILL: u8 = 32;

// The flag of a cancel and of a pull. The flags of a phase command are the phase.
pub const FLAG_OPERATOR: u8 = 1;

// A buffer for a day file's lines: room for the longest lines of one command (134,875 bytes), and for the usual lines of some thousand.
pub const OUTPUT_BYTES: usize = 200000;

// Opens a day file: the state that its run begins with, and where its commands stand.
#[unsafe(no_mangle)]
pub extern "C" fn zelvorm_open(file: &[u8]) -> Opened
    ensures { result ≡ opened_from file.now }
{
    dayfile::open::open_day(file)
}

// Whether a state and the areas lent with it are well formed. Every other call that has code 21 makes this test itself.
#[unsafe(no_mangle)]
pub extern "C" fn zelvorm_well_formed(
    state: State,
    buys: &[u32],
    sells: &[u32],
    trades: &[u32],
) -> bool
    ensures { result ≡ well_formed_memory (memory state buys.now sells.now trades.now) }
{
    audit::well_formed(state, buys, sells, trades)
}

// Carries out one command. A refusal leaves the state and the areas as they were.
#[unsafe(no_mangle)]
pub extern "C" fn zelvorm_execute(
    state: State,
    buys: &mut [u32],
    sells: &mut [u32],
    trades: &mut [u32],
    command: Record,
) -> Response
    ensures { ExecutedIs (memory state buys.old sells.old trades.old) (command_of command) result buys.new sells.new trades.new }
{
    exchange::execute::execute_record(state, buys, sells, trades, command)
}

// Carries out a list of commands, 24 bytes each, and writes the answer to each, four words, one after the other. It plays as many
// commands as there are places for answers, and says how many. A settlement's report is given by `zelvorm_execute` alone.
#[unsafe(no_mangle)]
pub extern "C" fn zelvorm_run(
    state: State,
    buys: &mut [u32],
    sells: &mut [u32],
    trades: &mut [u32],
    commands: &[u8],
    answers: &mut [u32],
) -> Ran
    ensures { AnsweredIs (memory state buys.old sells.old trades.old) commands.now answers.old result (memory result.state buys.new sells.new trades.new) answers.new }
{
    baskets::list::run(state, buys, sells, trades, commands, answers)
}

// Carries out a bundle of up to 100 commands, or refuses it whole: 21, then 22.
#[unsafe(no_mangle)]
pub extern "C" fn zelvorm_bundle(
    state: State,
    buys: &mut [u32],
    sells: &mut [u32],
    trades: &mut [u32],
    commands: &[u8],
    answers: &mut [u32],
) -> Receipt
    ensures { BundleIs (memory state buys.old sells.old trades.old) (whole_commands commands.now) (length commands.now / command_width) answers.old result (memory result.state buys.new sells.new trades.new) answers.new }
{
    baskets::basket::submit_bytes(state, buys, sells, trades, commands, answers)
}

// How much could I get: the lots that an insert would trade now, and how many resting orders were read to know it. Nothing is
// changed.
#[unsafe(no_mangle)]
pub extern "C" fn zelvorm_gettable<'a>(
    state: State,
    buys: &'a [u32],
    sells: &'a [u32],
    trades: &'a [u32],
    command: Record,
) -> Reading
    ensures { result ≡ gettable_now (memory state buys.now sells.now trades.now) command }
{
    query::gettable_record(state, buys, sells, trades, command)
}

// One side's resting orders: which part of `buys` or of `sells` holds them. The contract is named by its number.
#[unsafe(no_mangle)]
pub extern "C" fn zelvorm_side<'a>(
    state: State,
    buys: &'a [u32],
    sells: &'a [u32],
    sell: bool,
    contract: usize,
) -> Part
    ensures { SideIs state buys.now sells.now sell contract result }
{
    side::side_part(state, buys, sells, sell, contract)
}

// Mends a day file: what is kept goes into `out`, the list of what is dropped into `list`.
#[unsafe(no_mangle)]
pub extern "C" fn zelvorm_mend(file: &[u8], out: &mut [u8], list: &mut [u8]) -> Mended
    ensures { MendIs file.now out.old list.old result out.new list.new }
{
    mending::mend::mend(file, out, list)
}

// A statement of an account's clients. `starts` has eight words for each client: long and short lots at the start of the day in each
// of four contracts. `postings` has two words for each posting: an order's number and a client's.
#[unsafe(no_mangle)]
pub extern "C" fn zelvorm_client_statement<'a>(
    state: State,
    buys: &'a [u32],
    sells: &'a [u32],
    trades: &[u32],
    account: u32,
    clients: u32,
    starts: &[u32],
    postings: &[u32],
    out: &mut [u8],
) -> Statement
    ensures { StatementIs (memory state buys.now sells.now trades.now) account (broker clients starts.now postings.now) out.old result out.new }
{
    statements::client_statement(
        state, buys, sells, trades, account, clients, starts, postings, out,
    )
}

// Writes a state after its settlement, to be read tomorrow.
#[unsafe(no_mangle)]
pub extern "C" fn zelvorm_write(
    state: State,
    buys: &[u32],
    sells: &[u32],
    trades: &[u32],
    out: &mut [u8],
) -> Saved
    ensures { WrittenIs (memory state buys.now sells.now trades.now) out.old result.code result.length out.new }
{
    saving::write_state(state, buys, sells, trades, out)
}

// Reads a state that was written. The areas are those that it is to be used with: they are looked at for their room alone. Of the
// state given nothing is looked at; places that the file's state does not use stay as they are there.
#[unsafe(no_mangle)]
pub extern "C" fn zelvorm_read(
    file: &[u8],
    state: State,
    buys: &[u32],
    sells: &[u32],
    trades: &[u32],
) -> Loaded
    ensures { ReadIs (memory state buys.now sells.now trades.now) file.now result.code result.state }
{
    saving::read_state(file, state, buys, sells, trades)
}

// The next part of a day file's lines, in the buffer `out`: what a day runner prints of it. The first call takes the state of
// `zelvorm_open` and `next` 0; each call gives the state and `next` for the following one, as long as it tells of more. A buffer of
// `OUTPUT_BYTES` is enough, and a longer one takes fewer calls.
#[unsafe(no_mangle)]
pub extern "C" fn zelvorm_lines(
    file: &[u8],
    state: State,
    next: usize,
    buys: &mut [u32],
    sells: &mut [u32],
    trades: &mut [u32],
    out: &mut [u8],
) -> Printed
    ensures { LinesIs file.now next (memory state buys.old sells.old trades.old) out.old result (memory result.state buys.new sells.new trades.new) out.new }
{
    runner::output::lines(file, state, next, buys, sells, trades, out)
}
