// Continue tomorrow (ticket 10 of document 02): the state written to bytes after settlement, and read again. The state's areas are lent
// for reading only: nothing in them is in use in a state that is saved, and reading leaves them as they are.
#![tactic(auto)]

ghost use Rattle.std.specs.Prelude.{◌≡◌};
ghost use Rattle.rules.specs.Codes.{code_number};
ghost use Rattle.rules.specs.Memory.{memory, well_formed_memory};
ghost use Rattle.statefile.specs.StateFile.{WrittenIs, ReadIs};
ghost use Rattle.saving.specs.Parts.{in_spare};

use audit::counts::has_room;
use rules::State;
use rules::codes::Code;
use shape::SavedFile;

mod loading;
mod shape;
mod totals;
mod writing;

// 0, or the code that refuses, and how many bytes are written.
#[repr(C)]
#[derive(Clone, Copy)]
pub struct Saved {
    pub code: u32,
    pub length: usize,
}

// 0, or the code that refuses, and the state: the file's, or the one given where the file is refused.
#[repr(C)]
#[derive(Clone, Copy)]
pub struct Loaded {
    pub code: u32,
    pub state: State,
}

fn not_written(code: Code) -> Saved
    ensures { result ≡ record { code = code_number code; length = 0 } }
{
    Saved {
        code: code.number(),
        length: 0,
    }
}

// A call for users: it answers on anything. It takes the state and its areas one by one, as C lends them.
pub fn write_state(
    state: State,
    buys: &[u32],
    sells: &[u32],
    trades: &[u32],
    out: &mut [u8],
) -> Saved
    ensures { WrittenIs (memory state buys.now sells.now trades.now) out.old result.code result.length out.new }
{
    if !audit::well_formed(state, buys, sells, trades) {
        return not_written(Code::StateNotWellFormed);
    }
    if !totals::is_writable(state) {
        return not_written(Code::StateNotWritable);
    }
    let length = shape::file_length(state.contractcount, state.accountcount);
    if out.len() < length {
        return not_written(Code::AreaTooShort);
    }
    writing::put_state(state, out);
    Saved { code: 0, length }
}

// "a state not well formed (room of areas aside)": tested in areas of its own, which have room.
fn is_formed(state: State) -> bool
    ensures { result ≡ well_formed_memory (in_spare state) }
{
    let spare = [0u32; rules::TRADES_WORDS];
    audit::well_formed(state, &spare[..], &spare[..], &spare[..])
}

fn not_loaded(code: Code, state: State) -> Loaded
    ensures { result ≡ record { code = code_number code; state = state } }
{
    Loaded {
        code: code.number(),
        state,
    }
}

// A call for users: it answers on anything, and looks at nothing of the state given but what it leaves as it was.
// The state and its areas one by one, as C lends them.
pub fn read_state(file: &[u8], state: State, buys: &[u32], sells: &[u32], trades: &[u32]) -> Loaded
    ensures { ReadIs (memory state buys.now sells.now trades.now) file.now result.code result.state }
{
    let Some(saved) = SavedFile::of(file) else {
        return not_loaded(Code::FileBroken, state);
    };
    if !shape::marks_sound(&saved) {
        return not_loaded(Code::FileBroken, state);
    }
    let loaded = loading::loaded_state(&saved, state);
    if !is_formed(loaded) {
        return not_loaded(Code::FileBroken, state);
    }
    let loaded_accounts = loaded.accounts;
    if !totals::all_equal(loaded_accounts, saved.accounts, saved.contracts) {
        return not_loaded(Code::TotalsDiffer, state);
    }
    if !has_room(loaded, buys, sells, trades) {
        return not_loaded(Code::AreaTooShort, state);
    }
    Loaded {
        code: 0,
        state: loaded,
    }
}
