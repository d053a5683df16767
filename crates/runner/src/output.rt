// A day file's output part by part, in a buffer that the caller lends: reading the file and writing the parts are the caller's. What a
// caller carries from part to part is the state, its areas and the place of the next command.
ghost use Rattle.std.specs.Prelude.{true, false, not, ◌&&◌, List, ◌≡◌, ℕ, ◌≤◌, length};
ghost use Rattle.rules.specs.DayFile.{sound};
ghost use Rattle.rules.specs.Memory.{memory, well_formed_memory};
ghost use Rattle.runner.specs.Output.{LinesIs, PartIs, note_of, untouched};
ghost use Rattle.runner.specs.Parts.{Playable};
ghost use Rattle.runner.specs.Turns.{command_most};

use crate::play::{COMMAND_MOST, play};
use dayfile::file::{self, SoundFile};
use lines::line::put_broken;
use rules::State;
use rules::codes::Code;

// Room for one command's longest lines, and for the usual lines of some thousand more, so that a day takes few parts.
pub const BUFFER: usize = 200000;

// What a call printed: 0, or 21 where the state is not well formed, 29 where the buffer cannot hold the longest lines of one command;
// nothing is printed then. `length` bytes from the buffer's start are the part. `next` is the place of the next command, from 0, and with
// `state` goes into the next call, if there is more. The C interface needs the code's number and a flag.
#[repr(C)]
#[derive(Clone, Copy)]
pub struct Printed {
    pub code: u32,
    pub length: usize,
    pub next: usize,
    pub more: bool,
    pub state: State,
}

// Nothing is printed, and there is nothing more: a refusal, or the end.
fn nothing(code: u32, state: State, next: usize) -> Printed
    ensures { result ≡ untouched code next state }
{
    Printed {
        code,
        length: 0,
        next,
        more: false,
        state,
    }
}

// Whether the file's commands can be played on the state. A broken file has none.
fn can_play(file: &[u8], state: State, buys: &[u32], sells: &[u32], trades: &[u32]) -> bool
    ensures { result ≡ not (sound file.now && not (well_formed_memory (memory state buys.now sells.now trades.now))) }
{
    !file::sound(file) || audit::well_formed(state, buys, sells, trades)
}

// "A broken file prints `X 20`": one line, before all else, whatever the areas hold.
fn print_broken(file: &[u8], state: State, next: usize, out: &mut [u8]) -> Printed
    requires { (sound file.now ≡ false) × (command_most ≤ length out.old) }
    ensures { (buys sells trades : List ℕ) → PartIs file.now next (memory state buys sells trades) out.old result (memory result.state buys sells trades) out.new }
{
    if next == 0 {
        let length = put_broken(out, 0);
        return Printed {
            code: 0,
            length,
            next: 1,
            more: false,
            state,
        };
    }
    nothing(0, state, next)
}

// As many of a sound file's commands as surely fit, and their lines.
fn print_sound(
    file: &SoundFile<'_>,
    state: State,
    next: usize,
    buys: &mut [u32],
    sells: &mut [u32],
    trades: &mut [u32],
    out: &mut [u8],
) -> Printed
    requires { Playable file.now.bytes.now 0 state buys.old sells.old trades.old out.old }
    ensures { PartIs file.now.bytes.now next (memory state buys.old sells.old trades.old) out.old result (memory result.state buys.new sells.new trades.new) out.new }
{
    let n = file::commands_in(file);
    if n <= next {
        return nothing(0, state, next);
    }
    let p = play(file.bytes, next, state, buys, sells, trades, out);
    let left = p.state;
    Printed {
        code: 0,
        length: p.end,
        next: p.next,
        more: p.next < n,
        state: left,
    }
}

// The next part of a day file's output, with command `next` to be played first, places counted from 0. A call for users: it answers on
// anything. From the opening state and place 0 on, the parts one after the other are the whole output.
pub fn lines(
    file: &[u8],
    state: State,
    next: usize,
    buys: &mut [u32],
    sells: &mut [u32],
    trades: &mut [u32],
    out: &mut [u8],
) -> Printed
    ensures { LinesIs file.now next (memory state buys.old sells.old trades.old) out.old result (memory result.state buys.new sells.new trades.new) out.new }
{
    if !can_play(file, state, &buys[..], &sells[..], &trades[..]) {
        return nothing(Code::StateNotWellFormed.number(), state, next);
    }
    if out.len() < COMMAND_MOST {
        return nothing(Code::AreaTooShort.number(), state, next);
    }
    let Some(sound) = SoundFile::of(file) else {
        return print_broken(file, state, next, out);
    };
    print_sound(&sound, state, next, buys, sells, trades, out)
}

// Whether the next part is to be asked for, when this one was written or not: behind a write that failed none is.
pub fn goes_on(more: bool, written: bool) -> bool
    ensures { result ≡ (more && written) }
{
    more && written
}

// What is said on standard error of the last write: nothing where all was written, and otherwise that it failed.
#[tactic(auto, unfolding(crate::specs::Output::note_of))]
pub fn note_of(written: bool) -> &'static str
    ensures { result.now ≡ note_of written }
{
    if written {
        return "";
    }
    "write failed\n"
}
