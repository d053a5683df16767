// A part of a day: commands played in turn, their lines printed into a lent buffer. For our own crates.
ghost use Rattle.rules.specs.Memory.{memory};
ghost use Rattle.runner.specs.Parts.{Playable, PlayedIs};

use crate::turn::play_record;
use dayfile::file::{self, SoundFile};
use lines::line;
use rules::State;

// The longest lines that one command can print: its C line, a T line for each trade of a day, and a settlement's P and B lines.
const SETTLEMENT_MOST: usize = line::PRICE_LINE_MOST * rules::MAX_CONTRACTS
    + line::ACCOUNT_LINE_MOST * rules::MAX_ACCOUNTS;

pub const COMMAND_MOST: usize = line::ANSWER_LINE_MOST
    + line::TRADE_LINE_MOST * rules::MAX_TRADES
    + SETTLEMENT_MOST;

// The state after the part, the place of the next command, and the place after the lines.
#[derive(Clone, Copy)]
pub struct Played {
    pub state: State,
    pub next: usize,
    pub end: usize,
}

// From command k on, as many as surely fit into `out`. It asks for a sound file, a well-formed state, and room for one
// command. It takes bytes, since docs/CLAIMS.md names it.
pub fn play(
    file: &[u8],
    k: usize,
    state: State,
    buys: &mut [u32],
    sells: &mut [u32],
    trades: &mut [u32],
    out: &mut [u8],
) -> Played
    requires { Playable file.now k state buys.old sells.old trades.old out.old }
    ensures { PlayedIs file.now k (memory state buys.old sells.old trades.old) out.old result (memory result.state buys.new sells.new trades.new) out.new }
{
    let sound = SoundFile { bytes: file };
    let n = file::commands_in(&sound);
    let first = file::first_command(&sound);
    let mut current = state;
    let mut at = 0;
    for i in k..n {
        if out.len() - at < COMMAND_MOST {
            return Played {
                state: current,
                next: i,
                end: at,
            };
        }
        let r = file::record_of(&sound, first, i);
        let t = play_record(current, buys, sells, trades, r, i as u64 + 1, out, at);
        current = t.state;
        at = t.end;
    }
    Played {
        state: current,
        next: n,
        end: at,
    }
}
