// Answers in their lent area. For our own crates: each asks for the room of the answer it names.
ghost use Rattle.std.specs.Prelude.{◌≡◌, [], ◌∷◌, ◌+◌, ◌*◌, ◌≤◌, length};
ghost use Rattle.areas.specs.Records.{store};
ghost use Rattle.rules.specs.Memory.{memory, respond, well_formed_memory};
ghost use Rattle.baskets.specs.Bundle.{answer_words, answer_stride};

use exchange::execute;
use rules::{Answer, Command, State};

pub fn put_answer(area: &mut [u32], k: usize, a: Answer)
    requires { answer_stride * k + answer_stride ≤ length area.old }
    ensures { area.new ≡ store answer_words area.old (answer_stride * k) (a ∷ []) }
{
    let at = rules::ANSWER_STRIDE * k;
    area[at..at + rules::ANSWER_STRIDE].copy_from_slice(&[a.code, a.number, a.traded, a.lots]);
}

// One command, its answer at place k. It asks to be told whether the state is well formed.
pub fn answer_command(
    formed: bool,
    state: State,
    buys: &mut [u32],
    sells: &mut [u32],
    trades: &mut [u32],
    command: Command,
    answers: &mut [u32],
    k: usize,
) -> State
    requires { (formed ≡ well_formed_memory (memory state buys.old sells.old trades.old)) × (answer_stride * k + answer_stride ≤ length answers.old) }
    ensures trades_after { memory result buys.new sells.new trades.new ≡ (respond (memory state buys.old sells.old trades.old) command).memory }
    ensures answers_after { answers.new ≡ store answer_words answers.old (answer_stride * k) ((respond (memory state buys.old sells.old trades.old) command).answer ∷ []) }
{
    let r = execute::respond(formed, state, buys, sells, trades, command);
    put_answer(answers, k, r.answer);
    r.state
}
