// One side's resting orders, told by where they stand: an export cannot give back a part of an area itself.
ghost use Rattle.std.specs.Prelude.{◌≡◌};
ghost use Rattle.exports.specs.Calls.{SideIs, asked_count};

use rules::State;

// A part of an area: its first word, and how many words it has. An empty part begins at 0.
#[repr(C)]
#[derive(Clone, Copy)]
pub struct Part {
    pub first: usize,
    pub words: usize,
}

#[tactic(auto, unfolding(crate::specs::Calls::asked_count))]
fn count_of(state: State, sell: bool, contract: usize) -> usize
    ensures { result ≡ asked_count state sell contract }
{
    if contract < 1 {
        return 0;
    }
    if rules::MAX_CONTRACTS < contract {
        return 0;
    }
    if sell {
        return state.sellcounts[contract - 1];
    }
    state.buycounts[contract - 1]
}

pub fn side_part<'a>(
    state: State,
    buys: &'a [u32],
    sells: &'a [u32],
    sell: bool,
    contract: usize,
) -> Part
    ensures { SideIs state buys.now sells.now sell contract result }
{
    let count = count_of(state, sell, contract);
    let queue = book::side::side(buys, sells, sell, contract, state.contractcount, count);
    let words = queue.len();
    if words == 0 {
        return Part { first: 0, words: 0 };
    }
    Part {
        first: rules::QUEUE_STRIDE * (contract - 1),
        words,
    }
}
