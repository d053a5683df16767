// A state and the two areas of its queues, for what reads the queues of one contract after another. The tests that the tables of
// docs/RULES.md name are lent the three one by one, and make it of them.
ghost use Rattle.std.specs.Prelude.{◌≡◌, ◌<◌, get_or};
ghost use Rattle.rules.specs.Memory.{queue_in};
ghost use Rattle.audit.specs.Parts.{QueuesReady};

use book::orders::Queue;
use rules::State;

// All three are lent, and the areas have room for the queues: so what takes `Queues` asks for nothing more of them. Each area at a
// lifetime of its own, as the functions that make it are lent them.
#[derive(Clone, Copy)]
pub struct Queues<'a, 'b> {
    pub state: &'a State,
    pub buys: &'a [u32],
    pub sells: &'b [u32],

    pub ghost ready: { QueuesReady state.now buys.now sells.now },
}

impl<'a, 'b> Queues<'a, 'b> {
    // The buys of the contract at a place.
    pub fn bids(&self, c: usize) -> Queue<'a>
        requires { c < self.now.state.now.contractcount }
        ensures { result ≡ queue_in self.now.buys.now c (get_or self.now.state.now.buycounts c 0) }
    {
        Queue::new(self.buys, c, self.state.buycounts[c])
    }

    // And its sells.
    pub fn offers(&self, c: usize) -> Queue<'b>
        requires { c < self.now.state.now.contractcount }
        ensures { result ≡ queue_in self.now.sells.now c (get_or self.now.state.now.sellcounts c 0) }
    {
        Queue::new(self.sells, c, self.state.sellcounts[c])
    }
}
