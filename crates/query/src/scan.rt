// The queue read for an order that is only asked about. For our own crates: it asks for the queue's order.
ghost use Rattle.refusals.specs.Insertion.{Facing};
ghost use Rattle.query.specs.Gettable.{GatheredIs};

use book::orders::Queue;
use rules::Taker;

// The lots that an order gets, and how many orders were read.
#[derive(Clone, Copy)]
pub struct Gathered {
    pub lots: u32,
    pub read: usize,
}

// "Reading ends when the lots are covered or an order that is no counterpart is met."
pub fn gather(queue: &Queue<'_>, t: Taker, lots: u32) -> Gathered
    requires { Facing t queue.now }
    ensures { GatheredIs t lots queue.now result }
{
    let mut left = lots;
    for i in 0..queue.len() {
        if left == 0 {
            return Gathered { lots, read: i };
        }
        let o = queue.order(i);
        if !prices::is_counterpart(t, o) {
            return Gathered {
                lots: lots - left,
                read: i + 1,
            };
        }
        left = left.saturating_sub(o.lots);
    }
    Gathered {
        lots: lots - left,
        read: queue.len(),
    }
}
