// Cancel and pull at the level of one queue. For our own crates: each asks for the room of the orders it names.
ghost use Rattle.std.specs.Prelude.{◌≡◌, ◌+◌, ◌*◌, ◌≤◌, length};
ghost use Rattle.rules.specs.Bounds.{max_resting};
ghost use Rattle.rules.specs.Memory.{queue_in, first_word};
ghost use Rattle.book.specs.Places.{index_of};
ghost use Rattle.book.specs.Removal.{is_pulled, RemovedIs};

use crate::queue;
use rules::Order;

// The orders that stay in a queue, and the lots taken out of it.
#[derive(Clone, Copy)]
pub struct Pulled {
    pub count: usize,
    pub lots: u64,
}

// Whether an order is the account's, or part of its quote where only that is meant.
fn is_pulled(o: Order, account: u32, quote: bool) -> bool
    ensures { result ≡ is_pulled quote account o }
{
    o.account == account && (!quote || o.quote == 1)
}

// Takes out all orders of an account, or those of its quote alone, perhaps none: the others close up, and the freed places are set
// to zero.
pub fn pull(area: &mut [u32], c: usize, count: usize, account: u32, quote: bool) -> Pulled
    requires { (count ≤ max_resting) × (first_word c count ≤ length area.old) }
    ensures { RemovedIs (is_pulled quote account) area.old c count result.count result.lots area.new }
{
    let mut kept: usize = 0;
    let mut lots: u64 = 0;
    for i in 0..count {
        let o = queue::order_at(&area[..], c, i);
        if is_pulled(o, account, quote) {
            lots += u64::from(o.lots);
        } else {
            let at = rules::QUEUE_STRIDE * c + rules::ORDER_STRIDE * kept;
            queue::put(&mut area[at..], o);
            kept += 1;
        }
    }
    let a = rules::QUEUE_STRIDE * c + rules::ORDER_STRIDE * kept;
    let e = rules::QUEUE_STRIDE * c + rules::ORDER_STRIDE * count;
    areas::clear(&mut area[a..e]);
    Pulled { count: kept, lots }
}
