// "a number .. used once over all queues", and a time stamp: a field of all resting orders is listed, then each value that may be behind it once
// more is held against those behind it. `word` is the word of an order that holds the field.
ghost use Rattle.std.specs.Prelude.{◌≡◌, ◌≤◌, ◌<◌, length, take};
ghost use Rattle.laws.specs.Tabulate.{tabulate};
ghost use Rattle.rules.specs.Memory.{order_stride, word_of};
ghost use Rattle.rules.specs.WellFormed as wellformed;
ghost use Rattle.audit.specs.Lent.{listing_of};
ghost use Rattle.audit.specs.Parts.{QueuesReady, listing, max_listed};

use crate::lent::Queues;
use book::orders::Queue;
use rules::State;

// All that the queues of all contracts hold.
const MAX_LISTED: usize = 2 * rules::MAX_RESTING * rules::MAX_CONTRACTS;

// Remainders that are told apart. At worst all values have the same few, and each is held against all behind it.
const MARKS: usize = 4_096;

// The field of a queue's orders.
fn list_queue(values: &mut [u32], queue: &Queue<'_>, word: usize)
    requires { (length values.old ≡ length queue.now) × (word < order_stride) }
    ensures { values.new ≡ wellformed.listed (word_of word) queue.now }
{
    for (i, value) in values.iter_mut().enumerate() {
        *value = queue.word(i, word);
    }
}

// The field of all orders, listed from the front: how many there are.
fn list_all(list: &mut [u32; MAX_LISTED], queues: &Queues<'_, '_>, word: usize) -> usize
    requires { word < order_stride }
    ensures { (result ≤ max_listed) × (take result list.new ≡ wellformed.all_listed (word_of word) (tabulate queues.now.state.now.contractcount (listing_of queues.now))) }
{
    let mut count = 0;
    for c in 0..queues.state.contractcount {
        let bids = queues.bids(c);
        let offers = queues.offers(c);
        let middle = count + bids.len();
        let end = middle + offers.len();
        list_queue(&mut list[count..middle], &bids, word);
        list_queue(&mut list[middle..end], &offers, word);
        count = end;
    }
    count
}

// From the last value to the first. `marks` has the remainders of those met: only a value whose remainder is marked is looked for
// behind it, so that values with different remainders take one look each.
fn is_used_once(list: &[u32]) -> bool
    ensures { result ≡ wellformed.used_once list.now }
{
    let mut marks = [false; MARKS];
    for at in (0..list.len()).rev() {
        let mark = list[at] as usize % MARKS;
        if marks[mark] && list[at + 1..].contains(&list[at]) {
            return false;
        }
        marks[mark] = true;
    }
    true
}

pub fn used_once(state: State, buys: &[u32], sells: &[u32], word: usize) -> bool
    requires { QueuesReady state buys.now sells.now × (word < order_stride) }
    ensures { result ≡ wellformed.used_once (wellformed.all_listed (word_of word) (tabulate state.contractcount (listing state buys.now sells.now))) }
{
    let mut list: [u32; MAX_LISTED] = [0; MAX_LISTED];
    let queues = Queues {
        state: &state,
        buys,
        sells,
    };
    let count = list_all(&mut list, &queues, word);
    is_used_once(&list[..count])
}
