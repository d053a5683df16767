// What the day's legs come to, of every account in every contract, by passes over the trades: the lots and the value of the legs that
// close, and of those that open, then what the closed ones of today's lots were opened for. A sum stands in the slot of its account,
// contract and side. For our own crates: each function asks for values in the ranges of a well-formed state.
ghost use Rattle.std.specs.Prelude.{false, not, ◌≡◌, ◌+◌, ◌-◌, ◌*◌, ◌<◌, ◌≤◌, min, length, get_or, set, replicate};
ghost use Rattle.rules.specs.Bounds.{max_contracts, max_accounts};
ghost use Rattle.dayprofit.specs.Sides.{same};
ghost use Rattle.dayprofit.specs.Slots.{slot_of, close_of, leg_slot, changed, Placed, PlacedDay, Addable, SumsAre, UsedAre, LeftAre, slots, slot_lots_most};

use book::trades::Trades;
use rules::Trade;

// Buys and sells in each contract, for one account and for all.
const ACCOUNT_SLOTS: usize = 2 * rules::MAX_CONTRACTS;

pub const SLOTS: usize = ACCOUNT_SLOTS * rules::MAX_ACCOUNTS;

// Where an account's buys or sells in a contract are added up.
pub fn slot(a: usize, c: usize, sell: bool) -> usize
    requires { (a < max_accounts) × (c < max_contracts) }
    ensures { (result ≡ slot_of a c sell) × (result < slots) }
{
    ACCOUNT_SLOTS * a + 2 * c + usize::from(sell)
}

// Whether a trade's buy or sell leg closes, or opens, as asked.
fn is_kind(t: Trade, sell: bool, close: bool) -> bool
    ensures { result ≡ same close (close_of sell t) }
{
    let mark = if sell { t.sellclose } else { t.buyclose };
    close == (mark != 0)
}

// Where that leg is added up.
fn leg_slot(t: Trade, sell: bool) -> usize
    requires { Placed t }
    ensures { (result ≡ leg_slot sell t) × (result < slots) }
{
    let account = if sell { t.seller } else { t.buyer };
    slot(account as usize, t.contract as usize, sell)
}

fn add_leg(lots: &mut [u32], value: &mut [u64], t: Trade, sell: bool, close: bool)
    requires { Addable lots.old value.old (leg_slot sell t) t × (get_or lots.old (leg_slot sell t) 0 ≤ slot_lots_most) }
    ensures { (lots.new ≡ changed (same close (close_of sell t)) lots.old (leg_slot sell t) (get_or lots.old (leg_slot sell t) 0 + t.lots)) × (value.new ≡ changed (same close (close_of sell t)) value.old (leg_slot sell t) (get_or value.old (leg_slot sell t) 0 + t.price * t.lots)) }
{
    if !is_kind(t, sell, close) {
        return;
    }
    let at = leg_slot(t, sell);
    lots[at] += t.lots;
    value[at] += u64::from(t.price) * u64::from(t.lots);
}

// The lots and the value of the legs that close, or that open.
pub fn add_up(day: &Trades<'_>, close: bool, lots: &mut [u32], value: &mut [u64])
    requires { PlacedDay day.now × (lots.old ≡ replicate slots 0) × (value.old ≡ replicate slots 0) }
    ensures { SumsAre close day.now lots.new value.new }
{
    for i in 0..day.len() {
        let t = day.trade(i);
        add_leg(lots, value, t, false, close);
        add_leg(lots, value, t, true, close);
    }
}

// How many of today's lots the closes of a side took: start-of-day lots go first. Sells close long lots, buys short ones.
pub fn put_due(closed: &[u32], left: &mut [u32], a: usize, c: usize, short: bool, start: u32)
    requires { (a < max_accounts) × (c < max_contracts) × (length closed.now ≡ slots) × (length left.old ≡ slots) }
    ensures { left.new ≡ set left.old (slot_of a c short) (get_or closed.now (slot_of a c (not short)) 0 - start) }
{
    let lots = closed[slot(a, c, !short)];
    left[slot(a, c, short)] = lots.saturating_sub(start);
}

// Of the lots still to be taken on its side, an opening leg gives as many as it has.
fn take_leg(left: &mut [u32], used: &mut [u64], t: Trade, sell: bool)
    requires { Addable left.old used.old (leg_slot sell t) t }
    ensures { (left.new ≡ changed (same false (close_of sell t)) left.old (leg_slot sell t) (get_or left.old (leg_slot sell t) 0 - min (get_or left.old (leg_slot sell t) 0) t.lots)) × (used.new ≡ changed (same false (close_of sell t)) used.old (leg_slot sell t) (get_or used.old (leg_slot sell t) 0 + t.price * min (get_or left.old (leg_slot sell t) 0) t.lots)) }
{
    if !is_kind(t, sell, false) {
        return;
    }
    let at = leg_slot(t, sell);
    let taken = left[at].min(t.lots);
    left[at] -= taken;
    used[at] += u64::from(t.price) * u64::from(taken);
}

// "today's in trade order": what the first lots opened on each side were opened for, as many as `left` says.
pub fn take_first(day: &Trades<'_>, left: &mut [u32], used: &mut [u64])
    requires { PlacedDay day.now × (length left.old ≡ slots) × (used.old ≡ replicate slots 0) }
    ensures { UsedAre day.now left.old used.new × LeftAre day.now left.old left.new }
{
    for i in 0..day.len() {
        let t = day.trade(i);
        take_leg(left, used, t, false);
        take_leg(left, used, t, true);
    }
}
