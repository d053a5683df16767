// Margin: the charge for one lot, an account's charged margin, and whether a balance is too little for it. For our own crates: each
// asks for values in the ranges of a well-formed state, so that no product passes its width.
#![tactic(auto)]

ghost use Rattle.std.specs.Prelude.{◌≡◌, ◌*◌, ◌≤◌, max, pos};
ghost use Rattle.std.specs.Int.Signed.{lt_z};
ghost use Rattle.rules.specs.Margin as margin;
ghost use Rattle.margin.specs.Charge.{ChargeTerms, ChargeableWith, Chargeable, ChargedIs, listing_with, margin_most};

use book::orders::Queue;
use rules::sizes::RATE_PARTS;
use rules::{Contract, Holding};

// "The charge for one lot is multiplier x reference x rate / 10,000, rounded up."
pub fn charge(c: Contract) -> u64
    requires { ChargeTerms c }
    ensures { result ≡ margin.charge c }
{
    let whole = u64::from(c.multiplier) * u64::from(c.reference) * u64::from(c.rate);
    whole.div_ceil(RATE_PARTS)
}

// The charge times the larger of (long plus resting buy opens) and (short plus resting sell opens), of one account in one contract.
fn charged_in(
    contract: Contract,
    buys: &Queue<'_>,
    sells: &Queue<'_>,
    account: u32,
    h: Holding,
) -> u64
    requires { ChargeableWith contract buys.now sells.now account h }
    ensures { result ≡ margin.charge contract * margin.charged_lots (listing_with contract buys.now sells.now) account h }
{
    let long = u64::from(h.long);
    let short = u64::from(h.short);
    let bids = buys.resting(account, 0);
    let offers = sells.resting(account, 0);
    let lots = (long + bids).max(short + offers);
    charge(contract) * lots
}

// An account's charged margin, over all contracts. It takes what it reads of the state, for a copy of all of it costs as much as a
// queue: the account's holdings, the terms and number of contracts, and how many orders each queue has. The day's trades play no part.
// For an open the holdings have its lots already.
pub fn charged<'a>(
    holdings: [Holding; rules::MAX_CONTRACTS],
    terms: [Contract; rules::MAX_CONTRACTS],
    contracts: usize,
    buys: &'a [u32],
    buycounts: [usize; rules::MAX_CONTRACTS],
    sells: &'a [u32],
    sellcounts: [usize; rules::MAX_CONTRACTS],
    a: usize,
) -> u64
    requires { Chargeable holdings terms contracts buys.now buycounts sells.now sellcounts a }
    ensures { ChargedIs holdings terms contracts buys.now buycounts sells.now sellcounts a result }
{
    let account = a as u32;
    let mut total: u64 = 0;
    for c in 0..contracts {
        let bids = Queue::new(buys, c, buycounts[c]);
        let offers = Queue::new(sells, c, sellcounts[c]);
        total += charged_in(terms[c], &bids, &offers, account, holdings[c]);
    }
    total
}

// Whether a balance is less than the charged margin.
pub fn too_little(balance: i64, charged: u64) -> bool
    requires { charged ≤ margin_most }
    ensures { result ≡ lt_z balance (pos charged) }
{
    balance < charged as i64
}
