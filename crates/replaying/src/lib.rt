// The day's trades replayed over accounts, for the test of a state and for an account's clients. For our own crates: it asks for
// trades of contracts and accounts in use, and for holdings that no day's trades lift past their width.
#![tactic(auto)]

ghost use Rattle.std.specs.Prelude.{[], ◌∷◌, ◌≡◌, ◌<◌};
ghost use Rattle.rules.specs.Bounds.{max_contracts};
ghost use Rattle.rules.specs.Holdings.{leg_covered};
ghost use Rattle.replaying.specs.Parts.{Replayable, ReplayIs};

use book::trades;
use rules::Account;

// A close of no more than is held.
#[tactic(auto, unfolding(rules::specs::Holdings::leg_covered, rules::specs::Exchange::holding_at, rules::specs::Exchange::account_at))]
fn is_covered(a: Account, c: usize, sell: bool, close: u32, lots: u32) -> bool
    requires { c < max_contracts }
    ensures { result ≡ leg_covered (a ∷ []) 0 c sell close lots }
{
    let h = a.holdings[c];
    let held = if sell { h.long } else { h.short };
    close == 0 || lots <= held
}

// The accounts after the trades, and none where a close does not find its lots.
// The trades come as an area and a count, and not as a `Trades`: docs/RULES.md names this call.
pub fn replay(
    accounts: [Account; rules::MAX_ACCOUNTS],
    contracts: usize,
    accountcount: usize,
    area: &[u32],
    count: usize,
) -> Option<[Account; rules::MAX_ACCOUNTS]>
    requires { Replayable accounts contracts accountcount area.now count }
    ensures { ReplayIs accounts contracts accountcount area.now count result }
{
    let mut held = accounts;
    for i in 0..count {
        let t = trades::trade_at(area, i);
        let c = t.contract as usize;
        let buyer = t.buyer as usize;
        if !is_covered(held[buyer], c, false, t.buyclose, t.lots) {
            return None;
        }
        held[buyer] = holdings::book_leg(held[buyer], c, false, t.buyclose, t.lots);
        let seller = t.seller as usize;
        if !is_covered(held[seller], c, true, t.sellclose, t.lots) {
            return None;
        }
        held[seller] = holdings::book_leg(held[seller], c, true, t.sellclose, t.lots);
    }
    Some(held)
}
