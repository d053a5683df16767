// A trade's legs on the holdings (document 01, "Matching"). For our own crates: each asks that no holding is near its width.
#![tactic(auto)]

ghost use Rattle.std.specs.Prelude.{◌≡◌, ◌-◌, ◌<◌, ◌≤◌, get_or};
ghost use Rattle.rules.specs.Bounds.{max_contracts, max_lots};
ghost use Rattle.rules.specs.Exchange.{no_holding};
ghost use Rattle.rules.specs.Holdings.{after_leg, with_holding};
ghost use Rattle.holdings.specs.Bounds.{HoldingWithin, booked_most};

use rules::{Account, Holding};

// Buy open adds long, sell open adds short, sell close lowers long, buy close lowers short. A close leaves no less than none.
#[tactic(auto, unfolding(rules::specs::Holdings::after_leg))]
pub fn after_leg(h: Holding, sell: bool, close: u32, lots: u32) -> Holding
    requires { (lots ≤ max_lots) × HoldingWithin booked_most h }
    ensures { result ≡ after_leg h sell close lots }
{
    let mut x = h;
    if sell {
        if close == 0 {
            x.short += lots;
        } else {
            x.long = h.long.saturating_sub(lots);
        }
    } else {
        if close == 0 {
            x.long += lots;
        } else {
            x.short = h.short.saturating_sub(lots);
        }
    }
    x
}

// One changed place of an account's holdings.
pub fn book_leg(a: Account, c: usize, sell: bool, close: u32, lots: u32) -> Account
    requires { (c < max_contracts) × (lots ≤ max_lots) × HoldingWithin booked_most (get_or a.holdings c no_holding) }
    ensures { result ≡ with_holding a c (after_leg (get_or a.holdings c no_holding) sell close lots) }
{
    let mut b = a;
    b.holdings[c] = after_leg(a.holdings[c], sell, close, lots);
    b
}
