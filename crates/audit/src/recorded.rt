// The day's recorded trades, each by itself. Asks for contracts whose terms are within their ranges.
ghost use Rattle.std.specs.Prelude.{true, not, ◌&&◌, ◌≡◌, ℕ, ◌*◌, ◌≤◌, ◌<◌, leb, ltb, eqb, length, get_or};
ghost use Rattle.laws.specs.Choice.{all_of};
ghost use Rattle.rules.specs.Bounds.{terms_in_range, max_contracts};
ghost use Rattle.rules.specs.Exchange.{no_contract};
ghost use Rattle.rules.specs.Memory.{recorded_trades, trade_stride};
ghost use Rattle.rules.specs.WellFormed.{trade_in_range};
ghost use Rattle.audit.specs.Parts.{tested};

use book::trades;
use rules::{Contract, Trade};

// "two different order numbers below the next"
fn order_numbers_in_range(t: Trade, next: u32) -> bool
    ensures { result ≡ (not (eqb t.buyorder t.sellorder) && leb 1 t.buyorder && ltb t.buyorder next && leb 1 t.sellorder && ltb t.sellorder next) }
{
    t.buyorder != t.sellorder
        && 1 <= t.buyorder
        && t.buyorder < next
        && 1 <= t.sellorder
        && t.sellorder < next
}

// "existing contract and accounts, .. a price allowed today, 1 to 1,000 lots, and for each leg open or close"
#[tactic(auto, using(crate::proofs::TestedTrades::trade_tested))]
fn trade_in_range(
    list: [Contract; rules::MAX_CONTRACTS],
    contracts: usize,
    accounts: usize,
    next: u32,
    t: Trade,
) -> bool
    requires { (contracts ≤ max_contracts) × ((c : ℕ) → c < contracts → terms_in_range (get_or list c no_contract) ≡ true) }
    ensures { result ≡ trade_in_range (tested list contracts accounts next) t }
{
    let c = t.contract as usize;
    c < contracts
        && (t.buyer as usize) < accounts
        && (t.seller as usize) < accounts
        && order_numbers_in_range(t, next)
        && terms::allowed_today(list[c], t.price)
        && terms::within(1, rules::MAX_LOTS, t.lots)
        && t.buyclose <= 1
        && t.sellclose <= 1
}

// The trades come as an area and a count, and not as a `Trades`: docs/RULES.md names this call.
pub fn trades_in_range(
    list: [Contract; rules::MAX_CONTRACTS],
    contracts: usize,
    accounts: usize,
    next: u32,
    area: &[u32],
    count: usize,
) -> bool
    requires contracts_le_max_contracts { (contracts ≤ max_contracts) × ((c : ℕ) → c < contracts → terms_in_range (get_or list c no_contract) ≡ true) }
    requires count_in_bounds { trade_stride * count ≤ length area.now }
    ensures { result ≡ all_of (trade_in_range (tested list contracts accounts next)) (recorded_trades area.now count) }
{
    (0..count).all(|i| trade_in_range(list, contracts, accounts, next, trades::trade_at(area, i)))
}
