// "replaying the day's trades over the starting holdings never goes below zero and gives the holdings now". Asks for trades of
// contracts and accounts in use and for starting holdings that no day's trades lift past their width.
ghost use Rattle.std.specs.Prelude.{◌≡◌, ℕ, ◌*◌, ◌≤◌, ◌<◌, length, get_or, take};
ghost use Rattle.rules.specs.Bounds.{max_trades, max_contracts, max_accounts, max_limit};
ghost use Rattle.rules.specs.Exchange.{no_trade, holding_at};
ghost use Rattle.rules.specs.Holdings as holdings;
ghost use Rattle.rules.specs.Memory.{recorded_trades, used, trade_stride};
ghost use Rattle.rules.specs.WellFormed as wellformed;
ghost use Rattle.replaying.specs.Parts.{Booked};
ghost use Rattle.audit.specs.Parts.{replayed};

use rules::{Account, Holding};

fn start_holding(h: Holding) -> Holding
    ensures { result ≡ holdings.start_holding h }
{
    Holding {
        long: h.startlong,
        short: h.startshort,
        startlong: h.startlong,
        startshort: h.startshort,
    }
}

fn start_account(a: Account) -> Account
    ensures { result ≡ holdings.start_account a }
{
    Account {
        holdings: a.holdings.map(start_holding),
        ..a
    }
}

fn start_of_day(accounts: [Account; rules::MAX_ACCOUNTS]) -> [Account; rules::MAX_ACCOUNTS]
    ensures { result ≡ holdings.start_of_day accounts }
{
    let mut held = accounts;
    for a in held.iter_mut() {
        *a = start_account(*a);
    }
    held
}

// Two fields of four are compared, so not `==`.
fn has_same_lots(a: Account, b: Account, contracts: usize) -> bool
    requires { contracts ≤ max_contracts }
    ensures { result ≡ holdings.same_lots (take contracts a.holdings) (take contracts b.holdings) }
{
    let held = a.holdings[..contracts].iter();
    held.zip(b.holdings[..contracts].iter())
        .all(|(h, k)| h.long == k.long && h.short == k.short)
}

// Nor `==` here, for the same reason.
fn have_same_holdings(
    list: [Account; rules::MAX_ACCOUNTS],
    others: [Account; rules::MAX_ACCOUNTS],
    contracts: usize,
    accounts: usize,
) -> bool
    requires { (contracts ≤ max_contracts) × (accounts ≤ max_accounts) }
    ensures { result ≡ holdings.same_holdings (used contracts accounts list) (used contracts accounts others) }
{
    let held = list[..accounts].iter();
    held.zip(others[..accounts].iter())
        .all(|(a, b)| has_same_lots(*a, *b, contracts))
}

// The trades come as an area and a count, and not as a `Trades`: docs/RULES.md names this call.
pub fn replays(
    list: [Account; rules::MAX_ACCOUNTS],
    contracts: usize,
    accounts: usize,
    area: &[u32],
    count: usize,
) -> bool
    requires contracts_le_max_contracts { (contracts ≤ max_contracts) × (accounts ≤ max_accounts) × (count ≤ max_trades) × (trade_stride * count ≤ length area.now) }
    requires by_index { (i : ℕ) → i < count → Booked contracts accounts (get_or (recorded_trades area.now count) i no_trade) }
    requires by_index_2 { (a c : ℕ) → a < accounts → c < contracts → ((holding_at list a c).startlong ≤ max_limit) × ((holding_at list a c).startshort ≤ max_limit) }
    ensures { result ≡ wellformed.replays (replayed (used contracts accounts list) (recorded_trades area.now count)) }
{
    let start = start_of_day(list);
    match replaying::replay(start, contracts, accounts, area, count) {
        Some(held) => have_same_holdings(held, list, contracts, accounts),
        None => false,
    }
}
