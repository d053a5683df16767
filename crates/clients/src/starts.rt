// What the clients held at the start of the day. For our own crates: each function says what it requires.
ghost use Rattle.std.specs.Prelude.{◌&&◌, [], ◌≡◌, ◌+◌, ◌*◌, ◌<◌, ◌≤◌, eqb, ltb, get_or};
ghost use Rattle.laws.specs.Choice.{pick, all};
ghost use Rattle.laws.specs.Tabulate.{tabulate};
ghost use Rattle.rules.specs.Bounds.{max_contracts, max_accounts};
ghost use Rattle.rules.specs.Exchange.{no_holding};
ghost use Rattle.clients.specs.Parts.{clients_with};
ghost use Rattle.clients.specs.Clients.{client_account, client_holding, start_long, start_short, total, max_clients, starts_stride};

use rules::{Account, Holding};
use std::array;

// Two words for each contract of a client: long and short lots.
const STARTS_STRIDE: usize = 2 * rules::MAX_CONTRACTS;

// A word of the area, 0 past its end.
fn word_at(starts: &[u32], at: usize) -> u32
    ensures { result ≡ get_or starts.now at 0 }
{
    starts.get(at).copied().unwrap_or(0)
}

// What stands `first` words behind each client's first word, added up.
fn sum(starts: &[u32], first: usize, clients: usize) -> u64
    requires { (first < starts_stride) × (clients ≤ max_clients) }
    ensures { result ≡ total clients (λ k. get_or starts.now (starts_stride * k + first) 0) }
{
    let mut lots: u64 = 0;
    for k in 0..clients {
        lots += u64::from(word_at(starts, STARTS_STRIDE * k + first));
    }
    lots
}

// Whether the clients' long and short lots in contract c add up to a holding's.
fn adds_up(starts: &[u32], clients: usize, h: Holding, c: usize) -> bool
    requires { (clients ≤ max_clients) × (c < max_contracts) }
    ensures { result ≡ (eqb (total clients (λ k. start_long starts.now k c)) h.startlong && eqb (total clients (λ k. start_short starts.now k c)) h.startshort) }
{
    sum(starts, 2 * c, clients) == u64::from(h.startlong)
        && sum(starts, 2 * c + 1, clients) == u64::from(h.startshort)
}

// "The clients' start-of-day holdings must add up to the account's."
pub fn add_up(
    starts: &[u32],
    clients: usize,
    holdings: [Holding; rules::MAX_CONTRACTS],
    contracts: usize,
) -> bool
    requires { (clients ≤ max_clients) × (contracts ≤ max_contracts) }
    ensures { result ≡ all (λ c. eqb (total clients (λ k. start_long starts.now k c)) (get_or holdings c no_holding).startlong && eqb (total clients (λ k. start_short starts.now k c)) (get_or holdings c no_holding).startshort) contracts }
{
    for c in 0..contracts {
        if !adds_up(starts, clients, holdings[c], c) {
            return false;
        }
    }
    true
}

// The lots in contract c of the client at place k; past the clients, none.
fn start_holding(starts: &[u32], clients: usize, k: usize, c: usize) -> Holding
    requires { (k < max_accounts) × (c < max_contracts) }
    ensures { result ≡ client_holding (pick (ltb k clients) starts.now []) k c }
{
    if clients <= k {
        return Holding::default();
    }
    let long = word_at(starts, STARTS_STRIDE * k + 2 * c);
    let short = word_at(starts, STARTS_STRIDE * k + 2 * c + 1);
    Holding {
        long,
        short,
        startlong: long,
        startshort: short,
    }
}

fn client_account(starts: &[u32], clients: usize, k: usize) -> Account
    requires { k < max_accounts }
    ensures { result ≡ client_account (clients_with clients starts.now) k }
{
    let holdings = array::from_fn(|c| start_holding(starts, clients, k, c));
    Account {
        holdings,
        ..Account::default()
    }
}

// The clients as accounts.
pub fn client_accounts(starts: &[u32], clients: usize) -> [Account; rules::MAX_ACCOUNTS]
    ensures { result ≡ tabulate max_accounts (client_account (clients_with clients starts.now)) }
{
    array::from_fn(|k| client_account(starts, clients, k))
}
