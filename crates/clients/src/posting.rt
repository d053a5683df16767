// Which client each leg of the account is: the day's trades with clients in the account's place. For our own crates: each function says
// what it requires.
ghost use Rattle.std.specs.Prelude.{not, ◌||◌, ◌&&◌, ◌≡◌, ◌*◌, ◌≤◌, eqb, length};
ghost use Rattle.laws.specs.Choice.{pick};
ghost use Rattle.clients.specs.Parts.{PostingIs};
ghost use Rattle.clients.specs.Clients.{client_place, client_trade, is_client, legs_in, max_clients, others};
ghost use Rattle.rules.specs.Bounds.{max_trades};
ghost use Rattle.rules.specs.Memory.{trade_stride};

use crate::MAX_CLIENTS;
use book::trades;
use rules::Trade;

// The place behind the clients' stands for every other account.
const OTHERS: u32 = MAX_CLIENTS;

// The place of the client to whom an order is posted; the others' where it is unposted, posted twice or posted to an unknown client.
fn client_place(postings: &[u32], number: u32, clients: u32) -> u32
    ensures { result ≡ client_place clients postings.now number }
{
    let mut times: usize = 0;
    let mut client: u32 = 0;
    for i in 0..postings.len() / 2 {
        if postings[2 * i] == number {
            client = postings[2 * i + 1];
            times += 1;
        }
    }
    if times != 1 {
        return OTHERS;
    }
    if client < 1 || clients < client {
        return OTHERS;
    }
    laws::place_word(client)
}

// The place and the mark of a leg: its client's where it is the account's; every other leg is the others', and counts as an open.
fn client_leg(
    account: u32,
    a: u32,
    order: u32,
    close: u32,
    postings: &[u32],
    clients: u32,
) -> (u32, u32)
    ensures place { result.0 ≡ pick (eqb account a) (client_place clients postings.now order) others }
    ensures mark { result.1 ≡ pick (eqb account a) close 0 }
{
    if account != a {
        return (OTHERS, 0);
    }
    (client_place(postings, order, clients), close)
}

fn client_trade(t: Trade, a: u32, postings: &[u32], clients: u32) -> Trade
    ensures { result ≡ client_trade a clients postings.now t }
{
    let (buyer, buyclose) = client_leg(t.buyer, a, t.buyorder, t.buyclose, postings, clients);
    let (seller, sellclose) = client_leg(t.seller, a, t.sellorder, t.sellclose, postings, clients);
    Trade {
        buyer,
        seller,
        buyclose,
        sellclose,
        ..t
    }
}

// How many of a trade's legs are clients', the trade having clients in the account's place.
fn legs_in(t: Trade) -> usize
    ensures { (result ≡ legs_in t) × (result ≤ 2) }
{
    usize::from(t.buyer < MAX_CLIENTS) + usize::from(t.seller < MAX_CLIENTS)
}

// Whether the account's legs in a trade have clients; u is the trade with clients in the account's place.
fn is_posted(t: Trade, u: Trade, a: u32) -> bool
    ensures { result ≡ ((not (eqb t.buyer a) || is_client u.buyer) && (not (eqb t.seller a) || is_client u.seller)) }
{
    (t.buyer != a || u.buyer < MAX_CLIENTS) && (t.seller != a || u.seller < MAX_CLIENTS)
}

// The first `count` trades with clients in the account's place, written into `area`, up to the first that has a leg of the account's
// without a client. It gives the number of clients' legs, and none where there is such a trade.
// The trades come as an area and a count, and not as a `Trades`: docs/RULES.md names this call.
pub fn post_trades(
    trades: &[u32],
    count: usize,
    a: u32,
    postings: &[u32],
    clients: u32,
    area: &mut [u32],
) -> Option<usize>
    requires { (clients ≤ max_clients) × (count ≤ max_trades) × (trade_stride * count ≤ length trades.now) × (trade_stride * count ≤ length area.old) }
    ensures { PostingIs a clients postings.now trades.now count area.old result area.new }
{
    let mut legs: usize = 0;
    for i in 0..count {
        let t = trades::trade_at(trades, i);
        let u = client_trade(t, a, postings, clients);
        if !is_posted(t, u, a) {
            return None;
        }
        trades::put_trade(area, i, u);
        legs += legs_in(u);
    }
    Some(legs)
}
