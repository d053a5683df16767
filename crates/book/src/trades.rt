// The day's trades in their lent area: nine words each. In a clause a `Trades` is the list of its trades. For our own crates: what is
// given an area asks for the room of the trades that it names.
ghost use Rattle.std.specs.Prelude.{◌≡◌, [], ◌∷◌, ◌+◌, ◌*◌, ◌<◌, ◌≤◌, length, get_or, drop};
ghost use Rattle.areas.specs.Records.{store};
ghost use Rattle.rules.specs.Exchange.{no_trade};
ghost use Rattle.rules.specs.Memory.{recorded_trades, trade_from, trade_words, trade_stride};

use rules::Trade;
use std::marker::Model;

// `count` trades from the front of their area, read where they lie.
#[derive(Drop)]
pub struct Trades<'a> {
    area: &'a [u32],
    count: usize,
}

impl<'a> Model for Trades<'a> {
    ghost use Rattle.std.specs.Prelude.{◌*◌, ◌≤◌, List, length};
    ghost use Rattle.rules.specs.Memory.{recorded_trades, trade_stride};
    ghost use Rattle.rules.specs.declared.Trade.{Trade};

    ghost Value = { List Trade };

    ghost view = { λ t. recorded_trades t.area.now t.count };

    ghost invariant = { λ t. trade_stride * t.count ≤ length t.area.now };
}

impl<'a> Trades<'a> {
    // Requires the room of its trades.
    pub fn new(area: &'a [u32], count: usize) -> Self
        requires { trade_stride * count ≤ length area.now }
        ensures { result ≡ recorded_trades area.now count }
    {
        Trades { area, count }
    }

    pub fn len(&self) -> usize
        ensures { result ≡ length self.now }
    {
        self.count
    }

    // The trade at a place.
    pub fn trade(&self, i: usize) -> Trade
        requires { i < length self.now }
        ensures { result ≡ get_or self.now i no_trade }
    {
        trade_at(self.area, i)
    }
}

pub fn trade_at(area: &[u32], i: usize) -> Trade
    requires { trade_stride * i + trade_stride ≤ length area.now }
    ensures { result ≡ trade_from (drop (trade_stride * i) area.now) }
{
    let at = rules::TRADE_STRIDE * i;
    Trade {
        contract: area[at],
        price: area[at + 1],
        lots: area[at + 2],
        buyorder: area[at + 3],
        sellorder: area[at + 4],
        buyer: area[at + 5],
        seller: area[at + 6],
        buyclose: area[at + 7],
        sellclose: area[at + 8],
    }
}

pub fn put_trade(area: &mut [u32], i: usize, t: Trade)
    requires { trade_stride * i + trade_stride ≤ length area.old }
    ensures { area.new ≡ store trade_words area.old (trade_stride * i) (t ∷ []) }
{
    let at = rules::TRADE_STRIDE * i;
    area[at] = t.contract;
    area[at + 1] = t.price;
    area[at + 2] = t.lots;
    area[at + 3] = t.buyorder;
    area[at + 4] = t.sellorder;
    area[at + 5] = t.buyer;
    area[at + 6] = t.seller;
    area[at + 7] = t.buyclose;
    area[at + 8] = t.sellclose;
}
