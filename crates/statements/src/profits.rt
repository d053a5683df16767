// The clients' profit at the settlement prices due, on a state whose accounts are the clients. For this crate: `books` asks for
// contracts that can be priced, and accounts that can be paid at those prices.
ghost use Rattle.settlement.specs.Settling.{BooksIs, prices_due};
ghost use Rattle.statements.specs.Parts.{ProfitsReady};

use rules::State;
use settlement::balances::Books;
use settlement::{balances, settle};

pub fn books<'a>(state: State, buys: &'a [u32], sells: &'a [u32], area: &'a [u32]) -> Books
    requires { ProfitsReady state buys.now sells.now area.now }
    ensures { BooksIs state area.now (prices_due state buys.now sells.now area.now) result }
{
    let prices = settle::prices_due(state, buys, sells, area);
    balances::all_paid(state, area, prices)
}
