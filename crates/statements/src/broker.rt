// The account's day as its clients', on a well-formed state. For this crate: each function says what it requires.
ghost use Rattle.rules.specs.Memory.{memory};
ghost use Rattle.statements.specs.Parts.{Brokered, Postable, PostedIs, ToldIs, clients_day};

use crate::{profits, writing};
use rules::State;
use rules::codes::Code;

// The counts of the three sections.
const SECTION_COUNTS: usize = 3 * rules::COUNT_WIDTH;

// The clients' day told; `area` has the trades with clients in the account's place, and `legs` of their legs are clients'.
fn tell<'a>(
    state: State,
    buys: &'a [u32],
    sells: &'a [u32],
    area: &'a [u32],
    starts: &[u32],
    clients: usize,
    legs: usize,
    out: &mut [u8],
) -> Result<usize, Code>
    requires { Brokered state buys.now sells.now area.now starts.now clients legs }
    ensures { ToldIs (clients_day state buys.now sells.now area.now starts.now clients) clients out.old result out.new }
{
    let accounts = clients::starts::client_accounts(starts, clients);
    let contracts = state.contractcount;
    let count = state.tradecount;
    let Some(now) = replaying::replay(accounts, contracts, clients::CLIENT_PLACES, area, count)
    else {
        return Err(Code::ClientClosesTooMuch);
    };
    let length = SECTION_COUNTS
        + writing::LEG_WIDTH * legs
        + sections::HOLDING_WIDTH * (clients * contracts)
        + writing::PROFIT_WIDTH * clients;
    if out.len() < length {
        return Err(Code::AreaTooShort);
    }
    // The state with clients in place of its accounts.
    let day = State {
        accounts,
        accountcount: clients,
        ..state
    };
    let books = profits::books(day, buys, sells, area);
    writing::put_statement(
        out,
        area,
        count,
        legs,
        now,
        books.closing,
        books.holding,
        clients,
        contracts,
    );
    Ok(length)
}

// From the postings on: the account exists, and its clients' starting lots add up.
pub fn posted_statement<'a>(
    state: State,
    buys: &'a [u32],
    sells: &'a [u32],
    trades: &[u32],
    place: u32,
    clients: u32,
    starts: &[u32],
    postings: &[u32],
    out: &mut [u8],
) -> Result<usize, Code>
    requires { Postable state buys.now sells.now trades.now place clients starts.now }
    ensures { PostedIs (memory state buys.now sells.now trades.now) place clients starts.now postings.now out.old result out.new }
{
    let mut area = [0u32; rules::TRADES_WORDS];
    let legs = clients::posting::post_trades(
        trades,
        state.tradecount,
        place,
        postings,
        clients,
        &mut area[..],
    )
    .ok_or(Code::OrderUnposted)?;
    tell(
        state,
        buys,
        sells,
        &area[..],
        starts,
        clients as usize,
        legs,
        out,
    )
}
