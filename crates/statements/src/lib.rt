// Client statements (ticket 9 of document 02): the orders of one account posted to its clients, and each client's trades, holdings and
// profit told as bytes. The state and its areas are lent for reading only.
#![tactic(auto)]

ghost use Rattle.rules.specs.Memory.{memory};
ghost use Rattle.statements.specs.Parts.{broker, StatedIs};
ghost use Rattle.statements.specs.Statement.{StatementIs};

use engine::answers;
use rules::State;
use rules::codes::Code;

mod broker;
mod profits;
pub mod writing;

// 0, or the code that refuses, and how many bytes are written.
#[repr(C)]
#[derive(Clone, Copy)]
pub struct Statement {
    pub code: u32,
    pub length: usize,
}

// A call for users: it answers on anything. `starts` has eight words for each client, long and short lots in each of four contracts;
// `postings` has two words for each posting, an order's number and a client's. State and areas one by one, as C lends them.
pub fn client_statement<'a>(
    state: State,
    buys: &'a [u32],
    sells: &'a [u32],
    trades: &[u32],
    account: u32,
    clients: u32,
    starts: &[u32],
    postings: &[u32],
    out: &mut [u8],
) -> Statement
    ensures { StatementIs (memory state buys.now sells.now trades.now) account (broker clients starts.now postings.now) out.old result out.new }
{
    match stated(
        state, buys, sells, trades, account, clients, starts, postings, out,
    ) {
        Ok(length) => Statement { code: 0, length },
        Err(code) => Statement {
            code: code.number(),
            length: 0,
        },
    }
}

// The statement's length, or why it is refused: "Nothing is then written."
fn stated<'a>(
    state: State,
    buys: &'a [u32],
    sells: &'a [u32],
    trades: &[u32],
    account: u32,
    clients: u32,
    starts: &[u32],
    postings: &[u32],
    out: &mut [u8],
) -> Result<usize, Code>
    ensures { StatedIs (memory state buys.now sells.now trades.now) account (broker clients starts.now postings.now) out.old result out.new }
{
    if !audit::well_formed(state, buys, sells, trades) {
        return Err(Code::StateNotWellFormed);
    }
    if answers::is_absent(account, state.accountcount) {
        return Err(Code::NoSuchAccount);
    }
    if clients::MAX_CLIENTS < clients {
        return Err(Code::ClientsDoNotFit);
    }
    let holder = state.accounts[laws::place_of(account)];
    if !clients::starts::add_up(
        starts,
        clients as usize,
        holder.holdings,
        state.contractcount,
    ) {
        return Err(Code::ClientsDoNotFit);
    }
    broker::posted_statement(
        state,
        buys,
        sells,
        trades,
        laws::place_word(account),
        clients,
        starts,
        postings,
        out,
    )
}
