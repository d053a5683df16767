// The settle command: its refusals, then the settlement. For our own crates: it asks for a well-formed state.
ghost use Rattle.std.specs.Prelude.{◌≡◌, ◌≤◌, eqb, get_or};
ghost use Rattle.laws.specs.Choice.{all};
ghost use Rattle.rules.specs.Bounds.{max_contracts, closed};
ghost use Rattle.rules.specs.Codes.{code_in};
ghost use Rattle.rules.specs.Kinds.{code_of};
ghost use Rattle.rules.specs.Exchange.{no_contract};
ghost use Rattle.rules.specs.Memory.{exchange_of, memory, WellFormedState};
ghost use Rattle.rules.specs.declared.Command.TheVariants.{Settle};
ghost use Rattle.engine.specs.Market.{memory_of};
ghost use Rattle.exchange.specs.Response.{ResponseIs, no_report, with_report};

use engine::answers;
use engine::answers::Outcome;
use engine::market::Market;
use rules::codes::Code;
use rules::{Answer, Contract, State};

// What a settlement reports: each contract's settlement price; each account's closing and holding profit, and its charged
// margin after the settlement. All zero where there was none.
#[repr(C)]
#[derive(Clone, Copy)]
pub struct Report {
    pub prices: [u32; rules::MAX_CONTRACTS],
    pub closing: [i64; rules::MAX_ACCOUNTS],
    pub holding: [i64; rules::MAX_ACCOUNTS],
    pub charged: [u64; rules::MAX_ACCOUNTS],
}

// An answer, the state after it and the report.
#[repr(C)]
#[derive(Clone, Copy)]
pub struct Response {
    pub answer: Answer,
    pub state: State,
    pub report: Report,
}

// An outcome with nothing to report.
pub fn plain(o: Outcome) -> Response
    ensures { result ≡ with_report o no_report }
{
    Response {
        answer: o.answer,
        state: o.state,
        report: Report {
            prices: [0; rules::MAX_CONTRACTS],
            closing: [0; rules::MAX_ACCOUNTS],
            holding: [0; rules::MAX_ACCOUNTS],
            charged: [0; rules::MAX_ACCOUNTS],
        },
    }
}

// Whether the first n contracts are closed.
fn all_closed(contracts: [Contract; rules::MAX_CONTRACTS], n: usize) -> bool
    requires { n ≤ max_contracts }
    ensures { result ≡ all (λ c. eqb (get_or contracts c no_contract).phase closed) n }
{
    (0..n).all(|c| contracts[c].phase == rules::CLOSED)
}

// Codes 18 and 19.
fn code(market: &Market<'_>) -> Result<(), Code>
    ensures { code_in result ≡ code_of (exchange_of (memory_of market.now)) Settle }
{
    if !all_closed(market.state.contracts, market.state.contractcount) {
        return Err(Code::ContractNotClosed);
    }
    if market.state.settlements >= rules::MAX_SETTLEMENTS {
        return Err(Code::SettlementsUsedUp);
    }
    Ok(())
}

pub fn settle(state: &State, buys: &mut [u32], sells: &mut [u32], trades: &mut [u32]) -> Response
    requires { WellFormedState state.now buys.old sells.old trades.old }
    ensures { ResponseIs (memory state.now buys.old sells.old trades.old) Settle result buys.new sells.new trades.new }
{
    let market = Market {
        state,
        buys: &buys[..],
        sells: &sells[..],
        trades: &trades[..],
    };
    if let Err(code) = code(&market) {
        return plain(answers::refused(*state, code.number()));
    }
    let s = settlement::settle::settle(*state, buys, sells, trades);
    let prices = s.prices;
    let closing = s.closing;
    let holding = s.holding;
    let charged = s.charged;
    Response {
        answer: Answer {
            code: 0,
            number: 0,
            traded: 0,
            lots: 0,
        },
        state: s.state,
        report: Report {
            prices,
            closing,
            holding,
            charged,
        },
    }
}
