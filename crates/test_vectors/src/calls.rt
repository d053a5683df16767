// The calls, each on what a vector gives and held against what the vector tells.
use book::side;
use exchange::settling::Report;
use mending::mend::Mended;
use rules::{Answer, State};
use saving::{Loaded, Saved};
use statements::Statement;
use test_given::building::{Areas, Given, queue_from};
use test_given::reading::{Reader, fill_bytes, first, narrowed, signed};

// The state, and of each area the words that the vector lends.
#[derive(Drop)]
struct Lent<'a> {
    state: &'a mut State,
    buys: &'a mut [u32],
    sells: &'a mut [u32],
    trades: &'a mut [u32],
    answers: &'a mut [u32],
}

// What a vector calls.
#[derive(Clone, Copy)]
pub enum Call {
    WellFormed,
    Command,
    Bundle,
    Question,
    Statement,
    Side,
    Mending,
    DayFile,
    Write,
    Read,
    List,
}

impl Call {
    // The call of a number.
    pub fn from_number(number: u64) -> Option<Call> {
        match number {
            1 => Some(Call::WellFormed),
            2 => Some(Call::Command),
            3 => Some(Call::Bundle),
            4 => Some(Call::Question),
            5 => Some(Call::Statement),
            6 => Some(Call::Side),
            7 => Some(Call::Mending),
            8 => Some(Call::DayFile),
            9 => Some(Call::Write),
            10 => Some(Call::Read),
            11 => Some(Call::List),
            _ => None,
        }
    }
}

fn well_formed(vector: &mut Reader, lent: &Lent) -> bool {
    let told = vector.number() == 1;
    audit::well_formed(*lent.state, lent.buys, lent.sells, lent.trades) == told
}

// "count of accounts told (0 where there was no settlement); if any: the four prices; for each account closing and holding profit
// (may be negative) and charged margin". What is not told is zero. Compared with numbers of the vector: there is no second report.
fn same_report(vector: &mut Reader, report: Report) -> bool {
    let accounts = vector.number() as usize;
    let mut prices = [0u32; rules::MAX_CONTRACTS];
    let mut closing = [0i64; rules::MAX_ACCOUNTS];
    let mut holding = [0i64; rules::MAX_ACCOUNTS];
    let mut charged = [0u64; rules::MAX_ACCOUNTS];
    if accounts > 0 {
        prices = vector.record();
    }
    for k in 0..accounts.min(rules::MAX_ACCOUNTS) {
        let [c, h, margin] = vector.numbers::<3>();
        closing[k] = signed(c);
        holding[k] = signed(h);
        charged[k] = margin;
    }
    report.prices == prices
        && report.closing == closing
        && report.holding == holding
        && report.charged == charged
}

fn command(vector: &mut Reader, lent: &mut Lent) -> bool {
    let mut bytes = [0u8; rules::COMMAND_WIDTH];
    vector.bytes(&mut bytes);
    let response = exchange::execute::execute(
        *lent.state,
        lent.buys,
        lent.sells,
        lent.trades,
        bytes,
    );
    *lent.state = response.state;
    let [code, number, traded, lots] = vector.record::<4>();
    let answer = Answer {
        code,
        number,
        traded,
        lots,
    };
    let same = same_report(vector, response.report);
    same && response.answer == answer
}

// The code and the state after a bundle, the bytes being the bundle's.
fn bundle(vector: &mut Reader, lent: &mut Lent) -> bool {
    let mut bytes = [0u8; 2500];
    let commands = vector.part_of(&mut bytes);
    let receipt = baskets::basket::submit_bytes(
        *lent.state,
        lent.buys,
        lent.sells,
        lent.trades,
        commands,
        lent.answers,
    );
    *lent.state = receipt.state;
    let code: u32 = narrowed(vector.number());
    receipt.code == code
}

// A list of commands with their answers: how many were played.
fn run_list(vector: &mut Reader, lent: &mut Lent) -> bool {
    let mut bytes = [0u8; 3000];
    let commands = vector.part_of(&mut bytes);
    let ran = baskets::list::run(
        *lent.state,
        lent.buys,
        lent.sells,
        lent.trades,
        commands,
        lent.answers,
    );
    *lent.state = ran.state;
    ran.played as u64 == vector.number()
}

fn question(vector: &mut Reader, lent: &Lent) -> bool {
    let mut bytes = [0u8; rules::COMMAND_WIDTH];
    vector.bytes(&mut bytes);
    let found = query::gettable(*lent.state, lent.buys, lent.sells, lent.trades, bytes);
    let [code, lots] = vector.record::<2>();
    let read = vector.number();
    found.code == code && found.lots == lots && found.read as u64 == read
}

// "1 for sells, contract, contracts, count": the orders told are those of the queue, from its first on.
fn side(vector: &mut Reader, lent: &Lent) -> bool {
    let [side, contract, contracts, count, orders] = vector.numbers::<5>();
    let sell = side == 1;
    let contract = contract as usize;
    let part = side::side(
        lent.buys,
        lent.sells,
        sell,
        contract,
        contracts as usize,
        count as usize,
    );
    let area = if sell {
        &lent.sells[..]
    } else {
        &lent.buys[..]
    };
    let words = rules::ORDER_STRIDE.saturating_mul(orders as usize);
    part.len() == words && part == first(queue_from(area, contract), words)
}

// Whether as many bytes are told, and an area holds them, behind which it is as it was filled.
fn same_bytes(vector: &mut Reader, area: &[u8], length: usize) -> bool {
    let mut told = [0u8; 50000];
    fill_bytes(&mut told);
    vector.bytes(&mut told) == length && area == first(&told, area.len())
}

fn statement(vector: &mut Reader, lent: &Lent) -> bool {
    let [account, clients] = vector.record::<2>();
    let mut lots = [0u32; 200];
    let starts = vector.words(&mut lots);
    let mut posted = [0u32; 200];
    let postings = vector.words(&mut posted);
    let length = vector.number() as usize;
    let code: u32 = narrowed(vector.number());
    let mut out = [0u8; 2100];
    fill_bytes(&mut out);
    let found = match out.get_mut(..length) {
        Some(part) => statements::client_statement(
            *lent.state,
            lent.buys,
            lent.sells,
            lent.trades,
            account,
            clients,
            starts,
            postings,
            part,
        ),
        None => Statement { code: 0, length: 0 },
    };
    let same = same_bytes(vector, &out, found.length);
    same && found.code == code
}

// What a mending gives; where there is no area, as it would refuse with code 1.
fn mended(source: &[u8], out: Option<&mut [u8]>, list: Option<&mut [u8]>) -> Mended {
    if let (Some(out), Some(list)) = (out, list) {
        return mending::mend::mend(source, out, list);
    }
    Mended {
        code: 1,
        length: 0,
        listed: 0,
    }
}

fn mend_file(vector: &mut Reader) -> bool {
    let mut file = [0u8; 50000];
    let source = vector.part_of(&mut file);
    let [length, list_length] = vector.numbers::<2>();
    let code: u32 = narrowed(vector.number());
    let mut out = [0u8; 50000];
    fill_bytes(&mut out);
    let mut list = [0u8; 1000];
    fill_bytes(&mut list);
    let found = mended(
        source,
        out.get_mut(..length as usize),
        list.get_mut(..list_length as usize),
    );
    let same = same_bytes(vector, &out, found.length);
    let same_list = same_bytes(vector, &list, found.listed);
    same && same_list && found.code == code
}

// "the area's length, the code, the bytes written"
fn save_state(vector: &mut Reader, lent: &Lent) -> bool {
    let length = vector.number() as usize;
    let code: u32 = narrowed(vector.number());
    let mut out = [0u8; 2100];
    fill_bytes(&mut out);
    let found = match out.get_mut(..length) {
        Some(part) => { saving::write_state(*lent.state, lent.buys, lent.sells, lent.trades, part) }
        None => Saved { code: 0, length: 0 },
    };
    let same = same_bytes(vector, &out, found.length);
    same && found.code == code
}

// A function of its own: its parameter lends for reading what `load_state` then writes.
fn read_back(file: &[u8], lent: &Lent) -> Loaded {
    saving::read_state(file, *lent.state, lent.buys, lent.sells, lent.trades)
}

// "the file's bytes, the code"; the state that is left is told behind them
fn load_state(vector: &mut Reader, lent: &mut Lent) -> bool {
    let mut bytes = [0u8; 2100];
    let source = vector.part_of(&mut bytes);
    let found = read_back(source, lent);
    *lent.state = found.state;
    let code: u32 = narrowed(vector.number());
    found.code == code
}

fn day_file(vector: &mut Reader) -> bool {
    let mut bytes = [0u8; 50000];
    let sound = dayfile::file::sound(vector.part_of(&mut bytes));
    sound == (vector.number() == 1)
}

// Whether a call answers as told; what it leaves is in what was lent.
fn run_call(vector: &mut Reader, call: Call, lent: &mut Lent) -> bool {
    match call {
        Call::WellFormed => well_formed(vector, lent),
        Call::Command => command(vector, lent),
        Call::Bundle => bundle(vector, lent),
        Call::Question => question(vector, lent),
        Call::Statement => statement(vector, lent),
        Call::Side => side(vector, lent),
        Call::Mending => mend_file(vector),
        Call::DayFile => day_file(vector),
        Call::Write => save_state(vector, lent),
        Call::Read => load_state(vector, lent),
        Call::List => run_list(vector, lent),
    }
}

// A call on what a vector gives, the areas cut to their lengths. A vector that tells longer areas than this program has differs.
pub fn run(vector: &mut Reader, call: Call, given: &mut Given) -> bool {
    let Given {
        state,
        areas: Areas {
            buys,
            sells,
            trades,
            answers,
        },
        lengths,
    } = given;
    if lengths.buys > buys.len()
        || lengths.sells > sells.len()
        || lengths.trades > trades.len()
        || lengths.answers > answers.len()
    {
        return false;
    }
    let mut lent = Lent {
        state,
        buys: &mut buys[..lengths.buys],
        sells: &mut sells[..lengths.sells],
        trades: &mut trades[..lengths.trades],
        answers: &mut answers[..lengths.answers],
    };
    run_call(vector, call, &mut lent)
}
