// A command's record as a command: kind, flags, and the fields that its kind leaves unused. Every record has an answer; what
// document 01 gives code 1 is `Malformed`.
#![tactic(auto)]

ghost use Rattle.std.specs.Prelude.{◌≡◌, [], ◌∷◌};
ghost use Rattle.rules.specs.Command.{zeros, price_condition, time_condition, insert_flags, new_order, deposit_of, withdraw_of, insert_of, cancel_of, pull_of, phase_of, settle_of, quote_of, change_of, command_of, kind_number, is_malformed, is_settle};
ghost use Rattle.commands.specs.Accounts.{account_number, place_among};

use rules::{Command, NewOrder, PriceCondition, Record, TimeCondition};

// "Fields not used are zero": each kind hands over its unused fields, and 0 for the others.
#[tactic(auto, unfolding(laws::specs::Choice::all_of, rules::specs::Command::zeros))]
fn all_zero(
    account: u8,
    contract: u8,
    flags: u8,
    lots: u32,
    price: u32,
    number: u32,
    amount: u64,
) -> bool
    ensures { result ≡ zeros (account ∷ contract ∷ flags ∷ lots ∷ price ∷ number ∷ amount ∷ []) }
{
    account == 0
        && contract == 0
        && flags == 0
        && lots == 0
        && price == 0
        && number == 0
        && amount == 0
}

// A match on the number: here it becomes the condition.
#[tactic(auto, unfolding(rules::specs::Command::price_condition))]
fn price_condition(value: u8, price: u32) -> PriceCondition
    ensures { result ≡ price_condition value price }
{
    match value {
        0 => PriceCondition::Limit(price),
        1 => PriceCondition::Market,
        _ => PriceCondition::Best,
    }
}

// As for the price: here the number becomes the condition.
#[tactic(auto, unfolding(rules::specs::Command::time_condition))]
fn time_condition(value: u8) -> TimeCondition
    ensures { result ≡ time_condition value }
{
    match value {
        0 => TimeCondition::GoodForDay,
        1 => TimeCondition::ImmediateOrCancel,
        _ => TimeCondition::FillOrKill,
    }
}

// "bits 6 and 7 zero", and a known value in either condition.
fn insert_flags(flags: u8) -> bool
    ensures { result ≡ insert_flags flags }
{
    if (flags >> 6) & 3 != 0 {
        return false;
    }
    if (flags >> 2) & 3 >= 3 {
        return false;
    }
    (flags >> 4) & 3 < 3
}

fn new_order(r: Record) -> NewOrder
    ensures { result ≡ new_order r }
{
    let flags = r.flags;
    let condition = price_condition((flags >> 2) & 3, r.price);
    let time = time_condition((flags >> 4) & 3);
    NewOrder {
        account: r.account as u32,
        contract: r.contract as u32,
        sell: flags & 1 == 1,
        close: (flags >> 1) & 1 == 1,
        lots: r.lots,
        price: r.price,
        condition: condition,
        time: time,
    }
}

// Not one function with `withdraw_of`: each has a variant and a definition of its own.
#[tactic(auto, unfolding(laws::specs::Choice::all_of, rules::specs::Command::zeros, rules::specs::Command::deposit_of))]
fn deposit_of(r: Record) -> Command
    ensures { result ≡ deposit_of r }
{
    if all_zero(0, r.contract, r.flags, r.lots, r.price, r.number, 0) {
        Command::Deposit {
            account: r.account as u32,
            amount: r.amount,
        }
    } else {
        Command::Malformed
    }
}

// A variant and a definition of its own, as `deposit_of`.
#[tactic(auto, unfolding(laws::specs::Choice::all_of, rules::specs::Command::zeros, rules::specs::Command::withdraw_of))]
fn withdraw_of(r: Record) -> Command
    ensures { result ≡ withdraw_of r }
{
    if all_zero(0, r.contract, r.flags, r.lots, r.price, r.number, 0) {
        Command::Withdraw {
            account: r.account as u32,
            amount: r.amount,
        }
    } else {
        Command::Malformed
    }
}

#[tactic(auto, unfolding(laws::specs::Choice::all_of, rules::specs::Command::zeros, rules::specs::Command::insert_of))]
fn insert_of(r: Record) -> Command
    ensures { result ≡ insert_of r }
{
    if !all_zero(0, 0, 0, 0, 0, r.number, r.amount) {
        return Command::Malformed;
    }
    if !insert_flags(r.flags) {
        return Command::Malformed;
    }
    let order = new_order(r);
    Command::Insert(order)
}

// "Cancel and pull flags: bit 0 operator, the rest zero."
#[tactic(auto, unfolding(laws::specs::Choice::all_of, rules::specs::Command::zeros, rules::specs::Command::cancel_of))]
fn cancel_of(r: Record) -> Command
    ensures { result ≡ cancel_of r }
{
    if !all_zero(0, 0, 0, r.lots, r.price, 0, r.amount) {
        return Command::Malformed;
    }
    let flags = r.flags;
    if 1 < flags {
        return Command::Malformed;
    }
    Command::Cancel {
        account: r.account as u32,
        contract: r.contract as u32,
        operator: flags & 1 == 1,
        number: r.number,
    }
}

#[tactic(auto, unfolding(laws::specs::Choice::all_of, rules::specs::Command::zeros, rules::specs::Command::pull_of))]
fn pull_of(r: Record) -> Command
    ensures { result ≡ pull_of r }
{
    if !all_zero(0, 0, 0, r.lots, r.price, r.number, r.amount) {
        return Command::Malformed;
    }
    let flags = r.flags;
    if 1 < flags {
        return Command::Malformed;
    }
    Command::Pull {
        account: r.account as u32,
        contract: r.contract as u32,
        operator: flags & 1 == 1,
    }
}

// "State flags: 0 pre-open, 1 continuous, 2 no trading, 3 closed", and 4, auction: above it they are unknown.
#[tactic(auto, unfolding(laws::specs::Choice::all_of, rules::specs::Command::zeros, rules::specs::Command::phase_of))]
fn phase_of(r: Record) -> Command
    ensures { result ≡ phase_of r }
{
    if !all_zero(r.account, 0, 0, r.lots, r.price, r.number, r.amount) {
        return Command::Malformed;
    }
    let phase = r.flags as u32;
    if rules::MAX_PHASE < phase {
        return Command::Malformed;
    }
    Command::Phase {
        contract: r.contract as u32,
        phase,
    }
}

#[tactic(auto, unfolding(laws::specs::Choice::all_of, rules::specs::Command::zeros, rules::specs::Command::settle_of))]
fn settle_of(r: Record) -> Command
    ensures { result ≡ settle_of r }
{
    if all_zero(
        r.account, r.contract, r.flags, r.lots, r.price, r.number, r.amount,
    ) {
        Command::Settle
    } else {
        Command::Malformed
    }
}

// "the price field holds the buy price, the order number field the sell price".
#[tactic(auto, unfolding(laws::specs::Choice::all_of, rules::specs::Command::zeros, rules::specs::Command::quote_of))]
fn quote_of(r: Record) -> Command
    ensures { result ≡ quote_of r }
{
    if all_zero(0, 0, r.flags, 0, 0, 0, r.amount) {
        Command::Quote {
            account: r.account as u32,
            contract: r.contract as u32,
            lots: r.lots,
            buy: r.price,
            sell: r.number,
        }
    } else {
        Command::Malformed
    }
}

// "Kind 9 .. gives account, contract, order number, the new remaining lots and the price."
#[tactic(auto, unfolding(laws::specs::Choice::all_of, rules::specs::Command::zeros, rules::specs::Command::change_of))]
fn change_of(r: Record) -> Command
    ensures { result ≡ change_of r }
{
    if all_zero(0, 0, r.flags, 0, 0, 0, r.amount) {
        Command::Change {
            account: r.account as u32,
            contract: r.contract as u32,
            number: r.number,
            lots: r.lots,
            price: r.price,
        }
    } else {
        Command::Malformed
    }
}

// The command that a record is, or `Malformed`: "kind, flag value or unused field is wrong". Here the number becomes the kind.
#[tactic(auto, unfolding(rules::specs::Command::command_of))]
pub fn command_of(r: Record) -> Command
    ensures { result ≡ command_of r }
{
    let kind = r.kind;
    match kind {
        1 => deposit_of(r),
        2 => withdraw_of(r),
        3 => insert_of(r),
        4 => cancel_of(r),
        5 => pull_of(r),
        6 => phase_of(r),
        7 => settle_of(r),
        8 => quote_of(r),
        9 => change_of(r),
        _ => Command::Malformed,
    }
}

// The number of a command's kind, 0 for `Malformed`: here the kind becomes the number.
pub fn kind_of(command: Command) -> u32
    ensures { result ≡ kind_number command }
{
    match command {
        Command::Malformed => 0,
        Command::Deposit { .. } => 1,
        Command::Withdraw { .. } => 2,
        Command::Insert(_) => 3,
        Command::Cancel { .. } => 4,
        Command::Pull { .. } => 5,
        Command::Phase { .. } => 6,
        Command::Settle => 7,
        Command::Quote { .. } => 8,
        Command::Change { .. } => 9,
    }
}

// Not one function with `is_settle`: each has a variant and a definition of its own.
pub fn is_malformed(command: Command) -> bool
    ensures { result ≡ is_malformed command }
{
    matches!(command, Command::Malformed)
}

// A variant and a definition of its own, as `is_malformed`.
pub fn is_settle(command: Command) -> bool
    ensures { result ≡ is_settle command }
{
    matches!(command, Command::Settle)
}

// The number of the account that a command names, 0 where its kind names none.
fn account_number(command: Command) -> u32
    ensures { result ≡ account_number command }
{
    match command {
        Command::Insert(o) => o.account,
        Command::Deposit { account, .. }
        | Command::Withdraw { account, .. }
        | Command::Cancel { account, .. }
        | Command::Pull { account, .. }
        | Command::Quote { account, .. }
        | Command::Change { account, .. } => account,
        Command::Malformed | Command::Phase { .. } | Command::Settle => 0,
    }
}

// The place of that account among so many, the first where it is none of them: whoever owns the state reads the account there and hands it
// to the command's kind, since a call that reads one account of a state at a place that varies copies them all.
pub fn account_place(command: Command, accounts: usize) -> usize
    ensures { result ≡ place_among (account_number command) accounts }
{
    let number = account_number(command);
    if number == 0 || accounts < number as usize {
        return 0;
    }
    laws::place_of(number)
}
