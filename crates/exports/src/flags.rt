// The flags of an insert, a cancel and a pull, made of what they say. For our own crates: it holds the constants above to the rules.
ghost use Rattle.exports.specs.Flags.{InsertFlagsRead, RemovalFlagsRead, price_flag, time_flag};
ghost use Rattle.laws.specs.Choice.{pick};
ghost use Rattle.std.specs.Prelude.{◌≡◌, ◌≤◌};

use crate::{
    FLAG_BEST, FLAG_CLOSE, FLAG_FILL_OR_KILL, FLAG_IMMEDIATE_OR_CANCEL, FLAG_MARKET, FLAG_OPERATOR,
    FLAG_SELL,
};
use rules::{PriceCondition, TimeCondition};

// A flag where it is set.
fn flag_if(set: bool, flag: u8) -> u8
    ensures { (result ≡ pick set flag 0) × (result ≤ flag) }
{
    if set { flag } else { 0 }
}

fn price_flag(condition: PriceCondition) -> u8
    ensures { (result ≡ price_flag condition) × (result ≤ 8) }
{
    match condition {
        PriceCondition::Limit(_) => 0,
        PriceCondition::Market => FLAG_MARKET,
        PriceCondition::Best => FLAG_BEST,
    }
}

fn time_flag(time: TimeCondition) -> u8
    ensures { (result ≡ time_flag time) × (result ≤ 32) }
{
    match time {
        TimeCondition::GoodForDay => 0,
        TimeCondition::ImmediateOrCancel => FLAG_IMMEDIATE_OR_CANCEL,
        TimeCondition::FillOrKill => FLAG_FILL_OR_KILL,
    }
}

// The flags of an insert: the rules read the same side, open or close, and conditions in them.
pub fn insert_flags(sell: bool, close: bool, condition: PriceCondition, time: TimeCondition) -> u8
    ensures { InsertFlagsRead sell close condition time result }
{
    flag_if(sell, FLAG_SELL) + flag_if(close, FLAG_CLOSE) + price_flag(condition) + time_flag(time)
}

// The flags of a cancel and of a pull: the rules read the operator's bit in them.
pub fn removal_flags(operator: bool) -> u8
    ensures { RemovalFlagsRead operator result }
{
    flag_if(operator, FLAG_OPERATOR)
}
