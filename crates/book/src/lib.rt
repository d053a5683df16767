// The order book of every contract, in areas that the caller lends: queues read and written, removals, recorded trades.
#![tactic(auto)]

pub mod orders;
pub mod queue;
pub mod removal;
pub mod side;
pub mod trades;
