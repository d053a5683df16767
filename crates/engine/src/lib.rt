// Deposit, withdraw, cancel and pull, each on a well-formed state and the areas lent with it.
#![tactic(auto)]

pub mod answers;
pub mod market;
pub mod payments;
pub mod removal;
pub mod updates;
