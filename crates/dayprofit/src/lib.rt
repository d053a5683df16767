// The settlement price, and an account's profit of the day in a contract by Article 32 (document 01, "Margin and settlement"; 002).
#![tactic(auto)]

pub mod price;
pub mod profit;
pub mod sums;
