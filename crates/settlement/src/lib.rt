// The daily settlement (document 01, "Margin and settlement"; 002), above the book and on its stated promise alone.
#![tactic(auto)]

pub mod balances;
pub mod reopen;
pub mod settle;
