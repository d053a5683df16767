// The refusals of an arriving order (document 01, "Numbers given back"; document 02, tickets 4, 7 and 8), and the order as they read it.
#![tactic(auto)]

pub mod codes;
pub mod orders;
