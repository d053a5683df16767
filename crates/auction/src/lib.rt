// The opening auction of one contract: the price that it trades at, and the match there (document 02, ticket 4).
#![tactic(auto)]

pub mod matched;
pub mod price;
