// Mending a day file (ticket 11 of document 02).
#![tactic(auto)]

pub mod mend;
pub mod reasons;
pub mod verdict;
