// Matching: an arriving order's sweep through the opposite queue, and its entry into the book.
#![tactic(auto)]

pub mod entry;
pub mod sweep;
