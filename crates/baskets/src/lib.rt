// Many commands in one call, with an area for their answers: bundles (ticket 1 of document 02), and lists of any length.
#![tactic(auto)]

pub mod answers;
pub mod basket;
pub mod list;
