// The day runner: a day file's commands played in turn, and the lines that they print.
#![tactic(auto)]

pub mod output;
pub mod play;
pub mod printing;
pub mod reading;
pub mod turn;
