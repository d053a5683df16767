// The library's public calls over the engine: one command on any state, and a list of commands.
#![tactic(auto)]

pub mod execute;
pub mod run;
pub mod settling;
pub mod step;
