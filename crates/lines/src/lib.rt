// The lines that the day runner prints, written into a lent buffer. Each call gives the place after what it wrote. For the
// crates of this repository: each requires room for the longest text that it can write.
#![tactic(auto)]

pub mod line;
pub mod number;
