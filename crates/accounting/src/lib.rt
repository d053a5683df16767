// This crate holds theorems about the rules and no code: Article 32, the money bounds and condition 3 (specs/, proofs/).

#![tactic(auto)]
