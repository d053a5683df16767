// This crate holds laws about the definitions of `rules` and no code: the sweep, the auction, queues, prices, holdings, what a command may touch (proofs/).

#![tactic(auto)]
