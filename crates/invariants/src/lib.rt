// That every step keeps a well-formed state well formed: laws in proofs/, no code.

#![tactic(auto)]
