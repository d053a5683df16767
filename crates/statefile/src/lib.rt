// The state saved as a file (ticket 10 of document 02): what is written and what is read (specs/), and their laws (proofs/). No code.

#![tactic(auto)]
