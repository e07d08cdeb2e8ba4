// Typed questions (order 4): their spelling, and how one is read. Definitions and laws, in specs and proofs: no code.
#![tactic(auto)]
