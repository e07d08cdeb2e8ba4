// What a run gives for every input, the customer's three demands of it, and the cases P1 to P11: definitions and
// proofs, no code.
#![tactic(auto)]
