//! Proofs about whole numbers for the crates above: identities of rings, order and sign. It has no code.
#![tactic(auto)]
