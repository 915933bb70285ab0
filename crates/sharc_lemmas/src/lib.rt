//! Lemmas of booleans, numbers, options and lists: no code. The crates above cite proofs/.
#![tactic(auto)]
