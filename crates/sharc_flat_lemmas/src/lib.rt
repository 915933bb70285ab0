//! Lemmas of flat code, and the definitions that they speak of: no code. The crates above cite proofs/.
#![tactic(auto)]
