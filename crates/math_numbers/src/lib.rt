//! Whole numbers: remainders, orders, primes and bits, as the proofs of the crates above need them.
//! No code runs here.
//!
//! The functions of `laws` have no parameters and an empty body. Their contracts are the main
//! theorems.
#![tactic(auto)]

pub mod laws;
