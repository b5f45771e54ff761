//! The mathematics on which the proofs of the crates above rest: no code runs here.
//!
//! The functions of `laws` have no parameters and an empty body. Their contracts are the main
//! theorems, for any type `T` with the structure of a commutative ring or a field on it.
#![tactic(auto)]

pub mod laws;
