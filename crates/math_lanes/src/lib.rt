//! Vectors of words modulo P = 2^64 - 2^32 + 1, the modulus of the Goldilocks field.
//!
//! A vector has N lanes, a word each. Each operation does the same on all lanes, and its contract
//! says of each lane of the answer what it is.
#![tactic(auto)]

pub mod elements;
pub mod words;
