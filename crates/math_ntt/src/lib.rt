//! Matrices, and vectors of polynomials with their values over domains of roots of unity.
#![tactic(auto)]

pub mod laws;
pub mod ntt;
