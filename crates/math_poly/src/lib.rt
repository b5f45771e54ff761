//! Polynomials over any space, by the lists of their coefficients.
#![tactic(auto)]

pub mod poly;
pub mod weights;
