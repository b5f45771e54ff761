//! Division of polynomials with remainder, and polynomials from values of which some are wrong.
#![tactic(auto)]

mod coefficients;
pub mod decoding;
pub mod division;
mod euclid;
mod interpolation;
pub mod points;
