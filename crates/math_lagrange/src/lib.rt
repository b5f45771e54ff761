//! Lagrange weights at points of a domain: for the value at a further point of a polynomial that is
//! known at some of them.
#![tactic(auto)]

pub mod weights;
