//! Algebra by traits whose laws are proved.
#![tactic(auto)]

pub mod algebra;
pub mod laws;
pub mod weights;
