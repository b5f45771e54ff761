//! Rows of values of distinct indices to coefficients, by the transforms of `math_transforms`: what
//! joins of shards do beyond these.
#![tactic(auto)]

pub(crate) mod dividing;
pub mod restoring;
