//! Fields: the Goldilocks field, with its laws.
#![tactic(auto)]

pub mod goldilocks;
pub mod laws;
