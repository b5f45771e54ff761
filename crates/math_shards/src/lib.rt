//! Gives data back from shards, even if some of them are wrong. `math_splitting` below makes the
//! shards, and this crate hands it on.
#![tactic(auto)]

pub mod laws;
pub mod shards;
