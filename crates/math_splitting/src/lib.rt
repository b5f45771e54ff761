//! Data to shards, of which any `min` give them back: the layer below `math_shards`, which joins
//! them.
#![tactic(auto)]

pub mod shards;
