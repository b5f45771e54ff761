//! The calls of `math_poly`, `math_decoding` and `math_shards` that rows name, and of reading,
//! writing, sampling and texts of all types that have them: each module runs those of one subject.
#![tactic(auto)]

pub mod decoding;
pub mod encodings;
pub mod groups;
pub mod hostile;
pub mod polynomials;
pub mod sampling;
pub mod shards;
pub mod texts;
