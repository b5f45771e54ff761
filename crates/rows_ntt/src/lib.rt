//! The calls of `math_ntt` that rows name: each module runs those of one subject.
#![tactic(auto)]

pub mod bitmaps;
pub mod bounds;
mod compared;
pub mod correction;
pub mod matrices;
pub mod recovery;
mod refusing;
pub mod transforms;
pub mod vectors;
