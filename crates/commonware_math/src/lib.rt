//! Algebra, polynomials and the Goldilocks field, proved.
#![tactic(auto)]

pub mod poly;
pub mod synthetic;

pub use math_base::algebra;
pub use math_codec::{codec, ordered};
pub use math_fields as fields;
pub use math_ntt::ntt;
pub use math_shards::shards;
