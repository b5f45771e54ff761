//! What the library for C does, over words and bytes in the caller's memory: polynomials over the
//! Goldilocks field, shards, systematic shards, and their roots.
//!
//! The exports of `commonware_math_c` call it. They are a static library, of which the kit keeps
//! nothing that was proved; what stands here is proved once for all archives.
#![tactic(auto)]

pub mod blocks;
pub mod corrections;
pub mod decodings;
pub mod elements;
pub mod in_hand;
pub mod joining;
pub mod polynomials;
pub mod roots;
pub mod rows;
pub mod shards;
pub mod status;
pub mod systematic;
pub mod values;
pub mod weights;
