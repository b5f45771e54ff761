//! Roots of shards: 32 bytes that bind a block which is kept in systematic shards.
//!
//! The record of a shard is the size of the block, the index, `min`, `total` and the mask, eight
//! bytes each, the highest first, and then the bytes of its row. The root of a block is that of the
//! tree of hashes over the records of its `total` shards (`hash_trees`). It is a function of the
//! block, `min` and `total` alone: no key and nothing random is in it.
//!
//! With the root and its path, each shard is checked alone. `join_under` takes the shards that are
//! under a root, whoever hands them in: if an honest `commit` made the root, what it gives is the
//! block that was committed to, or two different messages that were hashed have the same digest.
//! Whoever made the root himself can have made shards of no block; `join_committed` refuses these:
//! it gives only the block whose root is the one given.
//!
//! A root hides nothing, and a data shard is a piece of the data as it is.
#![tactic(auto)]

ghost use Rattle.std.specs.Prelude.{◌≡◌};
ghost use Rattle.shard_roots.specs.declared.Error.TheVariants.{Memory};

mod committing;
mod joining;
pub mod laws;
mod records;
mod shards;

pub use committing::{Commitment, commit};
pub use joining::{join_committed, join_under};
pub use shards::{Shard, is_shard_under, root_by_shard};
use std::alloc::AllocError;
use thiserror::Error;

/// Why a block is not committed to, or shards are not joined.
#[derive(Debug, Drop, Error)]
pub enum Error {
    /// Memory ran out.
    #[error("out of memory")]
    Memory(AllocError),
    /// There are more than 2^16 shards.
    #[error("more than 65536 shards")]
    TooMany,
    /// Shards that are under the root have different masks.
    #[error("shards of different masks")]
    Masks,
    /// `systematic_shards::decode` refuses the rows of the shards that are under the root.
    #[error("rows refused")]
    Rows(systematic_shards::Error),
    /// The block has another root.
    #[error("the root of no data")]
    Root,
}

impl From<AllocError> for Error {
    ghost from_gives = { λ x e. e ≡ Memory x };

    fn from(e: AllocError) -> Error {
        Error::Memory(e)
    }
}
