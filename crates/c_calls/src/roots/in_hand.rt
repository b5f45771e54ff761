//! Shards with their paths in the caller's memory.

ghost use Rattle.std.specs.Prelude.{◌≡◌, ◌*◌, length};
ghost use Rattle.hash_trees.specs.Steps.{path_steps};

use hash_trees::Digest;
use systematic_shards::Split;

/// Shards of a block: of each its index, its mask, its row, and its path in a place.
#[derive(Clone, Copy)]
pub struct ShardsWithPaths<'a> {
    /// How the block is cut.
    pub split: Split,
    /// The index of each.
    pub indices: &'a [u32],
    /// The mask of each.
    pub masks: &'a [u32],
    /// Their bytes, row after row.
    pub bytes: &'a [u8],
    /// Their paths, place after place.
    pub paths: &'a [Digest],
    ghost each: { length masks.now ≡ length indices.now },
    ghost whole: { length bytes.now ≡ length indices.now * (8 * split.width) },
    ghost places: { length paths.now ≡ length indices.now * path_steps split.total 0 },
}
