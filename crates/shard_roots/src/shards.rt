//! Shards with their paths.

ghost use Rattle.std.specs.Prelude.{◌≡◌, ◌↔◌, ℕ, List, IsTrue, IfNone, IfSome};
ghost use Rattle.sha2.specs.Sha512.{sha512_256};
ghost use Rattle.shard_roots.specs.Joining.{IsShardUnder};

use crate::records::record_digest;
use hash_trees::{Digest, is_leaf_under, root_by_path};
use systematic_shards::Split;

/// A shard of a block, as whoever holds it hands it in.
#[derive(Clone, Copy)]
pub struct Shard<'a> {
    /// Which of the rows it is: below `min` a data row, else a parity row.
    pub index: u32,
    /// The mask of the block.
    pub mask: u32,
    /// The bytes of its row.
    pub cells: &'a [u8],
    /// Its path up to the root.
    pub path: &'a [Digest],
}

/// Returns whether the shard is under the root `top` by its path, as one of a block that is cut as
/// the split says.
///
/// If an honest `commit` made the root, such a shard is the one that was committed to, or two
/// different messages that were hashed have the same digest. It takes no memory.
///
/// ```
/// use shard_roots::{Shard, commit, is_shard_under};
/// use systematic_shards::Split;
/// let split = Split::new(1, 2, 4)?;
/// let mut parity = [0_u8; 8];
/// let commitment = commit(alloc, split, b"data", &mut parity)?;
/// let path = commitment.path(alloc, 1)?;
/// let shard = Shard { index: 1, mask: commitment.mask, cells: &parity, path: &path };
/// is_shard_under(&commitment.root(), split, &shard); // true
/// let other = Shard { index: 0, mask: commitment.mask, cells: &parity, path: &path };
/// is_shard_under(&commitment.root(), split, &other); // false
/// ```
pub fn is_shard_under(top: &Digest, split: Split, shard: &Shard<'_>) -> bool
    ensures { IsTrue result ↔ IsShardUnder sha512_256 split top.now shard.now }
{
    let leaf = record_digest(split, shard.mask, shard.index, shard.cells);
    is_leaf_under(
        top,
        split.total as usize,
        shard.index as usize,
        &leaf,
        shard.path,
    )
}

/// Returns the only root that the shard is under by its path, as one of a block that is cut as the
/// split says. There is none if its index is `total` or more, or if its path has a digest too few
/// or too many.
///
/// It says which root a shard claims. Whether that is the root of the block, only a root from a
/// trusted place tells.
///
/// ```
/// use shard_roots::{Shard, commit, root_by_shard};
/// use systematic_shards::Split;
/// let split = Split::new(1, 2, 4)?;
/// let mut parity = [0_u8; 8];
/// let commitment = commit(alloc, split, b"data", &mut parity)?;
/// let path = commitment.path(alloc, 1)?;
/// let shard = Shard { index: 1, mask: commitment.mask, cells: &parity, path: &path };
/// root_by_shard(split, &shard) == Some(commitment.root()); // true
/// let cut = Shard { index: 1, mask: commitment.mask, cells: &parity, path: &[] };
/// root_by_shard(split, &cut); // None
/// ```
pub fn root_by_shard(split: Split, shard: &Shard<'_>) -> Option<Digest>
    ensures some { IfSome result (λ top. IsShardUnder sha512_256 split top shard.now) }
    ensures only { IfSome result (λ top. (other : List ℕ)
        → IsShardUnder sha512_256 split other shard.now → other ≡ top) }
    ensures none { IfNone result ((other : List ℕ)
        → ¬ (IsShardUnder sha512_256 split other shard.now)) }
{
    let leaf = record_digest(split, shard.mask, shard.index, shard.cells);
    root_by_path(
        split.total as usize,
        shard.index as usize,
        &leaf,
        shard.path,
    )
}
