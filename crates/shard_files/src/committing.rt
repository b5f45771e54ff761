//! Commitments to blocks, which give their rows paths, and rows that lie one behind the other.

ghost use Rattle.std.specs.Prelude.{◌≡◌, ◌*◌, ◌-◌, ◌<◌, ◌≤◌, [], length, drop, take, IfOk};
ghost use Rattle.hash_trees.specs.Binding.{leaves};
ghost use Rattle.hash_trees.specs.Trees.{path, root};
ghost use Rattle.sha2.specs.Sha512.{sha512_256};
ghost use Rattle.shard_roots.specs.Commitments.{IsRootOfBlock};
ghost use Rattle.shard_roots.specs.Records.{shard_records};

use crate::fault::Fault;
use hash_trees::Digest;
use shard_roots::{Commitment, commit};
use std::alloc::{AllocError, Global};
use systematic_shards::Split as RowSplit;

/// A commitment to a block in so many shards.
#[derive(Drop)]
pub struct Committed {
    pub commitment: Commitment,
    total: u32,
    pub ghost whole: { length commitment.tree ≡ total },
}

impl Committed {
    /// Commits to a block, and writes its parity rows over `parity`.
    pub fn new(
        alloc: Global,
        split: RowSplit,
        bytes: &[u8],
        parity: &mut Vec<u8>,
    ) -> Result<Committed, Fault>
        requires { length bytes.now ≡ split.size }
        ensures root { IfOk result (λ c. IsRootOfBlock sha512_256 split bytes.now
            (root sha512_256 c.commitment.tree)) }
        ensures tree { IfOk result (λ c. c.commitment.tree ≡ leaves sha512_256
            (shard_records split c.commitment.mask bytes.now parity.new.items)) }
        ensures count { IfOk result (λ c. length c.commitment.tree ≡ split.total) }
        ensures room { IfOk result (λ c. length parity.new.items
            ≡ (split.total - split.min) * (8 * split.width)) }
    {
        let size = (split.total - split.min) as usize * (8 * split.width);
        parity.resize(size, 0)?;
        match commit(alloc, split, bytes, parity) {
            Ok(commitment) => Ok(Committed {
                commitment,
                total: split.total,
            }),
            Err(shard_roots::Error::Memory(error)) => Err(Fault::from(error)),
            Err(_) => Err(Fault::Cells),
        }
    }

    /// The path of the shard of this index, or none beyond the last.
    pub fn path(&self, alloc: Global, index: u32) -> Result<Vec<Digest>, AllocError>
        ensures path { index < length self.now.commitment.tree → IfOk result
            (λ others. others.items ≡ path sha512_256 self.now.commitment.tree index) }
        ensures none { length self.now.commitment.tree ≤ index → IfOk result
            (λ others. others.items ≡ []) }
    {
        if index < self.total {
            return self.commitment.path(alloc, index);
        }
        Ok(Vec::new(alloc))
    }
}

/// Row number `place` of rows of so many bytes that lie one behind the other, as far as it is
/// there.
pub fn row_in(rows: &[u8], place: usize, width: usize) -> &[u8]
    ensures { result.now ≡ take width (drop (place * width) rows.now) }
{
    let from = place.saturating_mul(width).min(rows.len());
    let (_, rest) = rows.split_at(from);
    let (row, _) = rest.split_at(width.min(rest.len()));
    row
}
