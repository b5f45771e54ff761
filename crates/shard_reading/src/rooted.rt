//! The block that rows give under its root.

ghost use Rattle.std.specs.Prelude.{◌≡◌, length, IsTrue, IfOk, IfSome};
ghost use Rattle.hash_trees.specs.Trees.{root};
ghost use Rattle.sha2.specs.Sha512.{sha512_256};
ghost use Rattle.shard_reading.specs.RootedRows.{AreParityLeaves};
ghost use Rattle.shard_reading.specs.declared.blocks.FoundBlock.{FoundBlock};
ghost use Rattle.shard_reading.specs.declared.rooted.Joined.TheVariants.{Block};
ghost use Rattle.shard_roots.specs.Commitments.{IsRootOfBlock};
ghost use Rattle.shard_roots.specs.Joining.{IsShardUnder};

use crate::blocks::FoundBlock;
use crate::joining::{FoundRow, block_given, one_mask};
use hash_trees::Digest;
use shard_files::committing::{Committed, row_in};
use shard_files::fault::Fault;
use shard_roots::{Shard, is_shard_under, join_committed, join_under};
use std::alloc::{AllocError, Global};
use systematic_shards::Split as RowSplit;

/// What rows of a block give under its root.
#[derive(Drop)]
pub enum Joined {
    Block(FoundBlock),
    /// A block with another root.
    OtherRoot,
    /// No block, though all are under the root.
    NoBlock,
    /// It is not known, since one of them may not be under the root.
    Others,
}

/// The parity rows of a block that was committed to, and the commitment.
#[derive(Drop)]
pub struct CommittedRows {
    split: RowSplit,
    committed: Committed,
    parity: Vec<u8>,
    ghost count: { length committed.commitment.tree ≡ split.total },
    ghost leaves: { AreParityLeaves split committed.commitment.mask parity.items
        committed.commitment.tree },
}

impl CommittedRows {
    /// Commits to a block.
    fn new(alloc: Global, split: RowSplit, bytes: &[u8]) -> Result<CommittedRows, Fault>
        requires { length bytes.now ≡ split.size }
        ensures { IfOk result (λ rows. IsRootOfBlock sha512_256 split bytes.now
            (root sha512_256 rows.committed.commitment.tree)) }
    {
        let mut parity = Vec::new(alloc);
        let committed = Committed::new(alloc, split, bytes, &mut parity)?;
        Ok(CommittedRows {
            split,
            committed,
            parity,
        })
    }

    /// Whether this is the commitment to a block that is cut in this way and has this root.
    pub fn is_of(&self, top: &Digest, split: RowSplit) -> bool
        ensures { IsTrue result → (split.min ≡ self.now.split.min)
            × (split.total ≡ self.now.split.total) × (split.size ≡ self.now.split.size)
            × (top.now ≡ root sha512_256 self.now.committed.commitment.tree) }
    {
        split.min == self.split.min
            && split.total == self.split.total
            && split.size == self.split.size
            && *top == self.committed.commitment.root()
    }

    /// Whether the shard is one of the parity rows, with its mask and its path. Then it is under the
    /// root, and need not be hashed.
    pub fn contains(&self, alloc: Global, shard: &Shard<'_>) -> Result<bool, AllocError>
        ensures { IfOk result (λ is_one. IsTrue is_one → IsShardUnder sha512_256 self.now.split
            (root sha512_256 self.now.committed.commitment.tree) shard.now) }
    {
        if shard.index < self.split.min || self.split.total <= shard.index {
            return Ok(false);
        }
        let place = shard.index - self.split.min;
        let row = row_in(&self.parity, place as usize, 8 * self.split.width);
        if shard.mask != self.committed.commitment.mask || shard.cells != row {
            return Ok(false);
        }
        let path = self.committed.path(alloc, shard.index)?;
        Ok(path.as_slice() == shard.path)
    }
}

/// A block that is under its root, and its parity rows.
#[derive(Drop)]
pub struct CommittedBlock {
    pub block: FoundBlock,
    pub rows: CommittedRows,
}

/// The block that rows give, where a commitment to it has this root, and their paths.
///
/// Then they are its own, and under the root, and none was hashed but those of the commitment.
pub fn block_committed(
    alloc: Global,
    root: &Digest,
    split: RowSplit,
    found: &[FoundRow],
) -> Result<Option<CommittedBlock>, Fault>
    ensures { IfOk result (λ answer. IfSome answer
        (λ it. IsRootOfBlock sha512_256 split it.block.bytes.items root.now)) }
{
    let Some(block) = block_given(alloc, split, found)? else {
        return Ok(None);
    };
    let rows = CommittedRows::new(alloc, split, &block.bytes)?;
    if !rows.is_of(root, split) || rows.committed.commitment.mask != block.mask {
        return Ok(None);
    }
    for row in found {
        if rows.committed.path(alloc, row.index)? != row.path {
            return Ok(None);
        }
    }
    let root = Some(*root);
    let block = FoundBlock { root, ..block };
    Ok(Some(CommittedBlock { block, rows }))
}

/// Joins rows of a block under its root. Where that is strict, the block is committed to again.
pub fn join_rows(
    alloc: Global,
    is_strict: bool,
    root: &Digest,
    split: RowSplit,
    found: &[FoundRow],
) -> Result<Joined, AllocError>
    ensures { IfOk result (λ joined. IsTrue is_strict → (block : FoundBlock)
        → joined ≡ Block block → IsRootOfBlock sha512_256 split block.bytes.items root.now) }
{
    let mut shards = Vec::new(alloc);
    for row in found {
        shards.push(row.shard())?;
    }
    let mut bytes = vec![in alloc; 0u8; split.size]?;
    match join_shards(alloc, is_strict, root, split, &shards, &mut bytes) {
        Ok(left_out) if left_out.is_empty() => Ok(Joined::Block(FoundBlock {
            bytes,
            mask: one_mask(found).unwrap_or(0),
            root: Some(*root),
        })),
        Err(shard_roots::Error::Memory(error)) => Err(error),
        Err(shard_roots::Error::Root) => Ok(Joined::OtherRoot),
        _ if are_under(root, split, &shards) => Ok(Joined::NoBlock),
        _ => Ok(Joined::Others),
    }
}

/// Joins shards of a block under its root, and commits to it again where that is strict.
fn join_shards(
    alloc: Global,
    is_strict: bool,
    root: &Digest,
    split: RowSplit,
    shards: &[Shard<'_>],
    bytes: &mut [u8],
) -> Result<Vec<usize>, shard_roots::Error>
    requires { length bytes.old ≡ split.size }
    ensures { IfOk result (λ _. IsTrue is_strict
        → IsRootOfBlock sha512_256 split bytes.new root.now) }
{
    if is_strict {
        join_committed(alloc, root, split, shards, bytes)
    } else {
        join_under(alloc, root, split, shards, bytes)
    }
}

/// Whether all the shards are under the root.
fn are_under(root: &Digest, split: RowSplit, shards: &[Shard<'_>]) -> bool {
    for shard in shards {
        if !is_shard_under(root, split, shard) {
            return false;
        }
    }
    true
}
