//! Commitments to blocks.

ghost use Rattle.std.specs.Prelude.{◌≡◌, ◌-◌, ◌*◌, ◌<◌, ◌≤◌, ◌^◌, length, All};
ghost use Rattle.std.specs.Prelude.{IfOk, IfErr, OnErr, OnOk};
ghost use Rattle.hash_trees.specs.Binding.{leaves};
ghost use Rattle.hash_trees.specs.Trees.{path, root};
ghost use Rattle.sha2.specs.Sha512.{sha512_256};
ghost use Rattle.shard_roots.specs.Commitments.{AreParityOf, IsCommitment, IsRootOfBlock};
ghost use Rattle.shard_roots.specs.Joining.{IsCommitDue};
ghost use Rattle.shard_roots.specs.Records.{shard_records};

use crate::Error;
use crate::records::shard_leaves;
use hash_trees::{Digest, Tree, root};
use std::alloc::{AllocError, Global};
use systematic_shards::{Split, encode};

/// 2^16: a block that is committed to has no more shards.
pub(crate) const MOST: u32 = 0x1_0000;

/// What a block is committed to by, and what its shards are handed out with.
#[derive(Drop)]
pub struct Commitment {
    /// The mask of the block.
    pub mask: u32,
    /// The tree over the records of the shards, by rising index.
    pub tree: Tree,
}

impl Commitment {
    /// Returns the root.
    pub fn root(&self) -> Digest
        ensures { result ≡ root sha512_256 self.now.tree }
    {
        self.tree.root()
    }

    /// Returns the path of the shard of this index.
    pub fn path(&self, alloc: Global, index: u32) -> Result<Vec<Digest>, AllocError>
        requires { index < length self.now.tree }
        ensures { IfOk result (λ others. others.items ≡ path sha512_256 self.now.tree index) }
    {
        self.tree.path(alloc, index as usize)
    }
}

/// The mask and the parity rows of a block, and the leaves of its shards.
#[derive(Drop)]
struct Shards {
    mask: u32,
    parity: Vec<u8>,
    leaves: Vec<Digest>,
}

/// The shards of a block. It takes memory as `encode` does, for the parity rows, for one row, and
/// for a digest of each shard.
fn shards_of(alloc: Global, split: Split, block: &[u8]) -> Result<Shards, AllocError>
    requires { length block.now ≡ split.size }
    ensures made { IfOk result (λ s. AreParityOf split s.mask block.now s.parity.items) }
    ensures leaves { IfOk result (λ s. s.leaves.items
        ≡ leaves sha512_256 (shard_records split s.mask block.now s.parity.items)) }
{
    let count = (split.total - split.min) as usize * (8 * split.width);
    let mut parity = vec![in alloc; 0u8; count]?;
    let mask = encode(alloc, split, block, &mut parity)?;
    let leaves = shard_leaves(alloc, split, mask, block, &parity)?;
    Ok(Shards {
        mask,
        parity,
        leaves,
    })
}

/// Commits to a block: finds its mask, writes its parity rows over `parity`, row after row, and
/// gives the root of its shards and a path for each.
///
/// The block has as many bytes as the split says, and `parity` as many as the parity rows. It
/// refuses more than 2^16 shards with `TooMany`, before anything else. It takes memory as `encode`
/// does, for the parity rows and one more row, and for the tree. If it refuses, it writes nothing.
///
/// ```
/// use shard_roots::commit;
/// use systematic_shards::Split;
/// let split = Split::new(2, 3, 12)?;
/// let mut parity = [0_u8; 8];
/// let commitment = commit(alloc, split, b"twelve bytes", &mut parity)?;
/// commitment.mask; // 0
/// &commitment.root()[..8]; // [107, 7, 220, 229, 212, 151, 106, 149]
/// commitment.path(alloc, 0)?.len(); // 2
/// ```
pub fn commit(
    alloc: Global,
    split: Split,
    block: &[u8],
    parity: &mut [u8],
) -> Result<Commitment, Error>
    requires size { length block.now ≡ split.size }
    requires room { length parity.old ≡ (split.total - split.min) * (8 * split.width) }
    ensures ok { IfOk result (λ c. IsCommitment sha512_256 split c.mask block.now parity.new
        (root sha512_256 c.tree)) }
    ensures tree { IfOk result (λ c. c.tree
        ≡ leaves sha512_256 (shard_records split c.mask block.now parity.new)) }
    ensures count { IfOk result (λ c. length c.tree ≡ split.total) }
    ensures few { OnOk result (split.total ≤ 2 ^ 16) }
    ensures due { IfErr result (IsCommitDue split) }
    ensures err { OnErr result (parity.new ≡ parity.old) }
{
    if split.total > MOST {
        return Err(Error::TooMany);
    }
    let shards = shards_of(alloc, split, block)?;
    let mask = shards.mask;
    let tree = Tree::new(alloc, shards.leaves)?;
    parity.copy_from_slice(&shards.parity);
    Ok(Commitment { mask, tree })
}

/// The root of a block. It takes memory as `shards_of` does, and for the levels of the tree.
pub(crate) fn block_root(alloc: Global, split: Split, block: &[u8]) -> Result<Digest, AllocError>
    requires { length block.now ≡ split.size }
    ensures root { IfOk result (λ top. IsRootOfBlock sha512_256 split block.now top) }
    ensures bytes { All (λ b. b < 256) block.now }
{
    let shards = shards_of(alloc, split, block)?;
    root(alloc, &shards.leaves)
}
