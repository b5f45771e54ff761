//! The records of shards.

ghost use Rattle.std.specs.Prelude.{◌≡◌, ◌+◌, ◌-◌, ◌*◌, ◌<◌, ◌^◌, IfOk, All};
ghost use Rattle.hash_trees.specs.Binding.{leaves};
ghost use Rattle.hash_trees.specs.Trees.{leaf_message};
ghost use Rattle.sha2.specs.Sha512.{sha512_256};
ghost use Rattle.shard_roots.specs.Records.{record_of, row_at, row_of, shard_records};

use hash_trees::Digest;
use sha2::{Digest as Hasher, Sha512_256};
use std::alloc::{AllocError, Global};
use systematic_shards::Split;

/// The digest of the leaf of the record of a row.
pub(crate) fn record_digest(split: Split, mask: u32, index: u32, row: &[u8]) -> Digest
    ensures { result ≡ sha512_256 (leaf_message (record_of split mask index row.now)) }
{
    let mut hasher = Sha512_256::new();
    hasher.update(&[0u8]);
    hasher.update(&(split.size as u64).to_be_bytes());
    hasher.update(&u64::from(index).to_be_bytes());
    hasher.update(&u64::from(split.min).to_be_bytes());
    hasher.update(&u64::from(split.total).to_be_bytes());
    hasher.update(&u64::from(mask).to_be_bytes());
    hasher.update(row);
    hasher.finalize()
}

/// A copy of row number `i` of these bytes, of `n` bytes, with zeros for bytes past the end.
fn row(alloc: Global, bytes: &[u8], i: usize, n: usize) -> Result<Vec<u8>, AllocError>
    requires few { i + 1 < 2 ^ 64 }
    requires fits { (i + 1) * n < 2 ^ 64 }
    ensures { IfOk result (λ row. row.items ≡ row_at n bytes.now i) }
{
    let end = bytes.len();
    let part = &bytes[(i * n).min(end)..((i + 1) * n).min(end)];
    let mut row = Vec::with_capacity(alloc, n)?;
    row.extend_from_slice(part)?;
    row.resize(n, 0)?;
    Ok(row)
}

/// The digest of the leaf of the shard of this index, whose row is number `i` of these bytes.
///
/// A row that the bytes do not fill is copied.
fn leaf_at(
    alloc: Global,
    split: Split,
    mask: u32,
    index: u32,
    bytes: &[u8],
    i: usize,
) -> Result<Digest, AllocError>
    requires few { i + 1 < 2 ^ 64 }
    requires fits { (i + 1) * (8 * split.width) < 2 ^ 64 }
    ensures { IfOk result (λ digest. digest ≡ sha512_256 (leaf_message
        (record_of split mask index (row_at (8 * split.width) bytes.now i)))) }
{
    let n = 8 * split.width;
    let end = (i + 1) * n;
    if end <= bytes.len() {
        return Ok(record_digest(split, mask, index, &bytes[i * n..end]));
    }
    let row = row(alloc, bytes, i, n)?;
    Ok(record_digest(split, mask, index, &row))
}

/// The digest of the leaf of the shard of this index, whose row is one of the block or of the parity
/// rows.
fn leaf_of_index(
    alloc: Global,
    split: Split,
    mask: u32,
    block: &[u8],
    parity: &[u8],
    index: u32,
) -> Result<Digest, AllocError>
    requires { index < split.total }
    ensures { IfOk result (λ digest. digest ≡ sha512_256 (leaf_message
        (record_of split mask index (row_of split block.now parity.now index)))) }
{
    if index < split.min {
        leaf_at(alloc, split, mask, index, block, index as usize)
    } else {
        let i = (index - split.min) as usize;
        leaf_at(alloc, split, mask, index, parity, i)
    }
}

/// The digests of the leaves of all shards of a block.
///
/// It takes memory for these, and for a row that the block does not fill.
pub(crate) fn shard_leaves(
    alloc: Global,
    split: Split,
    mask: u32,
    block: &[u8],
    parity: &[u8],
) -> Result<Vec<Digest>, AllocError>
    ensures leaves { IfOk result (λ digests. digests.items
        ≡ leaves sha512_256 (shard_records split mask block.now parity.now)) }
    ensures bytes { All (λ b. b < 256) parity.now }
{
    let mut digests = Vec::with_capacity(alloc, split.total as usize)?;
    for index in 0..split.total {
        let leaf = leaf_of_index(alloc, split, mask, block, parity, index)?;
        digests.push(leaf)?;
    }
    Ok(digests)
}
