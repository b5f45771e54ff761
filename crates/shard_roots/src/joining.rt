//! The block of the shards that are under a root.

ghost use Rattle.std.specs.Prelude.{◌≡◌, ◌≢◌, ◌↔◌, ◌≤◌, ◌<◌, ◌^◌, length, slice_index_or};
ghost use Rattle.std.specs.Prelude.{IfOk, IfErr, IfSome, IfNone, IsTrue, OnErr, OnOk};
ghost use Rattle.sha2.specs.Sha512.{sha512_256};
ghost use Rattle.systematic_shards.specs.Correcting.{ArePositionsWithout};
ghost use Rattle.shard_roots.specs.Commitments.{IsRootOfBlock};
ghost use Rattle.shard_roots.specs.Joining.{AreDecoded, AreJoined, AreThoseUnder, HaveMask};
ghost use Rattle.shard_roots.specs.Joining.{HaveOtherMasks, IsJoinDue, IsRefusedDecode};
ghost use Rattle.shard_roots.specs.Joining.{IsShardUnder, IsStrictDue, rows_of};
ghost use Rattle.shard_roots.specs.declared.Error.TheVariants.{Masks};

use crate::Error;
use crate::committing::{MOST, block_root};
use crate::shards::{Shard, is_shard_under};
use hash_trees::Digest;
use std::alloc::{AllocError, Global};
use systematic_shards::{Code, Row, Split, decode};

/// The shards that are under a root, and the positions of the others.
#[derive(Drop)]
struct Selection<'a> {
    kept: Vec<Shard<'a>>,
    left_out: Vec<usize>,
}

/// Selects the shards that are under the root.
fn select<'a>(
    alloc: Global,
    top: &Digest,
    split: Split,
    shards: &[Shard<'a>],
) -> Result<Selection<'a>, AllocError>
    ensures kept { IfOk result
        (λ s. AreThoseUnder sha512_256 split top.now shards.now s.kept.items) }
    ensures left_out { IfOk result (λ s. ArePositionsWithout
        (IsShardUnder sha512_256 split top.now) shards.now s.left_out.items) }
{
    let mut kept = Vec::new(alloc);
    let mut left_out = Vec::new(alloc);
    for position in 0..shards.len() {
        if is_shard_under(top, split, &shards[position]) {
            kept.push(shards[position])?;
        } else {
            left_out.push(position)?;
        }
    }
    Ok(Selection { kept, left_out })
}

/// The position of the first shard with another mask.
fn other_mask(shards: &[Shard<'_>], mask: u32) -> Option<usize>
    ensures some { IfSome result (λ i. (i < length shards.now)
        × ((d : Shard) → (slice_index_or shards.now i d).mask ≢ mask)) }
    ensures none { IfNone result (HaveMask mask shards.now) }
{
    for i in 0..shards.len() {
        if shards[i].mask != mask {
            return Some(i);
        }
    }
    None
}

/// The mask of all the shards, or 0 where there is none.
fn one_mask(shards: &[Shard<'_>]) -> Result<u32, Error>
    ensures ok { IfOk result (λ mask. HaveMask mask shards.now) }
    ensures err { IfErr result (λ e. (e ≡ Masks) × HaveOtherMasks shards.now) }
{
    if shards.is_empty() {
        return Ok(0);
    }
    let mask = shards[0].mask;
    match other_mask(shards, mask) {
        Some(_) => Err(Error::Masks),
        None => Ok(mask),
    }
}

/// The rows of shards.
fn rows<'a>(alloc: Global, shards: &[Shard<'a>]) -> Result<Vec<Row<'a, u8>>, AllocError>
    ensures { IfOk result (λ rows. rows.items ≡ rows_of shards.now) }
{
    let mut rows = Vec::new(alloc);
    for shard in shards {
        rows.push(Row {
            index: shard.index,
            cells: shard.cells,
        })?;
    }
    Ok(rows)
}

/// Writes the block over `block` as `decode` does. Where memory ran out, it says so.
fn decode_rows(
    alloc: Global,
    code: Code,
    rows: &[Row<'_, u8>],
    block: &mut [u8],
) -> Result<(), Error>
    requires { length block.old ≡ code.split.size }
    ensures ok { OnOk result (AreDecoded code rows.now block.new) }
    ensures due { IfErr result (IsRefusedDecode code.split code.mask rows.now) }
    ensures err { OnErr result (block.new ≡ block.old) }
{
    match decode(alloc, code, rows, block) {
        Ok(()) => Ok(()),
        Err(systematic_shards::Error::Memory(e)) => Err(Error::Memory(e)),
        Err(e) => Err(Error::Rows(e)),
    }
}

/// Writes over `block` the block that the shards under the root `top` give, and says which shards
/// are left out: their positions, by rising number.
///
/// Each shard is checked alone by its path, and those that are not under the root are left out. The
/// others are decoded as `systematic_shards::decode` does. If an honest `commit` made the root,
/// what is written is the block that was committed to, or two different messages that were hashed
/// have the same digest. Under such a root, if the block's own shards of `min` distinct indices are
/// among those handed in, it refuses only if memory runs out or two such messages have the same
/// digest, whatever the other shards are. Whoever made the root himself can have made it of shards
/// of no block, or of shards of which some give one block and others another: `join_committed`
/// refuses these.
///
/// It refuses, in this order:
///
/// - more than 2^16 shards in `total`, with `TooMany`;
/// - two shards under the root with different masks, with `Masks`;
/// - what `decode` refuses of the rows of the shards under the root, with `Rows`: fewer than `min`
///   distinct indices are `TooFew`.
///
/// It takes memory for the positions and addresses of the shards, and as `decode` does. If it
/// refuses, it writes nothing.
///
/// ```
/// use shard_roots::{Shard, commit, join_under};
/// use systematic_shards::Split;
/// let split = Split::new(1, 2, 4)?;
/// let mut parity = [0_u8; 8];
/// let commitment = commit(alloc, split, b"data", &mut parity)?;
/// let path = commitment.path(alloc, 1)?;
/// let forged = Shard { index: 0, mask: 0, cells: b"forged..", path: &path };
/// let shard = Shard { index: 1, mask: 0, cells: &parity, path: &path };
/// let mut block = [0_u8; 4];
/// join_under(alloc, &commitment.root(), split, &[forged, shard], &mut block)?; // [0]
/// block; // [100, 97, 116, 97]
/// ```
pub fn join_under(
    alloc: Global,
    top: &Digest,
    split: Split,
    shards: &[Shard<'_>],
    block: &mut [u8],
) -> Result<Vec<usize>, Error>
    requires { length block.old ≡ split.size }
    ensures ok { OnOk result (AreJoined sha512_256 split top.now shards.now block.new) }
    ensures left_out { IfOk result (λ positions. ArePositionsWithout
        (IsShardUnder sha512_256 split top.now) shards.now positions.items) }
    ensures few { OnOk result (split.total ≤ 2 ^ 16) }
    ensures due { IfErr result (IsJoinDue sha512_256 split top.now shards.now) }
    ensures err { OnErr result (block.new ≡ block.old) }
{
    if split.total > MOST {
        return Err(Error::TooMany);
    }
    let selection = select(alloc, top, split, shards)?;
    let mask = one_mask(&selection.kept)?;
    let rows = rows(alloc, &selection.kept)?;
    decode_rows(alloc, Code { split, mask }, &rows, block)?;
    Ok(selection.left_out)
}

/// Whether the digests are the same.
fn are_same(one: &Digest, other: &Digest) -> bool
    ensures { IsTrue result ↔ (one.now ≡ other.now) }
{
    one.as_slice() == other.as_slice()
}

/// Writes over `block` the block that the shards under the root `top` give, if this is its root,
/// and says which shards are left out: their positions, by rising number.
///
/// It is `join_under`, and then commits to the block again. So whoever made the root and the
/// shards, it gives no block but the one whose root is `top`: two blocks that it gives under one
/// root are the same, or two different messages that were hashed have the same digest.
///
/// It refuses as `join_under` does, and then a block with another root, with `Root`. Under a root
/// that an honest `commit` made, the same shards are enough for it as for `join_under`. It takes
/// memory as `join_under` and `commit` do, and for the block. If it refuses, it writes nothing.
///
/// ```
/// use shard_roots::{Shard, commit, join_committed};
/// use systematic_shards::Split;
/// let split = Split::new(1, 2, 4)?;
/// let mut parity = [0_u8; 8];
/// let commitment = commit(alloc, split, b"data", &mut parity)?;
/// let path = commitment.path(alloc, 1)?;
/// let shard = Shard { index: 1, mask: 0, cells: &parity, path: &path };
/// let mut block = [0_u8; 4];
/// join_committed(alloc, &commitment.root(), split, &[shard], &mut block)?; // []
/// block; // [100, 97, 116, 97]
/// ```
pub fn join_committed(
    alloc: Global,
    top: &Digest,
    split: Split,
    shards: &[Shard<'_>],
    block: &mut [u8],
) -> Result<Vec<usize>, Error>
    requires { length block.old ≡ split.size }
    ensures ok { OnOk result (AreJoined sha512_256 split top.now shards.now block.new) }
    ensures root { OnOk result (IsRootOfBlock sha512_256 split block.new top.now) }
    ensures left_out { IfOk result (λ positions. ArePositionsWithout
        (IsShardUnder sha512_256 split top.now) shards.now positions.items) }
    ensures few { OnOk result (split.total ≤ 2 ^ 16) }
    ensures due { IfErr result (IsStrictDue sha512_256 split top.now shards.now) }
    ensures err { OnErr result (block.new ≡ block.old) }
{
    if split.total > MOST {
        return Err(Error::TooMany);
    }
    let mut found = vec![in alloc; 0u8; split.size]?;
    let left_out = join_under(alloc, top, split, shards, &mut found)?;
    let other = block_root(alloc, split, &found)?;
    if !are_same(&other, top) {
        return Err(Error::Root);
    }
    block.copy_from_slice(&found);
    Ok(left_out)
}
