//! Roots of blocks in systematic shards: 32 bytes that bind a block.

ghost use Rattle.std.specs.Prelude.{◌≡◌, ◌↔◌, ◌≤◌, ◌<◌, ◌+◌, ◌-◌, ◌*◌, ◌^◌, length};
ghost use Rattle.std.specs.Prelude.{take, drop};
ghost use Rattle.std.specs.Prelude.{IsTrue, IfOk, IfErr, IfSome, IfNone, OnOk, OnErr};
ghost use Rattle.sha2.specs.Sha512.{sha512_256};
ghost use Rattle.hash_trees.specs.Steps.{path_steps};
ghost use Rattle.hash_trees.specs.Trees.{path};
ghost use Rattle.systematic_shards.specs.declared.split.Split.{Split};
ghost use Rattle.shard_roots.specs.Commitments.{IsRootOfBlock};
ghost use Rattle.shard_roots.specs.Joining.{AreJoined, IsCommitDue, IsShardUnder, IsStrictDue};
ghost use Rattle.shard_roots.specs.declared.Error.TheVariants.{Root};
ghost use Rattle.shard_roots.specs.declared.shards.Shard.{Shard};
ghost use Rattle.systematic_shards.specs.Correcting.{ArePositionsWithout};
ghost use Rattle.c_calls.specs.RootedShards.{AreCommitted, AreGiven, ArePlaces};
ghost use Rattle.c_calls.specs.RootedShards.{AreShardsOf, HaveShardsFor, IsAnswer};
ghost use Rattle.c_calls.specs.RootedShards.{IsCommitDueTo, IsMemoryOrStrictDue, TellsNoSizes};
ghost use Rattle.c_calls.specs.RootedShards.{WritesBlock};
ghost use Rattle.c_calls.specs.SystematicRows.{HaveRowsFor, IsSplitOf};
ghost use Rattle.systematic_shards.specs.Splits.{IsSplit};

mod in_hand;

use crate::systematic::{have_rows, split_for};
use commonware_math::algebra::Mem;
use hash_trees::{Digest, path_steps};
pub use in_hand::ShardsWithPaths;
use shard_roots::{Commitment, Error, Shard, commit, is_shard_under, join_committed, join_under};
use std::alloc::Global;
use systematic_shards::Split;

/// Whether so many digests are the places of the paths of `count` shards.
fn have_places(total: u32, count: usize, digests: usize) -> bool
    requires { 1 ≤ total }
    ensures { IsTrue result ↔ (digests ≡ count * path_steps total 0) }
{
    match count.checked_mul(path_steps(total as usize, 0)) {
        Some(all) => all == digests,
        None => false,
    }
}

/// Whether so many digests are a place for the path of each shard.
pub fn have_all_places(total: u32, digests: usize) -> bool
    requires { 1 ≤ total }
    ensures { IsTrue result ↔ (digests ≡ total * path_steps total 0) }
{
    have_places(total, total as usize, digests)
}

/// The path of each shard, in its place.
fn places(alloc: Global, commitment: &Commitment, total: u32) -> Mem<Vec<Digest>>
    requires some { 1 ≤ total }
    requires all { length commitment.now.tree ≡ total }
    ensures { IfOk result (λ places. ArePlaces (path_steps total 0) total
        (path sha512_256 commitment.now.tree) places.items) }
{
    let room = path_steps(total as usize, 0);
    let mut places = Vec::with_capacity(alloc, total as usize * room)?;
    for index in 0..total {
        let mut place = commitment.path(alloc, index)?;
        place.resize(room, [0; 32])?;
        places.extend_from_slice(&place)?;
    }
    Ok(places)
}

/// What a block is committed to by, and what its shards are handed out with.
#[derive(Drop)]
struct Committed {
    mask: u32,
    parity: Vec<u8>,
    root: Digest,
    paths: Vec<Digest>,
}

/// Commits to a block.
fn commit_block(alloc: Global, split: Split, block: &[u8]) -> Result<Committed, Error>
    requires { length block.now ≡ split.size }
    ensures ok { IfOk result
        (λ c. AreCommitted split block.now c.mask c.parity.items c.root c.paths.items) }
    ensures due { IfErr result (IsCommitDue split) }
{
    let count = (split.total - split.min) as usize * (8 * split.width);
    let mut parity = vec![in alloc; 0u8; count]?;
    let commitment = commit(alloc, split, block, &mut parity)?;
    let paths = places(alloc, &commitment, split.total)?;
    Ok(Committed {
        mask: commitment.mask,
        parity,
        root: commitment.root(),
        paths,
    })
}

/// Writes the parity rows of the block, its root, and the path of each shard in its place, and gives
/// its mask.
///
/// It refuses as `commit` does.
pub fn write_commitment(
    alloc: Global,
    block: &[u8],
    min: u32,
    total: u32,
    parity: &mut [u8],
    top: &mut Digest,
    paths: &mut [Digest],
) -> Result<u32, Error>
    requires split { IsSplit min total }
    requires rows { HaveRowsFor (length block.now) min total (total - min) (length parity.old) }
    requires places { length paths.old ≡ total * path_steps total 0 }
    ensures ok { IfOk result (λ mask. (split : Split) × IsSplitOf (length block.now) min total split
        × AreCommitted split block.now mask parity.new top.new paths.new) }
    ensures due { IfErr result (IsCommitDueTo (length block.now) min total) }
    ensures err { OnErr result ((parity.new ≡ parity.old) × (top.new ≡ top.old)
        × (paths.new ≡ paths.old)) }
{
    let Some(split) = split_for(block.len(), min, total) else {
        unreachable!()
    };
    let made = commit_block(alloc, split, block)?;
    parity.copy_from_slice(&made.parity);
    paths.copy_from_slice(&made.paths);
    *top = made.root;
    Ok(made.mask)
}

/// Gives 1 if the shard is under the root, and else 0.
pub fn is_under(top: &Digest, split: Split, shard: &Shard<'_>) -> u32
    ensures { IsAnswer (IsShardUnder sha512_256 split top.now shard.now) result }
{
    if is_shard_under(top, split, shard) {
        1
    } else {
        0
    }
}

/// Takes these as shards with their paths: `None` where they are not as many.
pub fn shards_with_paths<'a>(
    size: usize,
    min: u32,
    total: u32,
    indices: &'a [u32],
    masks: &'a [u32],
    bytes: &'a [u8],
    paths: &'a [Digest],
) -> Option<ShardsWithPaths<'a>>
    requires { IsSplit min total }
    ensures some { IfSome result
        (AreGiven size min total indices.now masks.now bytes.now paths.now) }
    ensures sizes { IfSome result (λ _. HaveShardsFor size min total (length indices.now)
        (length masks.now) (length bytes.now) (length paths.now)) }
    ensures none { IfNone result (¬ (HaveShardsFor size min total (length indices.now)
        (length masks.now) (length bytes.now) (length paths.now))) }
{
    if masks.len() != indices.len() {
        return None;
    }
    if !have_rows(size, min, total, indices.len(), bytes.len()) {
        return None;
    }
    if !have_places(total, indices.len(), paths.len()) {
        return None;
    }
    let Some(split) = split_for(size, min, total) else {
        unreachable!()
    };
    Some(ShardsWithPaths {
        split,
        indices,
        masks,
        bytes,
        paths,
    })
}

/// The path of shard number `t`, which has this index: the first digests of its place.
fn path_at<'a>(total: u32, paths: &'a [Digest], t: usize, index: u32) -> &'a [Digest]
    requires some { 1 ≤ total }
    requires within { (t + 1) * path_steps total 0 ≤ length paths.now }
    ensures { index < total → result.now
        ≡ take (path_steps total index) (drop (t * path_steps total 0) paths.now) }
{
    if index >= total {
        return &paths[..0];
    }
    let first = t * path_steps(total as usize, 0);
    &paths[first..first + path_steps(total as usize, index as usize)]
}

/// The shards in hand, each for itself. Takes memory for six words each.
fn shards_of<'a>(alloc: Global, held: &ShardsWithPaths<'a>) -> Mem<Vec<Shard<'a>>>
    ensures { IfOk result (λ shards. AreShardsOf held.now shards.items) }
{
    let total = held.split.total;
    let indices = held.indices;
    let masks = held.masks;
    let bytes = held.bytes;
    let paths = held.paths;
    let row = held.split.row_bytes();
    let mut shards = Vec::with_capacity(alloc, indices.len())?;
    for t in 0..indices.len() {
        let cells = &bytes[t * row..(t + 1) * row];
        shards.push(Shard {
            index: indices[t],
            mask: masks[t],
            cells,
            path: path_at(total, paths, t, indices[t]),
        })?;
    }
    Ok(shards)
}

/// Joins the shards as `join_committed` does, or where it is not to be strict as `join_under` does.
fn join(
    alloc: Global,
    top: &Digest,
    split: Split,
    shards: &[Shard<'_>],
    strict: bool,
    block: &mut [u8],
) -> Result<Vec<usize>, Error>
    requires { length block.old ≡ split.size }
    ensures ok { OnOk result (AreJoined sha512_256 split top.now shards.now block.new) }
    ensures root { OnOk result (IsTrue strict → IsRootOfBlock sha512_256 split block.new top.now) }
    ensures left_out { IfOk result (λ positions. ArePositionsWithout
        (IsShardUnder sha512_256 split top.now) shards.now positions.items) }
    ensures few { OnOk result (split.total ≤ 2 ^ 16) }
    ensures due { IfErr result (IsStrictDue sha512_256 split top.now shards.now) }
    ensures strictly { IfErr result (λ e. e ≡ Root → IsTrue strict) }
    ensures err { OnErr result (block.new ≡ block.old) }
{
    if strict {
        join_committed(alloc, top, split, shards, block)
    } else {
        join_under(alloc, top, split, shards, block)
    }
}

/// Writes the block of the shards in hand that are under the root, and the positions of the others
/// over the first items of `left_out`, and gives their number.
///
/// It refuses as `join_under` does, or as `join_committed` does.
pub fn write_joined(
    alloc: Global,
    top: &Digest,
    held: &ShardsWithPaths<'_>,
    strict: bool,
    block: &mut [u8],
    left_out: &mut [usize],
) -> Result<usize, Error>
    requires size { length block.old ≡ held.now.split.size }
    requires room { length held.now.indices.now ≤ length left_out.old }
    ensures ok { IfOk result (WritesBlock top.now held.now block.new left_out.old left_out.new) }
    ensures root { OnOk result
        (IsTrue strict → IsRootOfBlock sha512_256 held.now.split block.new top.now) }
    ensures due { IfErr result (IsMemoryOrStrictDue top.now held.now) }
    ensures others { IfErr result TellsNoSizes }
    ensures strictly { IfErr result (λ e. e ≡ Root → IsTrue strict) }
    ensures err { OnErr result ((block.new ≡ block.old) × (left_out.new ≡ left_out.old)) }
{
    let shards = shards_of(alloc, held)?;
    let found = join(alloc, top, held.split, &shards, strict, block)?;
    let many = found.len();
    left_out[..many].copy_from_slice(&found);
    Ok(many)
}
