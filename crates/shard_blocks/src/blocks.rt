//! Blocks to shards, and these to blocks.

ghost use Rattle.std.specs.Prelude.{◌≡◌, ◌*◌, ◌<◌, ◌≤◌, ◌^◌, ◌⊎◌, ℕ, All, List, length, IfOk, IfErr, IfNone, IfSome, MatchResult, OnErr, OnOk};
ghost use Rattle.math_splitting.specs.DataWords.{spelled_words};
ghost use Rattle.math_shards.specs.Joining.{IsMemory};
ghost use Rattle.math_splitting.specs.ShardRows.{AreRowsOfShardsAt};
ghost use Rattle.math_splitting.specs.Shards.{AreShardsOf, width_for};
ghost use Rattle.math_shards.specs.WordShards.{StandInFront};
ghost use Rattle.math_values.specs.Values.{AreElements};
ghost use Rattle.math_shards.specs.declared.shards.Error.TheVariants.{TooFew, Mismatch, Index};
ghost use Rattle.math_shards.specs.declared.shards.Error.TheVariants.{Conflict, Inconsistent};
ghost use Rattle.shard_blocks.specs.BlockWords.{words_of_bytes};
ghost use Rattle.shard_blocks.specs.Blocks.{AreByteRows, AreRowsRefused, DoRowsJoinTo};
ghost use Rattle.shard_blocks.specs.Blocks.{IsBlockDue, JoinToBlock, RefusesBlockExactly};

use crate::words::{block_in, block_size, block_source, write_block};
use math_base::algebra::Mem;
use math_shards::shards::{
    Error, Room, Shard, join_cells, join_packed, shard_width, split_source, split_source_rows,
    split_source_rows_at,
};
use std::alloc::Global;

/// Cuts the bytes into shards, one for each index below `total`, in the order of the indices. Any
/// `min` of them give the bytes back.
///
/// `min` is at least 1, and at most `total`. It takes memory as `split` does: it reads the words
/// from the bytes, and makes no list of them.
///
/// ```
/// use shard_blocks::{join_block, split_block};
/// let mut shards = split_block(alloc, b"data", 2, 5)?;
/// shards.truncate(2);
/// join_block(alloc, &shards)?; // [100, 97, 116, 97]
/// ```
pub fn split_block(alloc: Global, bytes: &[u8], min: u32, total: u32) -> Mem<Vec<Shard>>
    requires some { 1 ≤ min }
    requires within { min ≤ total }
    ensures { IfOk result
        (λ shards. AreShardsOf (words_of_bytes bytes.now) min total shards.items) }
{
    let shards = split_source(alloc, &block_source(bytes), min, total)?;
    Ok(shards)
}

/// Writes the shards of the bytes over those of `out`. Shard i is row i of `total` rows. Each of
/// its cells is eight bytes, the number of an element, the highest first.
///
/// The conditions are those of `split_block`. A row has eight times as many bytes as a shard of
/// `split_block` has cells. It takes memory as `split_rows` does. If that is refused, it writes
/// nothing.
///
/// ```
/// use shard_blocks::split_block_rows;
/// let mut out = [0; 64];
/// split_block_rows(alloc, b"data", 1, 2, &mut out)?;
/// out[7]; // 2
/// out[..32] == out[32..]; // true
/// ```
pub fn split_block_rows(
    alloc: Global,
    bytes: &[u8],
    min: u32,
    total: u32,
    out: &mut [u8],
) -> Mem<()>
    requires some { 1 ≤ min }
    requires within { min ≤ total }
    requires size { length out.old ≡ total * (8 * width_for min (words_of_bytes bytes.now)) }
    ensures ok { OnOk result (AreByteRows bytes.now min total out.new) }
    ensures err { OnErr result (out.new ≡ out.old) }
{
    split_source_rows(alloc, &block_source(bytes), min, total, out)?;
    Ok(())
}

/// Writes the shards of these indices alone over `out`: over words, over elements, or over bytes,
/// of which each cell takes eight, the highest first. Row t is the shard of index t of the list. An
/// index may stand there twice.
///
/// The conditions are those of `split_block_rows`, with as many rows as there are indices, and each
/// index is below `total`. From a block that some of its shards gave back, this makes the lost ones
/// again. It takes memory as `split_block_rows` does, or less. If that is refused, it writes
/// nothing.
///
/// ```
/// use shard_blocks::split_block_rows_at;
/// let mut out = [0_u8; 32];
/// split_block_rows_at(alloc, b"data", 1, 2, &[1], &mut out)?;
/// out[7]; // 2
/// ```
pub fn split_block_rows_at<R: Room>(
    alloc: Global,
    bytes: &[u8],
    min: u32,
    total: u32,
    indices: &[u32],
    out: &mut [R],
) -> Mem<()>
    requires some { 1 ≤ min }
    requires within { min ≤ total }
    requires below { All (λ i. i < total) indices.now }
    requires size { length (R.words out.old)
        ≡ length indices.now * width_for min (words_of_bytes bytes.now) }
    requires fits { length (R.words out.old) < 2 ^ 64 }
    ensures ok { OnOk result (AreRowsOfShardsAt (words_of_bytes bytes.now) min total indices.now
        (R.words out.new)) }
    ensures err { OnErr result (out.new ≡ out.old) }
{
    split_source_rows_at(alloc, &block_source(bytes), min, total, indices, out)?;
    Ok(())
}

/// Returns how many cells each shard has of a block of so many bytes, of which `min`, at least 1,
/// give it back.
///
/// ```
/// use shard_blocks::cells_for;
/// cells_for(1000, 4); // 33
/// ```
pub fn cells_for(bytes: usize, min: u32) -> usize
    requires { 1 ≤ min }
    ensures { (block : List ℕ) → length block ≡ bytes
        → width_for min (words_of_bytes block) ≡ result }
{
    shard_width(bytes.div_ceil(8) + 1, min)
}

/// Gives the bytes of the shards back: the only bytes of which each shard is one. A shard that is
/// handed in twice counts once.
///
/// It refuses as `join` does, and words of no block with `Inconsistent`. So it finds damage to the
/// cells of one shard if there are more than `min` distinct indices. If there are just `min`, it
/// may not.
///
/// It takes memory as `join` does. Limit `total` before you join shards from someone you do not
/// trust.
///
/// ```
/// use shard_blocks::{join_block, split_block};
/// let mut shards = split_block(alloc, b"data", 2, 5)?;
/// shards.truncate(1);
/// join_block(alloc, &shards); // Err(TooFew)
/// ```
pub fn join_block(alloc: Global, shards: &[Shard]) -> Result<Vec<u8>, Error>
    ensures ok { IfOk result (λ bytes. JoinToBlock bytes.items shards.now) }
    ensures found { (block : List ℕ) → JoinToBlock block shards.now
        → MatchResult result (λ bytes. bytes.items ≡ block) IsMemory }
    ensures too_few { RefusesBlockExactly result shards.now TooFew }
    ensures mismatch { RefusesBlockExactly result shards.now Mismatch }
    ensures index { RefusesBlockExactly result shards.now Index }
    ensures conflict { RefusesBlockExactly result shards.now Conflict }
    ensures inconsistent { RefusesBlockExactly result shards.now Inconsistent }
{
    recovered_block(alloc, shards)
}

/// The block of the shards, or what is wrong with them.
fn recovered_block(alloc: Global, shards: &[Shard]) -> Result<Vec<u8>, Error>
    ensures ok { IfOk result (λ bytes. JoinToBlock bytes.items shards.now) }
    ensures err { IfErr result (IsBlockDue shards.now) }
{
    let packed = join_packed(alloc, shards)?;
    match block_in(alloc, &packed)? {
        Some(bytes) => Ok(bytes),
        None => Err(Error::Inconsistent),
    }
}

/// Joins shards that are rows of bytes, and writes the bytes of the block over the first ones of
/// `out`. It answers how many these are, or `None` if there is no room for them.
///
/// Row i of the shards has the cells of the shard with index `indices[i]`: `cols` cells of eight
/// bytes each, the number of an element, below P, the highest byte first. It refuses as
/// `join_block` does. If it refuses, or there is no room, it writes nothing. It takes memory as
/// `join_rows` does: it reads the cells where they lie, and writes the bytes where they are wanted.
///
/// ```
/// use shard_blocks::{join_block_rows, split_block_rows};
/// let mut shards = [0; 64];
/// split_block_rows(alloc, b"data", 1, 2, &mut shards)?;
/// let mut out = [0; 5];
/// join_block_rows(alloc, &[1], 1, 2, &shards[32..], 4, &mut out)?; // Some(4)
/// out; // [100, 97, 116, 97, 0]
/// ```
pub fn join_block_rows(
    alloc: Global,
    indices: &[u32],
    min: u32,
    total: u32,
    shards: &[u8],
    cols: usize,
    out: &mut [u8],
) -> Result<Option<usize>, Error>
    requires count { length shards.now ≡ 8 * (length indices.now * cols) }
    requires below { AreElements (spelled_words shards.now) }
    ensures some { IfOk result (λ answer. IfSome answer (λ n. (block : List ℕ)
        × DoRowsJoinTo block min total indices.now (spelled_words shards.now)
        × (n ≡ length block) × StandInFront block out.old out.new)) }
    ensures none { IfOk result (λ answer. IfNone answer ((block : List ℕ)
        × DoRowsJoinTo block min total indices.now (spelled_words shards.now)
        × (length out.old < length block))) }
    ensures kept { IfOk result (λ answer. IfNone answer (out.new ≡ out.old)) }
    ensures err { OnErr result (out.new ≡ out.old) }
    ensures due { IfErr result (λ e. IsMemory e
        ⊎ AreRowsRefused e min total indices.now (spelled_words shards.now)) }
{
    let (cells, _) = shards.as_chunks::<8>();
    let packed = join_cells(alloc, indices, min, total, cells, cols)?;
    let Some(size) = block_size(&packed) else {
        return Err(Error::Inconsistent);
    };
    if size > out.len() {
        return Ok(None);
    }
    write_block(&packed, &mut out[..size]);
    Ok(Some(size))
}
