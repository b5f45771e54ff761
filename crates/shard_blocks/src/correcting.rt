//! Shards to blocks, where some shards are wrong.
//!
//! No shard is left out by trial: one call of `join_corrected` corrects as many shards as any
//! could.

ghost use Rattle.std.specs.Prelude.{◌≡◌, ℕ, List, IfOk, IfErr, MatchResult};
ghost use Rattle.math_shards.specs.Joining.{IsMemory};
ghost use Rattle.math_shards.specs.declared.shards.Error.TheVariants.{TooFew, Mismatch, Index};
ghost use Rattle.math_shards.specs.declared.shards.Error.TheVariants.{Conflict, Inconsistent};
ghost use Rattle.shard_blocks.specs.Correcting.{AreCorrectedBlock, CorrectToBlock};
ghost use Rattle.shard_blocks.specs.Correcting.{IsBlockDueCorrecting, RefusesBlockCorrecting};

use crate::words::block_in;
use math_shards::shards::{Error, Shard, join_packed_corrected};
use std::alloc::Global;

/// The bytes of a block, and the shards that were left out.
#[derive(Debug, Drop)]
pub struct JoinedBlock {
    /// The bytes of the block.
    pub bytes: Vec<u8>,
    /// By rising number, the positions, among the shards that were handed in, of those that are not
    /// shards of the block.
    pub left_out: Vec<usize>,
}

/// Gives the bytes of the block back, however some of its shards are wrong, and says which these
/// are.
///
/// It does for a block what `join_corrected` does for data. An index with unequal cells counts as
/// missing, and of the m distinct indices that remain at most (m - `min`) / 2 have wrong shards. If
/// `join_block` answers a block, so does this, and leaves out none. It refuses as `join_corrected`
/// does, and words of no block with `Inconsistent`.
///
/// ```
/// use shard_blocks::{join_block_corrected, split_block};
/// let mut shards = split_block(alloc, b"data", 2, 5)?;
/// shards[3].cells[0] = F::from(0);
/// join_block_corrected(alloc, &shards)?.left_out; // [3]
/// ```
pub fn join_block_corrected(alloc: Global, shards: &[Shard]) -> Result<JoinedBlock, Error>
    ensures ok { IfOk result (λ j. AreCorrectedBlock j.bytes.items j.left_out.items shards.now) }
    ensures found { (block : List ℕ) → CorrectToBlock block shards.now
        → MatchResult result (λ j. j.bytes.items ≡ block) IsMemory }
    ensures too_few { RefusesBlockCorrecting result shards.now TooFew }
    ensures mismatch { RefusesBlockCorrecting result shards.now Mismatch }
    ensures index { RefusesBlockCorrecting result shards.now Index }
    ensures conflict { RefusesBlockCorrecting result shards.now Conflict }
    ensures inconsistent { RefusesBlockCorrecting result shards.now Inconsistent }
{
    correct_to_block(alloc, shards)
}

/// The block of the shards and the positions of those that are left out, or what is wrong.
fn correct_to_block(alloc: Global, shards: &[Shard]) -> Result<JoinedBlock, Error>
    ensures ok { IfOk result (λ j. AreCorrectedBlock j.bytes.items j.left_out.items shards.now) }
    ensures err { IfErr result (IsBlockDueCorrecting shards.now) }
{
    let (packed, left_out) = join_packed_corrected(alloc, shards)?;
    match block_in(alloc, &packed)? {
        Some(bytes) => Ok(JoinedBlock { bytes, left_out }),
        None => Err(Error::Inconsistent),
    }
}
