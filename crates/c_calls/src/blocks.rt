//! Shards of blocks of bytes, as bytes, a shard a row.
//!
//! Each word of a shard is eight bytes, the highest first, as words are in the encoding of a
//! polynomial.
//!
//! Callers with bytes keep shards as bytes, in files and messages, at any address, and this order
//! is the same on every machine. The calls stand on `shard_blocks`: the number of the bytes is kept
//! inside, and the blocks of shard files are cut in the same way.

ghost use Rattle.std.specs.Prelude.{◌≡◌, ◌↔◌, ◌<◌, ◌*◌, ℕ, All, IsTrue, IfSome, IfNone, OnOk, OnErr, length};
ghost use Rattle.std.specs.Int.{from_be_bytes, w64};
ghost use Rattle.math_numbers.specs.Goldilocks.{P};
ghost use Rattle.c_calls.specs.ShardBytes.{AreBlockRefused, AreBlockRefusedCorrecting, AreByteRowsOf, AreBytesOfShards, DoCorrectToBlock, DoJoinToBlock, HaveShardBytes, SpellElements};
ghost use Rattle.systematic_shards.specs.Splits.{IsSplit};

mod in_hand;

use crate::in_hand::ShardsInHand;
use crate::shards;
use commonware_math::algebra::Mem;
use commonware_math::fields::goldilocks::MODULUS;
use commonware_math::shards::shards_of_rows;
pub use in_hand::ByteShards;
use shard_blocks::{Error, cells_for, join_block_corrected, join_block_rows, split_block_rows};
use std::alloc::Global;

/// 2^60: all shards have fewer bytes.
const BYTES: usize = 0x1000_0000_0000_0000;

/// How many bytes each shard of a block of so many bytes has: `None` where those of all shards are
/// too many.
pub fn size(bytes: usize, min: u32, total: u32) -> Option<usize>
    requires { IsSplit min total }
    ensures some { IfSome result (λ size. HaveShardBytes bytes min total size) }
    ensures none { IfNone result ((size : ℕ) → ¬ (HaveShardBytes bytes min total size)) }
{
    let cells = cells_for(bytes, min);
    match cells.checked_mul(8 * total as usize) {
        Some(all) if all < BYTES => Some(8 * cells),
        _ => None,
    }
}

/// Whether so many bytes are those of the shards of a block of so many bytes.
pub fn have_room(bytes: usize, min: u32, total: u32, room: usize) -> bool
    requires { IsSplit min total }
    ensures { IsTrue result ↔ ((n : ℕ) × HaveShardBytes bytes min total n × (room ≡ total * n)) }
{
    match size(bytes, min, total) {
        Some(size) => total as usize * size == room,
        None => false,
    }
}

/// Writes the shards of the block over the bytes, a shard a row.
pub fn write_shards(alloc: Global, block: &[u8], min: u32, total: u32, bytes: &mut [u8]) -> Mem<()>
    requires split { IsSplit min total }
    requires size { (n : ℕ) × HaveShardBytes (length block.now) min total n
        × (length bytes.old ≡ total * n) }
    ensures ok { OnOk result (AreBytesOfShards block.now min total bytes.new) }
    ensures err { OnErr result (bytes.new ≡ bytes.old) }
{
    split_block_rows(alloc, block, min, total, bytes)?;
    Ok(())
}

/// How many words the n bytes are in each of so many rows.
pub fn cols_of(n: usize, rows: usize) -> Option<usize>
    ensures some { IfSome result (λ cols. n ≡ 8 * (rows * cols)) }
    ensures none { IfNone result (¬ (AreByteRowsOf n rows)) }
{
    if n % 8 != 0 {
        return None;
    }
    shards::cols_of(n / 8, rows)
}

/// Whether the bytes are words below P.
pub fn are_elements(bytes: &[u8]) -> bool
    requires { (count : ℕ) × (length bytes.now ≡ 8 * count) }
    ensures { IsTrue result ↔ SpellElements bytes.now }
{
    let (words, _) = bytes.as_chunks::<8>();
    are_words_below_modulus(words)
}

/// Whether each word, as its eight bytes, the highest first, is below P.
///
/// All words are looked at before it answers, so that none waits for the one before it.
fn are_words_below_modulus(words: &[[u8; 8]]) -> bool
    ensures { IsTrue result ↔ All (λ word. from_be_bytes w64 word < P) words.now }
{
    let mut below = true;
    for word in words {
        let number = u64::from_be_bytes(*word);
        if number >= MODULUS {
            below = false;
        }
    }
    below
}

/// Bytes that give a block back.
impl<'a> ShardsInHand for ByteShards<'a> {
    type Item = u8;

    ghost count = { λ s. length s.indices.now };

    ghost join_to = { λ s block. DoJoinToBlock block s.min s.total s.indices.now s.bytes.now };

    ghost correct_to = { λ s block positions.
        DoCorrectToBlock block positions s.min s.total s.indices.now s.bytes.now };

    ghost refused = { λ s e. AreBlockRefused e s.min s.total s.indices.now s.bytes.now };

    ghost refused_correcting = { λ s e.
        AreBlockRefusedCorrecting e s.min s.total s.indices.now s.bytes.now };

    fn join(self, alloc: Global, out: &mut [u8]) -> Result<Option<usize>, Error> {
        join_block_rows(
            alloc,
            self.indices,
            self.min,
            self.total,
            self.bytes,
            self.cols,
            out,
        )
    }

    fn correct(self, alloc: Global) -> Result<(Vec<u8>, Vec<usize>), Error> {
        let (cells, _) = self.bytes.as_chunks::<8>();
        let (min, total) = (self.min, self.total);
        let shards = shards_of_rows(alloc, self.indices, min, total, cells, self.cols)?;
        let joined = join_block_corrected(alloc, &shards)?;
        Ok((joined.bytes, joined.left_out))
    }
}
