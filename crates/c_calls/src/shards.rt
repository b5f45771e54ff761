//! Shards of data as words, a shard a row.
//!
//! A call takes `min`, `total` and the number of words of a shard once, and the indices as a list:
//! a caller keeps them once. The words of the shards tell different splits apart, and `Mismatch`
//! says that not 1 <= `min` <= `total`.

ghost use Rattle.std.specs.Prelude.{◌≡◌, ◌↔◌, ◌<◌, ◌≤◌, ◌*◌, ℕ, IsTrue, IfSome, IfNone, OnOk, OnErr, length};
ghost use Rattle.c_calls.specs.WordShards.{AreRefused, AreRefusedCorrecting, AreRowsOf, AreWordsOfShards, DoCorrectTo, DoJoinTo, HaveShardSizes};
ghost use Rattle.systematic_shards.specs.Splits.{IsSplit};

mod in_hand;

use crate::in_hand::ShardsInHand;
use commonware_math::algebra::Mem;
use commonware_math::shards::{
    Error, join_corrected, join_rows, shard_width, shards_of_rows, split_rows,
};
pub use in_hand::WordShards;
use std::alloc::Global;
pub use systematic_shards::is_split;

/// 2^57: there are fewer words of data, and fewer of shards.
const WORDS: usize = 0x0200_0000_0000_0000;

/// How many cells each shard of so many words has: `None` where these or the cells are too many.
pub fn size(words: usize, min: u32, total: u32) -> Option<usize>
    requires { 1 ≤ min }
    ensures some { IfSome result (λ cells. HaveShardSizes words min total cells) }
    ensures none { IfNone result ((cells : ℕ) → ¬ (HaveShardSizes words min total cells)) }
{
    if words >= WORDS {
        return None;
    }
    let cells = shard_width(words, min);
    match (total as usize).checked_mul(cells) {
        Some(all) if all < WORDS => Some(cells),
        _ => None,
    }
}

/// Whether so many cells are those of the shards of so many words.
pub fn have_room(words: usize, min: u32, total: u32, room: usize) -> bool
    requires { 1 ≤ min }
    ensures { IsTrue result ↔ ((n : ℕ) × HaveShardSizes words min total n × (room ≡ total * n)) }
{
    match size(words, min, total) {
        Some(cells) => total as usize * cells == room,
        None => false,
    }
}

/// How many columns n cells have in so many rows.
pub fn cols_of(n: usize, rows: usize) -> Option<usize>
    ensures some { IfSome result (λ cols. n ≡ rows * cols) }
    ensures none { IfNone result (¬ (AreRowsOf n rows)) }
{
    if rows == 0 {
        return if n == 0 { Some(0) } else { None };
    }
    if n % rows == 0 { Some(n / rows) } else { None }
}

/// Writes the shards of the data over the cells, a shard a row.
pub fn write_shards(
    alloc: Global,
    words: &[u64],
    min: u32,
    total: u32,
    cells: &mut [u64],
) -> Mem<()>
    requires split { IsSplit min total }
    requires size { (n : ℕ) × HaveShardSizes (length words.now) min total n
        × (length cells.old ≡ total * n) }
    ensures ok { OnOk result (AreWordsOfShards words.now min total cells.new) }
    ensures err { OnErr result (cells.new ≡ cells.old) }
{
    split_rows(alloc, words, min, total, cells)?;
    Ok(())
}

/// Words that give words back.
impl<'a> ShardsInHand for WordShards<'a> {
    type Item = u64;

    ghost count = { λ s. length s.indices.now };

    ghost join_to = { λ s words. DoJoinTo words s.min s.total s.indices.now s.cells.now };

    ghost correct_to = { λ s words positions.
        DoCorrectTo words positions s.min s.total s.indices.now s.cells.now };

    ghost refused = { λ s e. AreRefused e s.min s.total s.indices.now s.cells.now };

    ghost refused_correcting = { λ s e.
        AreRefusedCorrecting e s.min s.total s.indices.now s.cells.now };

    fn join(self, alloc: Global, out: &mut [u64]) -> Result<Option<usize>, Error> {
        join_rows(
            alloc,
            self.indices,
            self.min,
            self.total,
            self.cells,
            self.cols,
            out,
        )
    }

    fn correct(self, alloc: Global) -> Result<(Vec<u64>, Vec<usize>), Error> {
        let (min, total) = (self.min, self.total);
        let shards = shards_of_rows(alloc, self.indices, min, total, self.cells, self.cols)?;
        let joined = join_corrected(alloc, &shards)?;
        Ok((joined.words, joined.left_out))
    }
}
