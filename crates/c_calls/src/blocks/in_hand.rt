//! Shards of a block as bytes in the caller's memory.

ghost use Rattle.std.specs.Prelude.{◌≡◌, ◌*◌, length};
ghost use Rattle.math_splitting.specs.DataWords.{spelled_words};
ghost use Rattle.c_calls.specs.ShardBytes.{word_bytes};
ghost use Rattle.c_calls.specs.WordElements.{AreElements};

/// Rows of bytes, of which each is the cells of a shard, eight bytes a cell: row i is the shard of
/// index number i.
#[derive(Clone, Copy)]
pub struct ByteShards<'a> {
    /// The index of each.
    pub indices: &'a [u32],
    /// How many of them give the block back.
    pub min: u32,
    /// How many there are of the block.
    pub total: u32,
    /// The bytes, row after row.
    pub bytes: &'a [u8],
    /// How many cells a row has.
    pub cols: usize,
    ghost whole: { length bytes.now ≡ 8 * (length indices.now * cols) },
    ghost spelled: { bytes.now ≡ word_bytes (spelled_words bytes.now) },
    ghost below: { AreElements (spelled_words bytes.now) },
}
