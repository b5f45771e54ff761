//! Shards as words in the caller's memory.

ghost use Rattle.std.specs.Prelude.{◌≡◌, ◌*◌, length};
ghost use Rattle.c_calls.specs.WordElements.{AreElements};

/// Rows of words, of which each is the cells of a shard: row i is the shard of index number i.
#[derive(Clone, Copy)]
pub struct WordShards<'a> {
    /// The index of each.
    pub indices: &'a [u32],
    /// How many of them give the data back.
    pub min: u32,
    /// How many there are of the data.
    pub total: u32,
    /// The cells, row after row.
    pub cells: &'a [u64],
    /// How many cells a row has.
    pub cols: usize,
    ghost whole: { length cells.now ≡ length indices.now * cols },
    ghost below: { AreElements cells.now },
}
