//! Shards as bytes.
//!
//! A shard is its index, its `min` and its `total`, each as a length, and then the list of its
//! cells: the shard 0 of 4, of which any 3 give the data back, with the one cell 3 is `00 03 04 01`
//! and a word. What is read may be a shard of no data: the reader judges the number of cells, and
//! none of the three numbers.

ghost use Rattle.std.specs.Prelude.{◌≡◌, ◌<◌, ◌^◌, ◌++◌, length, take, OnOk};
ghost use Rattle.math_splitting.specs.ShardEncoding.{shard_spelling, AreSameShards, AdmitsShard};
ghost use Rattle.math_splitting.specs.ShardEncoding.{scan_shard, ShardGrows};
ghost use Rattle.math_splitting.specs.ShardEncodingLaws.{shard_again, shard_apart};

use super::Shard;
use math_codec::codec::{
    EncodeSize, Encoding, Error, LengthRange, Mem, Read, Write, len_size, list_size, read_len,
    read_list, roll_back, write_len, write_list,
};
use std::alloc::Global;

/// The index, `min` and `total`, each as a length, and the list of the cells.
impl Encoding for Shard {
    ghost spelling = { shard_spelling };

    ghost alike = { AreSameShards };
}

impl Read for Shard {
    /// The greatest number of cells.
    type Cfg = u32;

    ghost admits = { AdmitsShard };

    ghost scan = { scan_shard };

    ghost grows = { ShardGrows };

    /// Reads the index, `min`, `total`, and the list of the cells.
    ///
    /// It refuses with the first fault of these, in this order; more cells than the greatest number
    /// are `InvalidLength`. It takes any index, `min` and `total`.
    #[tactic(auto, unfolding(crate::specs::ShardEncoding::scan_shard))]
    fn read_cfg(alloc: Global, input: &mut &[u8], cfg: &u32) -> Result<Shard, Error> {
        let mut rest = *input;
        let index = read_len(alloc, &mut rest)?;
        let min = read_len(alloc, &mut rest)?;
        let total = read_len(alloc, &mut rest)?;
        let cells = read_list(alloc, &mut rest, LengthRange::at_most(*cfg), &())?;
        *input = rest;
        Ok(Shard {
            index,
            min,
            total,
            cells,
        })
    }

    ghost again = { shard_again };

    ghost apart = { shard_apart };
}

/// Writes a shard. What is written stays where memory runs out.
fn write_parts(alloc: Global, shard: &Shard, out: &mut Vec<u8>) -> Mem<()>
    requires { length shard.now.cells.items < 2 ^ 32 }
    ensures ok { OnOk result (out.new.items ≡ out.old.items ++ shard_spelling shard.now) }
    ensures kept { take (length out.old.items) out.new.items ≡ out.old.items }
{
    write_len(alloc, shard.index, out)?;
    write_len(alloc, shard.min, out)?;
    write_len(alloc, shard.total, out)?;
    write_list(alloc, &shard.cells, out)
}

impl Write for Shard {
    ghost fits = { λ s. length s.cells.items < 2 ^ 32 };

    /// Writes the index, `min`, `total`, and the list of the cells, whose number has to be below
    /// 2^32.
    fn write(&self, alloc: Global, out: &mut Vec<u8>) -> Mem<()> {
        let start = out.len();
        let written = write_parts(alloc, self, out);
        roll_back(alloc, written, start, out)
    }
}

impl EncodeSize for Shard {
    /// The number of bytes of the three lengths and of the list of the cells, which has to fit.
    fn encode_size(&self) -> usize {
        len_size(self.index as usize)
            + len_size(self.min as usize)
            + len_size(self.total as usize)
            + list_size(&self.cells)
    }
}
