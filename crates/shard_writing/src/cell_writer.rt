//! The records of blocks in shards of cells, which version 2 has. Only missing ones are written.

ghost use Rattle.std.specs.Prelude.{◌≡◌, ◌*◌, ◌<◌, ◌^◌, All, length, IfOk};

use math_fields::goldilocks::F;
use partial_files::partial::Partial;
use shard_blocks::split_block_rows_at;
use shard_files::fault::Fault;
use shard_files::split::Split;
use shard_format::records::write_record;
use std::alloc::Global;

/// Room for the shards of a block, and for one record.
#[derive(Drop)]
pub struct CellWriter {
    rows: Vec<F>,
    record: Vec<u8>,
}

impl CellWriter {
    /// Room that grows with the first block.
    pub fn new(alloc: Global) -> CellWriter {
        CellWriter {
            rows: Vec::new(alloc),
            record: Vec::new(alloc),
        }
    }

    /// Writes the shards of the block with this number and these indices, one to each of the files.
    pub fn write(
        &mut self,
        rt: &HostRuntime,
        split: &Split,
        number: u64,
        bytes: &[u8],
        indices: &[u32],
        partials: &mut [Partial],
    ) -> Result<(), Fault>
        requires { All (λ i. i < split.now.header.total) indices.now }
    {
        let width = fill_rows(rt.alloc(), split, indices, bytes, &mut self.rows)?;
        let block = BlockShards {
            split: *split,
            number,
            width,
        };
        append_rows(rt, &block, indices, &self.rows, partials, &mut self.record)
    }
}

/// Which block of which split is written, and how many cells each of its shards has.
#[derive(Clone, Copy)]
struct BlockShards {
    split: Split,
    number: u64,
    width: usize,
    ghost few: { width < 2 ^ 32 },
}

/// Writes the shards of a block with these indices over the rows, and gives how many cells each
/// has.
fn fill_rows(
    alloc: Global,
    split: &Split,
    indices: &[u32],
    bytes: &[u8],
    rows: &mut Vec<F>,
) -> Result<usize, Fault>
    requires { All (λ i. i < split.now.header.total) indices.now }
    ensures few { IfOk result (λ width. width < 2 ^ 32) }
    ensures size { IfOk result (λ width. length rows.new.items ≡ length indices.now * width) }
{
    let width = split.cells_of(bytes.len())? as usize;
    let Some(size) = indices.len().checked_mul(width) else {
        return Err(Fault::Cells);
    };
    rows.resize(size, F::from(0))?;
    let (min, total) = (split.header.min, split.header.total);
    split_block_rows_at(alloc, bytes, min, total, indices, rows)?;
    Ok(width)
}

/// Writes a record at the end of each file: the row of its index, and its fingerprints.
fn append_rows(
    rt: &HostRuntime,
    block: &BlockShards,
    indices: &[u32],
    rows: &[F],
    partials: &mut [Partial],
    record: &mut Vec<u8>,
) -> Result<(), Fault>
    requires { length rows.now ≡ length indices.now * block.now.width }
{
    let width = block.width;
    for t in 0..indices.len().min(partials.len()) {
        let header = block.split.header_of(indices[t]);
        let row = &rows[t * width..(t + 1) * width];
        write_record(rt.alloc(), &header, block.number, row, record)?;
        partials[t].append(rt, record)?;
    }
    Ok(())
}
