//! The records of blocks in rows, which version 3 has: the data as they are, and parity.

ghost use Rattle.std.specs.Prelude.{◌≡◌, ◌*◌, ◌-◌, length, IfOk};

use crate::block_roots::BlockRoots;
use hash_trees::Digest;
use math_fields::goldilocks::F;
use partial_files::partial::{Manner, Partial};
use shard_blocks::Error;
use shard_files::committing::{Committed, row_in};
use shard_files::fault::Fault;
use shard_files::split::Split;
use shard_fingerprints::Keys;
use shard_format::header::Header;
use shard_format::rows::{MaskedRow, write_row_record};
use shard_roots::Shard;
use std::alloc::{AllocError, Global};
use systematic_shards::{Code, Row, Split as RowSplit, encode, rebuild};

/// What is known of a block before its records are written.
#[derive(Clone, Copy)]
pub struct Known {
    /// Its mask, where its shards were read.
    pub mask: Option<u32>,
    /// Its root, where that was read.
    pub root: Option<Digest>,
}

/// Which records are written of a block: to each file the one of its index, under its keys.
#[derive(Clone, Copy)]
pub struct Target<'a> {
    pub split: &'a Split,
    /// The number of the block.
    pub number: u64,
    pub indices: &'a [u32],
    pub keys: &'a [Keys],
}

impl<'a> Target<'a> {
    /// The header of the file at this place.
    pub fn header(&self, place: usize) -> Header {
        let mut header = self.split.header;
        if let Some(index) = self.indices.get(place) {
            header.index = *index;
        }
        if let Some(keys) = self.keys.get(place) {
            header.keys = *keys;
        }
        header
    }
}

/// Room for one record, and for its elements.
#[derive(Drop)]
struct RecordRoom {
    elements: Vec<F>,
    record: Vec<u8>,
}

impl RecordRoom {
    /// The record of a shard of the block with this number, and its path, under this header.
    fn record(
        &mut self,
        alloc: Global,
        header: &Header,
        number: u64,
        shard: &Shard<'_>,
    ) -> Result<&[u8], Fault> {
        let Some(row) = MaskedRow::new(shard.mask, shard.cells) else {
            return Err(Fault::Cells);
        };
        let RecordRoom { elements, record } = self;
        write_row_record(alloc, header, number, row, elements, record)?;
        for digest in shard.path {
            record.extend_from_slice(digest)?;
        }
        Ok(record)
    }
}

/// Room for the rows of a block that its bytes do not hold.
#[derive(Drop)]
struct RowRoom {
    /// The data rows that they do not fill, with zeros behind the last byte.
    padded: Vec<u8>,
    /// The rows that are made from the data.
    made: Vec<u8>,
}

impl RowRoom {
    /// Takes the data rows that the bytes of the block do not fill.
    fn pad(&mut self, split: RowSplit, bytes: &[u8]) -> Result<(), AllocError> {
        let width = 8 * split.width;
        let filled = bytes.len() / width.max(1);
        let size = (split.min as usize * width).saturating_sub(filled.saturating_mul(width));
        self.padded.clear();
        self.padded.extend_from_slice(row_in(bytes, filled, width))?;
        self.padded.resize(size, 0)?;
        Ok(())
    }

    /// Makes the parity rows of the block, and gives its mask.
    fn make_parity(
        &mut self,
        alloc: Global,
        split: RowSplit,
        bytes: &[u8],
    ) -> Result<u32, AllocError>
        requires { length bytes.now ≡ split.size }
    {
        let size = (split.total - split.min) as usize * (8 * split.width);
        self.made.resize(size, 0)?;
        encode(alloc, split, bytes, &mut self.made)
    }

    /// Makes the rows alone that are meant, of the block with this mask.
    fn make_meant(
        &mut self,
        alloc: Global,
        target: Target<'_>,
        code: Code,
        bytes: &[u8],
    ) -> Result<(), Fault> {
        let Some(size) = target.indices.len().checked_mul(8 * code.split.width) else {
            return Err(Fault::Cells);
        };
        self.made.resize(size, 0)?;
        let rows = data_rows(alloc, code.split, bytes, &self.padded)?;
        match rebuild(alloc, code, &rows, target.indices, &mut self.made) {
            Ok(()) => Ok(()),
            Err(systematic_shards::Error::Memory(error)) => Err(Fault::from(error)),
            Err(_) => Err(Fault::Block(target.number, Error::Inconsistent)),
        }
    }
}

/// The rows of a block, and its mask.
#[derive(Clone, Copy)]
struct BlockRows<'a> {
    mask: u32,
    /// How many bytes a row has.
    width: usize,
    /// The data: those of the rows that they fill, and the other rows.
    bytes: &'a [u8],
    padded: &'a [u8],
    /// The rows that were made: those of the files in their order, or the parity rows.
    made: &'a [u8],
    are_of_files: bool,
}

impl<'a> BlockRows<'a> {
    /// The row of the file at this place, which has this header.
    fn row(&self, place: usize, header: &Header) -> &'a [u8] {
        let index = header.index as usize;
        if self.are_of_files {
            row_in(self.made, place, self.width)
        } else if header.index < header.min {
            data_row(self.bytes, self.padded, index, self.width)
        } else {
            row_in(self.made, index - header.min as usize, self.width)
        }
    }

    /// Writes the record of the row of each of the files at its end, and its path where the block is
    /// committed to.
    fn append(
        &self,
        rt: &HostRuntime,
        target: Target<'_>,
        committed: Option<&Committed>,
        room: &mut RecordRoom,
        partials: &mut [Partial],
    ) -> Result<(), Fault> {
        for (place, partial) in partials.iter_mut().enumerate() {
            let header = target.header(place);
            let path = path_of(rt.alloc(), committed, header.index)?;
            let shard = Shard {
                index: header.index,
                mask: self.mask,
                cells: self.row(place, &header),
                path: &path,
            };
            partial.append(rt, room.record(rt.alloc(), &header, target.number, &shard)?)?;
        }
        Ok(())
    }
}

/// What writes the records of blocks.
#[derive(Drop)]
pub struct RowWriter {
    rows: RowRoom,
    room: RecordRoom,
    /// The next block, where it is committed to.
    committed: Option<Committed>,
    /// The roots of the blocks so far, where records have paths.
    pub roots: BlockRoots,
}

impl RowWriter {
    /// Room that grows with the first block. Where there are many blocks, a file in the folder of
    /// this name has their roots.
    pub fn new(alloc: Global, beside: &str, how: Manner) -> Result<RowWriter, AllocError> {
        Ok(RowWriter {
            rows: RowRoom {
                padded: Vec::new(alloc),
                made: Vec::new(alloc),
            },
            room: RecordRoom {
                elements: Vec::new(alloc),
                record: Vec::new(alloc),
            },
            committed: None,
            roots: BlockRoots::new(alloc, beside, how)?,
        })
    }

    /// Commits to the next block, and gives its root. It refuses a block whose mask or root is not
    /// the one that is known.
    pub fn commit(
        &mut self,
        alloc: Global,
        target: Target<'_>,
        bytes: &[u8],
        known: Known,
    ) -> Result<Digest, Fault> {
        let split = rows_of(target, bytes)?;
        let committed = Committed::new(alloc, split, bytes, &mut self.rows.made)?;
        let (mask, root) = (committed.commitment.mask, committed.commitment.root());
        if matches!(known.mask, Some(other) if other != mask) {
            return Err(Fault::Block(target.number, Error::Inconsistent));
        }
        if matches!(known.root, Some(other) if other != root) {
            return Err(Fault::BlockRoot(target.number));
        }
        self.committed = Some(committed);
        Ok(root)
    }

    /// Writes the records of a block, one to each of the files. It refuses a block whose mask or
    /// root is not the one that is known.
    pub fn write(
        &mut self,
        rt: &HostRuntime,
        target: Target<'_>,
        bytes: &[u8],
        known: Known,
        partials: &mut [Partial],
    ) -> Result<(), Fault> {
        let split = rows_of(target, bytes)?;
        self.rows.pad(split, bytes)?;
        if target.split.header.format.has_paths() {
            return self.write_committed(rt, target, bytes, known, partials);
        }
        let mask = match known.mask {
            Some(mask) => {
                let code = Code { split, mask };
                self.rows.make_meant(rt.alloc(), target, code, bytes)?;
                mask
            }
            None => self.rows.make_parity(rt.alloc(), split, bytes)?,
        };
        let rows = BlockRows {
            mask,
            width: 8 * split.width,
            bytes,
            padded: self.rows.padded.as_slice(),
            made: self.rows.made.as_slice(),
            are_of_files: known.mask.is_some(),
        };
        rows.append(rt, target, None, &mut self.room, partials)
    }

    /// Writes the records of a block, and their paths.
    fn write_committed(
        &mut self,
        rt: &HostRuntime,
        target: Target<'_>,
        bytes: &[u8],
        known: Known,
        partials: &mut [Partial],
    ) -> Result<(), Fault> {
        if self.committed.is_none() {
            self.commit(rt.alloc(), target, bytes, known)?;
        }
        let Some(committed) = self.committed.take() else {
            return Ok(());
        };
        self.roots.push(rt, committed.commitment.root())?;
        let split = rows_of(target, bytes)?;
        let rows = BlockRows {
            mask: committed.commitment.mask,
            width: 8 * split.width,
            bytes,
            padded: self.rows.padded.as_slice(),
            made: self.rows.made.as_slice(),
            are_of_files: false,
        };
        rows.append(rt, target, Some(&committed), &mut self.room, partials)
    }
}

/// How a block with these bytes is cut into rows.
fn rows_of(target: Target<'_>, bytes: &[u8]) -> Result<RowSplit, Fault>
    ensures { IfOk result (λ split. split.size ≡ length bytes.now) }
{
    match u32::try_from(bytes.len()) {
        Ok(size) => target.split.rows_of(size),
        Err(_) => Err(Fault::Cells),
    }
}

/// The path of the shard of this index of a block that is committed to, or none.
fn path_of(
    alloc: Global,
    committed: Option<&Committed>,
    index: u32,
) -> Result<Vec<Digest>, AllocError> {
    match committed {
        Some(committed) => committed.path(alloc, index),
        None => Ok(Vec::new(alloc)),
    }
}

/// The data rows of a block, of which its bytes fill the first ones.
fn data_rows<'a>(
    alloc: Global,
    split: RowSplit,
    bytes: &'a [u8],
    padded: &'a [u8],
) -> Result<Vec<Row<'a, u8>>, AllocError> {
    let mut rows = Vec::new(alloc);
    for index in 0..split.min {
        let cells = data_row(bytes, padded, index as usize, 8 * split.width);
        rows.push(Row { index, cells })?;
    }
    Ok(rows)
}

/// The data row with this number of a block, of which its bytes fill the first ones.
fn data_row<'a>(bytes: &'a [u8], padded: &'a [u8], number: usize, width: usize) -> &'a [u8] {
    let row = row_in(bytes, number, width);
    if row.len() == width {
        return row;
    }
    let filled = bytes.len() / width.max(1);
    row_in(padded, number.saturating_sub(filled), width)
}
