//! Blocks of the file, from what shard files have of them.

ghost use Rattle.std.specs.Prelude.{◌≡◌, ◌<◌, length, IfOk, IfSome};

use crate::cells::CellReader;
use crate::rows::RowReader;
use hash_trees::Digest;
use shard_files::fault::Fault;
use shard_files::sources::ShardFile;
use shard_files::split::{Block, Split};
use shard_files::tree::BlockTree;
use std::alloc::Global;

/// Which shards of a block are looked at.
#[derive(Clone, Copy, PartialEq, Eq)]
pub enum Look {
    /// As many as give the block.
    First,
    /// All of them. The first that fit give the block.
    Each,
    /// All of them, and they are compared.
    Compared,
}

impl Look {
    /// All that are compared, or those of the other kind.
    pub fn compared_or(compares_all: bool, other: Look) -> Look {
        if compares_all { Look::Compared } else { other }
    }
}

/// A block that shards gave.
#[derive(Drop)]
pub struct FoundBlock {
    pub bytes: Vec<u8>,
    /// The mask of its words; 0 where shards have cells.
    pub mask: u32,
    /// Its root, where one is known from the tree of the files.
    pub root: Option<Digest>,
}

impl FoundBlock {
    /// The block with these bytes and this mask, whose root is not known.
    pub(crate) fn new(bytes: Vec<u8>, mask: u32) -> FoundBlock
        ensures { result.bytes ≡ bytes }
    {
        FoundBlock {
            bytes,
            mask,
            root: None,
        }
    }
}

/// What reads blocks of a split, one after the other.
#[derive(Drop)]
pub struct BlockReader {
    pub split: Split,
    kind: Kind,
}

/// What the shards of the split have.
#[derive(Drop)]
enum Kind {
    Cells(CellReader),
    Rows(RowReader),
}

impl BlockReader {
    /// One whose room grows with the first record. Where a tree is handed in, paths decide which
    /// shards fit; else they may be compared with each other.
    pub fn new(
        alloc: Global,
        split: &Split,
        tree: Option<BlockTree>,
        compares_paths: bool,
    ) -> BlockReader {
        let kind = if split.header.format.has_cells() {
            Kind::Cells(CellReader::new(alloc, split))
        } else {
            Kind::Rows(RowReader::new(alloc, split, tree, compares_paths))
        };
        BlockReader {
            split: *split,
            kind,
        }
    }

    /// The next block of the split.
    ///
    /// It is that which the first shards give that fit, as many as are needed. Where these give no
    /// such block, or where all are to be compared, all shards that fit are looked at together, and
    /// those are noted at their files that do not fit the others. It refuses where there is no such
    /// block, and names it.
    ///
    /// A shard fits by its fingerprints, or under a root by its path. Under a root, to compare all
    /// is to commit to the block again.
    pub fn block(
        &mut self,
        rt: &HostRuntime,
        files: &mut [ShardFile],
        block: Block,
        look: Look,
    ) -> Result<FoundBlock, Fault>
        ensures { IfOk result (λ found. length found.bytes.items ≡ block.bytes) }
    {
        match &mut self.kind {
            Kind::Cells(reader) => {
                let bytes = reader.block(rt, files, block, look)?;
                Ok(FoundBlock::new(bytes, 0))
            }
            Kind::Rows(reader) => reader.block(rt, files, block, look),
        }
    }

    /// Looks at all shards of the next block, and notes what is wrong with each. It refuses where
    /// those that fit, each index counted once, are fewer than give the block; none is joined,
    /// unless they do not belong together at first sight.
    pub fn check(
        &mut self,
        rt: &HostRuntime,
        files: &mut [ShardFile],
        block: Block,
    ) -> Result<(), Fault> {
        match &mut self.kind {
            Kind::Cells(reader) => reader.check(rt, files, block),
            Kind::Rows(reader) => reader.check(rt, files, block),
        }
    }

    /// The bytes of the record of a block that the file has, and of its path, as they stand there,
    /// where it fits. The block has this root, where one is known.
    pub fn record(
        &mut self,
        rt: &HostRuntime,
        file: &ShardFile,
        block: Block,
        root: Option<&Digest>,
    ) -> Result<Option<&[u8]>, Fault> {
        match &mut self.kind {
            Kind::Cells(reader) => reader.record(rt, file, block),
            Kind::Rows(reader) => reader.record(rt, file, block, root),
        }
    }

    /// Compares the paths of the rows of the last block with its root, and notes at each file where
    /// its path does not fit.
    pub fn note_paths(&mut self, files: &mut [ShardFile], block: Block, root: Option<Digest>) {
        if let Kind::Rows(reader) = &mut self.kind {
            reader.note_paths(files, block, root);
        }
    }

    /// How many bytes of a block stand in one row, or all where shards have cells.
    pub fn row_bytes(&self, block: Block) -> u32
        ensures { 0 < block.bytes → 0 < result }
    {
        if self.split.header.format.has_cells() {
            return block.bytes;
        }
        let words = block.bytes.div_ceil(8).div_ceil(self.split.header.min);
        words.saturating_mul(8)
    }

    /// The first bytes of the data row of this index of the last block, if the block was refused
    /// since too few rows fit, and this is one of them.
    pub fn row_left(&self, index: u32, count: usize) -> Option<&[u8]>
        ensures { IfSome result (λ bytes. length bytes.now ≡ count) }
    {
        match &self.kind {
            Kind::Cells(_) => None,
            Kind::Rows(reader) => reader.row_left(index, count),
        }
    }
}
