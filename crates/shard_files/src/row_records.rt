//! The rows that shard files of version 3 have of a block, as their records say.

use crate::fault::Fault;
use crate::sources::ShardFile;
use crate::split::{Block, Split};
use math_fields::goldilocks::F;
use shard_format::header::Header;
use shard_format::records::{path_size, record_place, record_size};
use shard_format::rows::{row_at, row_in_record};
use shard_roots::Shard;
use std::alloc::Global;

/// What is wrong with the record of a block.
const CUT_OFF: &str = "it ends before, or cannot be read";

const OTHER_NUMBERS: &str = "its numbers are not those of the header";

/// How the paths of rows are looked at.
#[derive(Clone, Copy)]
pub enum Paths {
    /// They are not read.
    Unread,
    /// They are compared: a row is used though its path is cut off.
    Compared,
    /// They decide which rows are used.
    Deciding,
}

/// What a file has of a block, as it stands in the room for records.
#[derive(Clone, Copy)]
pub enum Seen<'a> {
    /// Nothing, since it is no file of the split.
    Nothing,
    /// No row, and what is wrong.
    Unfit(&'static str),
    Row(SeenRow<'a>),
}

/// A row that a file has of a block.
#[derive(Clone, Copy)]
pub struct SeenRow<'a> {
    /// It, with its path where that was read.
    pub shard: Shard<'a>,
    /// Whether its record fits its fingerprints.
    pub fits: bool,
}

/// What reads records of a split, one after the other.
#[derive(Drop)]
pub struct RecordReader {
    pub split: Split,
    /// The last record, and its path where that was read.
    pub bytes: Vec<u8>,
    /// Room for its elements.
    elements: Vec<F>,
}

impl RecordReader {
    /// One whose room grows with the first record.
    pub fn new(alloc: Global, split: &Split) -> RecordReader {
        RecordReader {
            split: *split,
            bytes: Vec::new(alloc),
            elements: Vec::new(alloc),
        }
    }

    /// What the file has of a block, with its path where paths are looked at.
    pub fn row(
        &mut self,
        rt: &HostRuntime,
        file: &ShardFile,
        block: Block,
        paths: Paths,
    ) -> Result<Seen<'_>, Fault> {
        let Some(header) = file.header() else {
            return Ok(Seen::Nothing);
        };
        let with_path = !matches!(paths, Paths::Unread);
        let mut size = self.read(rt, file, &header, block, with_path)?;
        if size.is_none() && matches!(paths, Paths::Compared) {
            size = self.read(rt, file, &header, block, false)?;
        }
        match size {
            Some(size) => self.row_in(rt.alloc(), &header, block, size),
            None => Ok(Seen::Unfit(CUT_OFF)),
        }
    }

    /// Reads the record of a block, and its path where that is wanted, and gives how many bytes the
    /// record has; none where they are not there.
    fn read(
        &mut self,
        rt: &HostRuntime,
        file: &ShardFile,
        header: &Header,
        block: Block,
        with_path: bool,
    ) -> Result<Option<usize>, Fault> {
        let width = self.split.words_of(block.bytes)?;
        let whole = self.split.words_of(header.block)?;
        let Ok(size) = usize::try_from(record_size(header, width as usize)) else {
            return Err(Fault::Cells);
        };
        let path_size = if with_path { path_size(header) } else { 0 };
        self.bytes.resize(size.saturating_add(path_size), 0)?;
        let at = record_place(header, whole as usize, block.number);
        let is_there = file.read(rt, at, &mut self.bytes)?;
        Ok(is_there.then_some(size))
    }

    /// The row that stands in the record that was read, of so many bytes.
    fn row_in(
        &mut self,
        alloc: Global,
        header: &Header,
        block: Block,
        size: usize,
    ) -> Result<Seen<'_>, Fault> {
        let width = self.split.words_of(block.bytes)?;
        let Some((record, path)) = self.bytes.split_at_checked(size) else {
            return Ok(Seen::Unfit(CUT_OFF));
        };
        let elements = &mut self.elements;
        let fitting = row_in_record(alloc, header, block.number, width, record, elements)?;
        let fits = fitting.is_some();
        let row = match fitting {
            Some(row) => Some(row),
            None => row_at(alloc, header, width, record)?,
        };
        let Some(row) = row else {
            return Ok(Seen::Unfit(OTHER_NUMBERS));
        };
        let (path, _) = path.as_chunks::<32>();
        let shard = Shard {
            index: header.index,
            mask: row.mask,
            cells: row.bytes,
            path,
        };
        Ok(Seen::Row(SeenRow { shard, fits }))
    }
}
