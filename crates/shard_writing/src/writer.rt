//! Shard files that are being written.

ghost use Rattle.std.specs.Prelude.{◌≡◌, ◌+◌, ◌*◌, ◌<◌, ◌≤◌, All, length, IfOk, OnOk};

use crate::cell_writer::CellWriter;
use crate::pairs::{compare_pairs, write_pairs};
pub use crate::row_writer::Known;
use crate::row_writer::{RowWriter, Target};
use hash_trees::{Digest, file_root_above};
use partial_files::finishing::{folders_of, name_all, remove_all};
use partial_files::names::MOST_FILES;
use partial_files::partial::{Manner, Partial};
use shard_files::fault::Fault;
use shard_files::sources::{MOST_KEPT_OPEN, ShardFile};
use shard_files::split::Split;
use shard_files::tree::numbers_of;
use shard_fingerprints::Keys;
use shard_format::header::{Header, LARGEST_HEADER, header_bytes};
use std::alloc::{AllocError, Global};

/// Shard files of one split that are being written. Their headers are written last.
#[derive(Drop)]
pub struct ShardWriter {
    how: Manner,
    partials: Vec<Partial>,
    /// The index of the shards of each of them, and its keys.
    pub indices: Vec<u32>,
    keys: Vec<Keys>,
    /// The number of bytes that are known and whose shards are still to be written.
    pub left: u64,
    pub split: Split,
    /// The number of the next block.
    block: u64,
    cells: CellWriter,
    rows: RowWriter,
    pub ghost below: { All (λ i. i < split.header.total) indices.items },
}

impl ShardWriter {
    /// No file yet, for a file that is split so. What the run keeps for itself goes to the folder
    /// of this name.
    pub fn new(
        alloc: Global,
        split: &Split,
        how: Manner,
        beside: &str,
    ) -> Result<ShardWriter, AllocError>
        ensures left { IfOk result (λ writer. writer.left ≡ split.now.header.length) }
        ensures split { IfOk result (λ writer. writer.split ≡ split.now) }
    {
        Ok(ShardWriter {
            how,
            partials: Vec::new(alloc),
            indices: Vec::new(alloc),
            keys: Vec::new(alloc),
            left: split.header.length,
            split: *split,
            block: 0,
            cells: CellWriter::new(alloc),
            rows: RowWriter::new(alloc, beside, how)?,
        })
    }

    /// Adds a file for the shards with this index, under these keys. Its header is zeros. It
    /// refuses where there are as many as a run writes.
    pub fn add(
        &mut self,
        rt: &HostRuntime,
        path: String,
        index: u32,
        keys: Keys,
    ) -> Result<(), Fault>
        requires { index < self.old.split.header.total }
        ensures few { OnOk result (length self.new.indices.items ≤ 65536) }
        ensures left { self.new.left ≡ self.old.left }
        ensures split { self.new.split ≡ self.old.split }
    {
        let number = self.indices.len();
        if number >= MOST_FILES as usize {
            return Err(Fault::TooManyFiles);
        }
        self.partials.reserve(1)?;
        self.keys.push(keys)?;
        self.indices.push(index)?;
        let mut partial = Partial::create(rt, path, &self.how, number)?;
        let size = self.split.header.format.header_size();
        let written = partial.append(rt, &[0; LARGEST_HEADER][..size]);
        if number >= MOST_KEPT_OPEN {
            partial.close();
        }
        self.partials.push(partial)?;
        Ok(written?)
    }

    /// Writes the bytes at the end of the file that was added last.
    pub fn append_to_last(&mut self, rt: &HostRuntime, bytes: &[u8]) -> Result<(), Fault>
        ensures left { self.new.left ≡ self.old.left }
        ensures split { self.new.split ≡ self.old.split }
        ensures indices { self.new.indices ≡ self.old.indices }
    {
        if let Some(partial) = self.partials.last_mut() {
            partial.append(rt, bytes)?;
        }
        Ok(())
    }

    /// Notes that so many bytes follow, of a file whose length was not known.
    pub fn lengthen(&mut self, bytes: u64) -> Result<(), Fault>
        requires { self.old.left ≡ 0 }
        ensures { OnOk result (self.new.left ≡ bytes) }
    {
        let Some(length) = self.split.header.length.checked_add(bytes) else {
            return Err(Fault::Cells);
        };
        self.split.header.length = length;
        self.left = bytes;
        Ok(())
    }

    /// The root of the next block, where records have paths. It refuses a block whose mask or root
    /// is not the one that is known.
    pub fn root_of(
        &mut self,
        alloc: Global,
        bytes: &[u8],
        known: Known,
    ) -> Result<Option<Digest>, Fault>
        ensures left { self.new.left ≡ self.old.left }
        ensures split { self.new.split ≡ self.old.split }
    {
        if !self.split.header.format.has_paths() {
            return Ok(None);
        }
        let target = Target {
            split: &self.split,
            number: self.block,
            indices: &self.indices,
            keys: &self.keys,
        };
        let root = self.rows.commit(alloc, target, bytes, known)?;
        Ok(Some(root))
    }

    /// Writes the shards of the next block, one to each of the files. It refuses a block whose mask
    /// or root is not the one that is known.
    pub fn write(&mut self, rt: &HostRuntime, bytes: &[u8], known: Known) -> Result<(), Fault>
        requires { length bytes.now ≤ self.old.left }
        ensures { OnOk result (self.new.left + length bytes.now ≡ self.old.left) }
    {
        let number = self.block;
        if self.split.header.format.has_cells() {
            if !self.indices.is_empty() {
                self.cells.write(
                    rt,
                    &self.split,
                    number,
                    bytes,
                    &self.indices,
                    &mut self.partials,
                )?;
            }
        } else {
            let target = Target {
                split: &self.split,
                number,
                indices: &self.indices,
                keys: &self.keys,
            };
            self.rows
                .write(rt, target, bytes, known, &mut self.partials)?;
        }
        self.block = self.block.saturating_add(1);
        self.left -= bytes.len() as u64;
        Ok(())
    }

    /// The root of the block with this number that was written, where records have paths.
    pub fn root_before(&self, rt: &HostRuntime, number: usize) -> Result<Option<Digest>, Fault> {
        if !self.split.header.format.has_paths() {
            return Ok(None);
        }
        self.rows.roots.root(rt, number)
    }

    /// Compares the pairs of each file with those of the tree over all blocks, which were written,
    /// and notes at the file where one is another.
    pub fn note_pairs(&mut self, rt: &HostRuntime, files: &mut [ShardFile]) -> Result<(), Fault>
        ensures left { self.new.left ≡ self.old.left }
    {
        let split = self.split;
        compare_pairs(rt, &split, &mut self.rows.roots, files)
    }

    /// Writes the pairs and the headers, and gives the files their names, once the shards of all
    /// bytes are written. It answers the root of the file, where records have paths.
    ///
    /// Where it refuses before a file has its name, what was written is removed. Later all of it
    /// stays, under final names or not: files that were replaced are gone, and these may be all
    /// there is. Where all have their names, and some a second one too, it refuses at the end.
    pub fn finish(self, rt: &HostRuntime) -> Result<Option<Digest>, Fault>
        requires { self.left ≡ 0 }
    {
        let mut writer = self;
        match writer.settle(rt) {
            Ok((root, folders)) => {
                writer.rows.roots.remove(rt);
                name_all(rt, &writer.partials, folders)?;
                Ok(root)
            }
            Err(fault) => {
                writer.discard(rt);
                Err(fault)
            }
        }
    }

    /// Writes the pairs and the headers, and has the system write all files to the device. It
    /// answers the root of the file, where records have paths, and the folders of the files, so
    /// that no memory is taken once a file has its final name.
    fn settle(&mut self, rt: &HostRuntime) -> Result<(Option<Digest>, Vec<String>), Fault> {
        let root = self.write_tree(rt)?;
        for (place, partial) in self.partials.iter().enumerate() {
            let header = self.header(place);
            partial.write_first(rt, &header_bytes(rt.alloc(), &header)?)?;
            partial.settle(rt)?;
        }
        Ok((root, folders_of(rt.alloc(), &self.partials)?))
    }

    /// Writes the pairs of the tree over all blocks, where records have paths, and gives the root of
    /// the file.
    fn write_tree(&mut self, rt: &HostRuntime) -> Result<Option<Digest>, Fault> {
        if !self.split.header.format.has_paths() {
            return Ok(None);
        }
        let numbers = numbers_of(&self.split.header);
        let top = write_pairs(rt, &mut self.rows.roots, &mut self.partials)?;
        Ok(Some(file_root_above(numbers, top.as_ref())))
    }

    /// The header of the file at this place.
    fn header(&self, place: usize) -> Header {
        let target = Target {
            split: &self.split,
            number: 0,
            indices: &self.indices,
            keys: &self.keys,
        };
        target.header(place)
    }

    /// Removes what was written.
    pub fn discard(self, rt: &HostRuntime) {
        self.rows.roots.remove(rt);
        remove_all(rt, &self.partials);
    }
}
