//! Blocks of the file from rows, which version 3 has: the data as they are, and parity.

ghost use Rattle.std.specs.Prelude.{◌≡◌, length, IfOk, IfSome};

use crate::blocks::{FoundBlock, Look};
use crate::joining::{FoundRow, Masks, block_corrected, block_given};
use crate::rooted::{Joined, block_committed, join_rows};
use crate::used_rows::UsedRows;
use hash_trees::Digest;
use shard_blocks::Error;
use shard_files::fault::Fault;
use shard_files::row_records::{Paths, Seen};
use shard_files::sources::ShardFile;
use shard_files::split::{Block, Split};
use shard_files::tree::BlockTree;
use shard_format::indices::count_distinct;
use shard_roots::is_shard_under;
use std::alloc::Global;

/// What is wrong with the record of a block.
const OTHER_ROW: &str = "it does not fit the others";

const LOST_TREE: &str = "the tree above its block is lost";

/// What reads blocks of rows, one after the other.
#[derive(Drop)]
pub struct RowReader {
    split: Split,
    tree: Option<BlockTree>,
    used: UsedRows,
    /// The rows of the last block that were found, by rising index, each index once.
    found: Vec<FoundRow>,
    /// How many of the files were looked at for them.
    looked_at: usize,
}

impl RowReader {
    /// One whose room grows with the first record. Where a tree is handed in whose root is asked
    /// for, paths decide which rows are used; else they may be compared with each other.
    pub fn new(
        alloc: Global,
        split: &Split,
        tree: Option<BlockTree>,
        compares_paths: bool,
    ) -> RowReader {
        let paths = if matches!(&tree, Some(tree) if tree.is_asked) {
            Paths::Deciding
        } else if compares_paths && split.header.format.has_paths() {
            Paths::Compared
        } else {
            Paths::Unread
        };
        RowReader {
            split: *split,
            tree,
            used: UsedRows::new(alloc, split, paths),
            found: Vec::new(alloc),
            looked_at: 0,
        }
    }

    /// Begins the next block, and gives its root, where a tree gives it. It refuses where paths
    /// decide, and the root is lost.
    fn begin(
        &mut self,
        rt: &HostRuntime,
        files: &mut [ShardFile],
        block: Block,
    ) -> Result<Option<Digest>, Fault> {
        let root = match &mut self.tree {
            Some(tree) => tree.next_root(rt, &self.split, files, block.number)?,
            None => None,
        };
        self.used.begin(root);
        self.start_over();
        if self.used.is_under_root() && root.is_none() {
            return Err(lost_with_tree(files, block));
        }
        Ok(root)
    }

    /// Forgets the rows that were found.
    fn start_over(&mut self) {
        self.found.clear();
        self.looked_at = 0;
    }

    /// The next block, as `BlockReader::block` gives it.
    pub fn block(
        &mut self,
        rt: &HostRuntime,
        files: &mut [ShardFile],
        block: Block,
        look: Look,
    ) -> Result<FoundBlock, Fault>
        ensures { IfOk result (λ found. length found.bytes.items ≡ block.bytes) }
    {
        let root = self.begin(rt, files, block)?;
        if let Some(root) = self.used.root {
            return self.block_under(rt, files, block, look, root);
        }
        let found = self.block_that_fits(rt, files, block, look);
        if self.tree.is_some() {
            self.note_paths(files, block, root);
        }
        found
    }

    /// Looks at all shards of the next block, as `BlockReader::check` does.
    pub fn check(
        &mut self,
        rt: &HostRuntime,
        files: &mut [ShardFile],
        block: Block,
    ) -> Result<(), Fault> {
        let root = self.begin(rt, files, block)?;
        let (count, have_one_mask) = self.count_rows(rt, files, block)?;
        self.note_paths(files, block, root);
        if count < self.split.header.min as usize {
            return Err(Fault::Block(block.number, Error::TooFew));
        }
        if have_one_mask {
            return Ok(());
        }
        if self.used.is_under_root() {
            return Err(Fault::Block(block.number, Error::Inconsistent));
        }
        self.find(rt, files, block, usize::MAX)?;
        self.used.forget_paths();
        self.correct_block(rt.alloc(), files, block)?;
        Ok(())
    }

    /// How many rows of a block are used, each index counted once, and whether all have one mask.
    fn count_rows(
        &mut self,
        rt: &HostRuntime,
        files: &mut [ShardFile],
        block: Block,
    ) -> Result<(usize, bool), Fault> {
        let mut indices = Vec::new(rt.alloc());
        let mut masks = Masks::new();
        for (place, file) in files.iter_mut().enumerate() {
            if let Some(row) = self.used.row(rt, file, place, block)? {
                indices.push(row.index)?;
                masks.add(row.mask);
            }
        }
        let count = count_distinct(rt.alloc(), self.split.header.total, &indices)?;
        Ok((count, masks.are_one))
    }

    /// The bytes of the record of a block that the file has, and of its path, as they stand there,
    /// where it fits, and its path too where the block has a root.
    pub fn record(
        &mut self,
        rt: &HostRuntime,
        file: &ShardFile,
        block: Block,
        root: Option<&Digest>,
    ) -> Result<Option<&[u8]>, Fault> {
        let rows = self.split.rows_of(block.bytes)?;
        let paths = if self.split.header.format.has_paths() {
            Paths::Deciding
        } else {
            Paths::Unread
        };
        let is_sound = match self.used.records.row(rt, file, block, paths)? {
            Seen::Row(row) => {
                let is_under = match root {
                    Some(root) => is_shard_under(root, rows, &row.shard),
                    None => true,
                };
                row.fits && is_under
            }
            _ => false,
        };
        Ok(is_sound.then_some(self.used.records.bytes.as_slice()))
    }

    /// The first bytes of the data row of this index that fits of the last block, where the block
    /// was refused since there are too few.
    pub fn row_left(&self, index: u32, count: usize) -> Option<&[u8]>
        ensures { IfSome result (λ bytes. length bytes.now ≡ count) }
    {
        for row in &self.found {
            if row.index == index && index < self.split.header.min {
                let (bytes, _) = row.cells.split_at_checked(count)?;
                return Some(bytes);
            }
        }
        None
    }

    /// Compares the paths of the rows of the last block that were used with its root, where that is
    /// known, and else with each other, and notes at each file where its path does not fit.
    pub fn note_paths(&mut self, files: &mut [ShardFile], block: Block, root: Option<Digest>) {
        self.used.note_paths(files, block, root);
    }

    /// Looks for rows of a block in the files that were not looked at yet, until as many are found
    /// as are wanted. What is wrong with others is noted.
    fn find(
        &mut self,
        rt: &HostRuntime,
        files: &mut [ShardFile],
        block: Block,
        wanted: usize,
    ) -> Result<(), Fault> {
        for (place, file) in files.iter_mut().enumerate().skip(self.looked_at) {
            if self.found.len() >= wanted {
                return Ok(());
            }
            self.looked_at = place.saturating_add(1);
            if let Some(row) = self.used.row(rt, file, place, block)? {
                if !is_there(&self.found, row.index) {
                    self.found.push(FoundRow::new(rt.alloc(), &row, place)?)?;
                }
            }
        }
        Ok(())
    }

    /// Looks at the rows of the files that were not looked at yet, and notes what is wrong with
    /// them, also where they have another mask than this one.
    fn look_at_others(
        &mut self,
        rt: &HostRuntime,
        files: &mut [ShardFile],
        block: Block,
        mask: Option<u32>,
    ) -> Result<(), Fault> {
        for (place, file) in files.iter_mut().enumerate().skip(self.looked_at) {
            if let Some(row) = self.used.row(rt, file, place, block)? {
                if matches!(mask, Some(mask) if row.mask != mask) {
                    file.add_lost_block(block.number, OTHER_ROW);
                }
            }
        }
        Ok(())
    }

    /// The block that rows give which fit their fingerprints.
    fn block_that_fits(
        &mut self,
        rt: &HostRuntime,
        files: &mut [ShardFile],
        block: Block,
        look: Look,
    ) -> Result<FoundBlock, Fault>
        ensures { IfOk result (λ found. length found.bytes.items ≡ block.bytes) }
    {
        let rows = self.split.rows_of(block.bytes)?;
        if look != Look::Compared {
            self.find(rt, files, block, self.split.header.min as usize)?;
            if let Some(found) = block_given(rt.alloc(), rows, &self.found)? {
                if look == Look::Each {
                    self.look_at_others(rt, files, block, Some(found.mask))?;
                }
                return Ok(found);
            }
        }
        self.find(rt, files, block, usize::MAX)?;
        self.correct_block(rt.alloc(), files, block)
    }

    /// The block that all rows but a few give. Those few are noted at their files.
    fn correct_block(
        &mut self,
        alloc: Global,
        files: &mut [ShardFile],
        block: Block,
    ) -> Result<FoundBlock, Fault>
        ensures { IfOk result (λ found. length found.bytes.items ≡ block.bytes) }
    {
        let rows = self.split.rows_of(block.bytes)?;
        if self.found.len() < rows.min as usize {
            return Err(Fault::Block(block.number, Error::TooFew));
        }
        let Some(corrected) = block_corrected(alloc, rows, &self.found)? else {
            self.found.clear();
            return Err(Fault::Block(block.number, Error::Inconsistent));
        };
        for position in &corrected.left_out {
            if let Some(row) = self.found.get(*position) {
                if let Some(file) = files.get_mut(row.place) {
                    file.add_lost_block(block.number, OTHER_ROW);
                }
            }
        }
        Ok(corrected.block)
    }

    /// The block that is under this root, from rows that are. Where all are compared, it is
    /// committed to again.
    ///
    /// The first rows are joined as they are, which finds out whether they are under the root. Only
    /// where one is not, each row is looked at by itself.
    fn block_under(
        &mut self,
        rt: &HostRuntime,
        files: &mut [ShardFile],
        block: Block,
        look: Look,
        root: Digest,
    ) -> Result<FoundBlock, Fault>
        ensures { IfOk result (λ found. length found.bytes.items ≡ block.bytes) }
    {
        let mut joined = self.join_first(rt, files, block, look, &root)?;
        if matches!(joined, Joined::Others) {
            joined = self.join_found(rt, files, block, look, &root)?;
        }
        if look != Look::First {
            self.look_at_others(rt, files, block, None)?;
        }
        let error = match joined {
            Joined::Block(found) if found.bytes.len() == block.bytes as usize => return Ok(found),
            Joined::OtherRoot => Fault::BlockRoot(block.number),
            _ => Fault::Block(block.number, Error::Inconsistent),
        };
        self.found.clear();
        Err(error)
    }

    /// What the rows of the first files give under this root, where nothing is wrong with them at
    /// first sight.
    fn join_first(
        &mut self,
        rt: &HostRuntime,
        files: &[ShardFile],
        block: Block,
        look: Look,
        root: &Digest,
    ) -> Result<Joined, Fault> {
        let rows = self.split.rows_of(block.bytes)?;
        self.take_first(rt, files, block)?;
        if self.found.len() != rows.min as usize {
            return Ok(Joined::Others);
        }
        if look != Look::Compared {
            return Ok(join_rows(rt.alloc(), false, root, rows, &self.found)?);
        }
        let Some(committed) = block_committed(rt.alloc(), root, rows, &self.found)? else {
            return Ok(Joined::Others);
        };
        self.used.committed = Some(committed.rows);
        Ok(Joined::Block(committed.block))
    }

    /// Takes the rows of the first files, as many as give a block, as long as nothing is wrong with
    /// them at first sight.
    fn take_first(
        &mut self,
        rt: &HostRuntime,
        files: &[ShardFile],
        block: Block,
    ) -> Result<(), Fault> {
        let min = self.split.header.min as usize;
        for (place, file) in files.iter().enumerate() {
            if self.found.len() >= min {
                return Ok(());
            }
            self.looked_at = place.saturating_add(1);
            match self.used.records.row(rt, file, block, Paths::Deciding)? {
                Seen::Nothing => {}
                Seen::Row(row) if row.fits && !is_there(&self.found, row.shard.index) => {
                    self.found
                        .push(FoundRow::new(rt.alloc(), &row.shard, place)?)?;
                }
                _ => return Ok(()),
            }
        }
        Ok(())
    }

    /// What the first rows give that are under this root.
    fn join_found(
        &mut self,
        rt: &HostRuntime,
        files: &mut [ShardFile],
        block: Block,
        look: Look,
        root: &Digest,
    ) -> Result<Joined, Fault> {
        let rows = self.split.rows_of(block.bytes)?;
        let min = self.split.header.min as usize;
        self.start_over();
        self.find(rt, files, block, min)?;
        if self.found.len() < min {
            return Err(Fault::Block(block.number, Error::TooFew));
        }
        let is_strict = look == Look::Compared;
        Ok(join_rows(rt.alloc(), is_strict, root, rows, &self.found)?)
    }
}

/// The fault of a block whose root is lost with the tree above it, which is noted at each file.
fn lost_with_tree(files: &mut [ShardFile], block: Block) -> Fault {
    for file in files.iter_mut() {
        if file.is_used() {
            file.add_lost_block(block.number, LOST_TREE);
        }
    }
    Fault::Block(block.number, Error::TooFew)
}

/// Whether the last of the rows has this index.
fn is_there(found: &[FoundRow], index: u32) -> bool {
    matches!(found.last(), Some(row) if row.index == index)
}
