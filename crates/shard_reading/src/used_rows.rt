//! Which rows of the files are used, one by one. What is wrong with others is noted at their files.
//!
//! A row counts where it fits its fingerprints, or under a root where its path leads up to the root
//! of its block.

ghost use Rattle.std.specs.Prelude.{◌≡◌, ◌↔◌, IsTrue, IfOk, IfSome, IsSomeAnd};
ghost use Rattle.sha2.specs.Sha512.{sha512_256};
ghost use Rattle.shard_reading.specs.RootedRows.{IsRowUnder};
ghost use Rattle.shard_roots.specs.Joining.{IsShardUnder};

use crate::rooted::CommittedRows;
use hash_trees::Digest;
use shard_files::fault::Fault;
use shard_files::row_records::{Paths, RecordReader, Seen};
use shard_files::sources::ShardFile;
use shard_files::split::{Block, Split};
use shard_files::tree::majority_of;
use shard_roots::{Shard, is_shard_under, root_by_shard};
use std::alloc::{AllocError, Global};
use systematic_shards::Split as RowSplit;

/// What is wrong with the record of a block.
const OTHER_FINGERPRINT: &str = "it does not fit its fingerprint";

const NOT_UNDER_ROOT: &str = "it is not under the root";

/// What is wrong with a record that is used all the same; its fingerprint may be too.
const USED_PATH: &str = "its path does not fit the others";

/// What looks at the rows of a block one by one.
#[derive(Drop)]
pub struct UsedRows {
    pub records: RecordReader,
    paths: Paths,
    /// The root of the block, where paths decide.
    pub root: Option<Digest>,
    /// The rows of the block, where it was committed to and has that root.
    pub committed: Option<CommittedRows>,
    claims: Claims,
}

impl UsedRows {
    /// One whose room grows with the first record.
    pub fn new(alloc: Global, split: &Split, paths: Paths) -> UsedRows {
        UsedRows {
            records: RecordReader::new(alloc, split),
            paths,
            root: None,
            committed: None,
            claims: Claims::new(alloc),
        }
    }

    /// Whether paths decide which rows are used.
    pub fn is_under_root(&self) -> bool {
        matches!(self.paths, Paths::Deciding)
    }

    /// Begins a block with this root, where that is known.
    pub fn begin(&mut self, root: Option<Digest>) {
        self.root = if self.is_under_root() { root } else { None };
        self.committed = None;
        self.claims.clear();
    }

    /// The row of a block that the file at this place has, where it is used; what is wrong with it
    /// is noted. Where the root of the block is known, the row is under it.
    pub fn row(
        &mut self,
        rt: &HostRuntime,
        file: &mut ShardFile,
        place: usize,
        block: Block,
    ) -> Result<Option<Shard<'_>>, Fault>
        ensures { IfOk result (λ row. IfSome row (λ shard. IfSome self.old.root
            (λ top. IsRowUnder self.old.records.split.header block.bytes top shard))) }
    {
        let rows = self.records.split.rows_of(block.bytes)?;
        let row = match self.records.row(rt, file, block, self.paths)? {
            Seen::Row(row) => row,
            Seen::Unfit(why) => {
                file.add_lost_block(block.number, why);
                return Ok(None);
            }
            Seen::Nothing => return Ok(None),
        };
        let committed = self.committed.as_ref();
        let is_under = is_under(rt.alloc(), self.root, committed, rows, &row.shard)?;
        if !is_used(file, block.number, row.fits, is_under) {
            return Ok(None);
        }
        if matches!(self.paths, Paths::Compared) {
            self.claims.add(place, root_by_shard(rows, &row.shard))?;
        }
        Ok(Some(row.shard))
    }

    /// Compares the paths of the rows of the block that were used with its root, where that is
    /// known, and else with each other, and notes at each file where its path does not fit.
    pub fn note_paths(&mut self, files: &mut [ShardFile], block: Block, root: Option<Digest>) {
        self.claims.note_others(files, block.number, root);
        self.claims.clear();
    }

    /// Forgets to which roots rows of the block lead.
    pub fn forget_paths(&mut self) {
        self.claims.clear();
    }
}

/// Whether a row is under the root of its block, where that is known. One of the rows of a
/// commitment to the block is, and any other is hashed.
fn is_under(
    alloc: Global,
    root: Option<Digest>,
    committed: Option<&CommittedRows>,
    split: RowSplit,
    row: &Shard<'_>,
) -> Result<Option<bool>, AllocError>
    ensures { IfOk result (λ answer. IfSome root (λ top. IsSomeAnd answer
        (λ under. IsTrue under ↔ IsShardUnder sha512_256 split top row.now))) }
{
    let Some(top) = root else {
        return Ok(None);
    };
    if let Some(committed) = committed {
        if committed.is_of(&top, split) && committed.contains(alloc, row)? {
            return Ok(Some(true));
        }
    }
    Ok(Some(is_shard_under(&top, split, row)))
}

/// Whether a row is used: where it is under the root of its block, or not, where paths decide; else
/// where it fits its fingerprints. What is wrong with it is noted at its file.
fn is_used(file: &mut ShardFile, number: u64, fits: bool, is_under: Option<bool>) -> bool
    ensures { IfSome is_under (λ under. result ≡ under) }
{
    match is_under {
        Some(true) if !fits => file.add_flawed_block(number, OTHER_FINGERPRINT),
        Some(false) => file.add_lost_block(number, NOT_UNDER_ROOT),
        None if !fits => file.add_lost_block(number, OTHER_FINGERPRINT),
        _ => {}
    }
    is_under.unwrap_or(fits)
}

/// To which root each row of a block that is used leads by its path, and at which file it is.
#[derive(Drop)]
struct Claims {
    places: Vec<usize>,
    roots: Vec<Digest>,
}

impl Claims {
    /// None yet.
    fn new(alloc: Global) -> Claims {
        Claims {
            places: Vec::new(alloc),
            roots: Vec::new(alloc),
        }
    }

    /// The row at this place leads to this root, or to none.
    fn add(&mut self, place: usize, root: Option<Digest>) -> Result<(), AllocError> {
        self.places.push(place)?;
        self.roots.push(root.unwrap_or([0; 32]))?;
        Ok(())
    }

    /// Notes at each file whose row leads to another root than this one, or if none is known, than
    /// more than half of the others.
    fn note_others(&self, files: &mut [ShardFile], number: u64, root: Option<Digest>) {
        let root = root.or(majority_of(&self.roots));
        for (place, claim) in self.places.iter().zip(&self.roots) {
            if root != Some(*claim) {
                if let Some(file) = files.get_mut(*place) {
                    file.add_flawed_block(number, USED_PATH);
                }
            }
        }
    }

    /// Forgets all of them.
    fn clear(&mut self) {
        self.places.clear();
        self.roots.clear();
    }
}
