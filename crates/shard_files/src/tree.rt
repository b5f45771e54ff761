//! The tree over the blocks of files with paths: what they claim of it, and the way down by the
//! pairs behind their records.

ghost use Rattle.std.specs.Prelude.{◌≡◌};
ghost use Rattle.shard_files.specs.Roots.{numbers_of, root_of};

use crate::fault::Fault;
use crate::row_records::{Paths, RecordReader, Seen};
use crate::sources::ShardFile;
use crate::split::{Block, Split};
use hash_trees::{Descent, Digest, FileNumbers, file_root_above, node_digest};
use shard_format::header::Header;
use shard_format::records::{PAIR_SIZE, block_count};
use shard_roots::root_by_shard;
use std::alloc::Global;

/// What is wrong with a file whose pairs are others.
pub const OTHER_PAIRS: &str = "its tree of blocks is damaged";

/// The numbers of the file that a header says.
pub fn numbers_of(header: &Header) -> FileNumbers
    ensures { result ≡ numbers_of header.now }
{
    FileNumbers {
        min: u64::from(header.min),
        total: u64::from(header.total),
        block_size: u64::from(header.block),
        size: header.length,
    }
}

/// What a shard file with paths claims: the split, the root of the file, and where there are blocks
/// the top of the tree over them.
#[derive(Clone, Copy)]
pub struct Claim {
    pub split: Split,
    pub root: Digest,
    pub top: Option<Digest>,
    pub ghost made: { root ≡ root_of split.header top },
}

/// What the shard file claims; nothing where it has no paths, or is cut off or damaged there.
pub fn claim_of(rt: &HostRuntime, file: &ShardFile) -> Result<Option<Claim>, Fault> {
    let Some(header) = file.header() else {
        return Ok(None);
    };
    let Some(split) = Split::possible(&header) else {
        return Ok(None);
    };
    if !header.format.has_paths() {
        return Ok(None);
    }
    let top = match block_count(&header) {
        0 => None,
        1 => top_of_record(rt, &split, file)?,
        _ => top_of_pair(rt, &split, file)?,
    };
    if top.is_none() && header.length > 0 {
        return Ok(None);
    }
    let root = file_root_above(numbers_of(&split.header), top.as_ref());
    Ok(Some(Claim { split, root, top }))
}

/// The root of the only block that the record of the file leads up to by its path.
fn top_of_record(
    rt: &HostRuntime,
    split: &Split,
    file: &ShardFile,
) -> Result<Option<Digest>, Fault> {
    let block = split.first_block();
    let rows = split.rows_of(block.bytes)?;
    match RecordReader::new(rt.alloc(), split).row(rt, file, block, Paths::Deciding)? {
        Seen::Row(row) => Ok(root_by_shard(rows, &row.shard)),
        _ => Ok(None),
    }
}

/// The digest above the first pair of the file.
fn top_of_pair(rt: &HostRuntime, split: &Split, file: &ShardFile) -> Result<Option<Digest>, Fault> {
    let mut pair = [[0u8; 32]; 2];
    if !read_pair(rt, split, file, 0, &mut pair)? {
        return Ok(None);
    }
    Ok(Some(node_digest(&pair[0], &pair[1])))
}

/// Reads the pair at this place of the file, and says whether it is there and could be read.
pub fn read_pair(
    rt: &HostRuntime,
    split: &Split,
    file: &ShardFile,
    place: u64,
    pair: &mut [Digest; 2],
) -> Result<bool, Fault> {
    let Some(header) = file.header() else {
        return Ok(false);
    };
    let mut bytes = [0u8; PAIR_SIZE as usize];
    let at = split
        .records_end(header.index)
        .saturating_add(place.saturating_mul(PAIR_SIZE));
    if !file.read(rt, at, &mut bytes)? {
        return Ok(false);
    }
    let (digests, _) = bytes.as_chunks::<32>();
    if let [left, right] = digests {
        *pair = [*left, *right];
    }
    Ok(true)
}

/// The digest that more than half of these are, if there is one.
///
/// This is the vote of Boyer and Moore: a digest like the one in hand adds a vote for it, and
/// another takes one away, so that only one of more than half can keep votes to the end.
pub fn majority_of(digests: &[Digest]) -> Option<Digest> {
    let mut held = [0u8; 32];
    let mut votes = 0usize;
    for digest in digests {
        if votes == 0 {
            held = *digest;
        }
        if *digest == held {
            votes = votes.saturating_add(1);
        } else {
            votes = votes.saturating_sub(1);
        }
    }
    let mut count = 0usize;
    for digest in digests {
        if *digest == held {
            count = count.saturating_add(1);
        }
    }
    if count > digests.len() / 2 {
        Some(held)
    } else {
        None
    }
}

/// The way down the tree over the blocks of a file, from its top to the root of each block in turn.
#[derive(Drop)]
pub struct BlockTree {
    descent: Descent,
    /// The number of the first block whose root is not lost with a pair above it.
    lost_to: u64,
    /// Whether the root was asked for: then paths decide which records are used.
    pub is_asked: bool,
    /// Whether the pairs of all files are compared.
    compares_all: bool,
}

impl BlockTree {
    /// The tree over the blocks of the split, with this top. There is none where there is no block.
    pub fn new(
        alloc: Global,
        split: &Split,
        top: Option<Digest>,
        is_asked: bool,
        compares_all: bool,
    ) -> Result<Option<BlockTree>, Fault> {
        let Some(top) = top else {
            return Ok(None);
        };
        let count = block_count(&split.header) as usize;
        if count == 0 {
            return Ok(None);
        }
        Ok(Some(BlockTree {
            descent: Descent::new(alloc, top, count)?,
            lost_to: 0,
            is_asked,
            compares_all,
        }))
    }

    /// The root of the next block, which has this number; none where a pair on the way is lost in
    /// all files. Files whose pairs are others are noted.
    pub fn next_root(
        &mut self,
        rt: &HostRuntime,
        split: &Split,
        files: &mut [ShardFile],
        number: u64,
    ) -> Result<Option<Digest>, Fault> {
        for _level in 0..=u64::BITS {
            if number < self.lost_to {
                return Ok(None);
            }
            let Some(node) = self.descent.next() else {
                return Ok(None);
            };
            if node.level == 0 {
                self.descent.pass();
                return Ok(Some(node.digest));
            }
            if !self.enter(rt, split, files)? {
                self.lost_to = number.saturating_add(self.descent.leaves() as u64);
                self.descent.pass();
            }
        }
        Ok(None)
    }

    /// Goes down by the next pair, as the first of the files has it that has the right one, and
    /// says whether one has.
    fn enter(
        &mut self,
        rt: &HostRuntime,
        split: &Split,
        files: &mut [ShardFile],
    ) -> Result<bool, Fault> {
        let place = self.descent.pair_place() as u64;
        let mut found: Option<[Digest; 2]> = None;
        for file in files.iter_mut() {
            if !file.is_used() {
                continue;
            }
            let mut pair = [[0u8; 32]; 2];
            let is_there = read_pair(rt, split, file, place, &mut pair)?;
            let fits = match &found {
                Some(right) => pair == *right,
                None => is_there && self.descent.enter(&pair[0], &pair[1])?,
            };
            if !fits || !is_there {
                file.note(OTHER_PAIRS);
            } else if !self.compares_all {
                return Ok(true);
            } else {
                found = Some(pair);
            }
        }
        Ok(found.is_some())
    }
}
