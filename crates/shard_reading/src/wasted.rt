//! Blocks of which no record fits, and what was read for them.
//!
//! Files that claim to be large, and are not, do not keep a run busy: where too much is read for
//! nothing, no more blocks are looked at.

use shard_files::sources::ShardFile;
use shard_files::split::{Block, Split};

/// How many bytes of records are read for nothing before no more blocks are looked at.
const MOST: u64 = 1 << 30;

/// How many bytes a record counts for at least.
const LEAST_RECORD: u64 = 1 << 14;

/// The blocks of which no record fits.
#[derive(Drop)]
pub struct WastedReads {
    /// How many there are.
    pub blocks: u64,
    /// How many bytes were read for them.
    bytes: u64,
    /// In how many blocks shards are not used, those of all files added up.
    lost: u64,
}

impl WastedReads {
    /// None, where nothing was read of the files yet.
    pub fn new(files: &[ShardFile]) -> WastedReads {
        WastedReads {
            blocks: 0,
            bytes: 0,
            lost: count_lost(files),
        }
    }

    /// Notes what was read for a block, where it is refused and no record of it fits.
    pub fn add_block(
        &mut self,
        split: &Split,
        files: &[ShardFile],
        block: Block,
        is_refused: bool,
    ) {
        let used = count_used(files);
        let lost = count_lost(files);
        if is_refused && lost.saturating_sub(self.lost) == used {
            let read = used.saturating_mul(split.record_bytes(block.bytes).max(LEAST_RECORD));
            self.blocks = self.blocks.saturating_add(1);
            self.bytes = self.bytes.saturating_add(read);
        }
        self.lost = lost;
    }

    /// Whether so much was read for nothing that no more blocks are looked at.
    pub fn is_too_much(&self) -> bool {
        self.bytes >= MOST
    }
}

/// How many of the files are of the split.
fn count_used(files: &[ShardFile]) -> u64 {
    let mut used = 0u64;
    for file in files {
        if file.is_used() {
            used = used.saturating_add(1);
        }
    }
    used
}

/// In how many blocks shards are not used, those of all files added up.
fn count_lost(files: &[ShardFile]) -> u64 {
    let mut lost = 0u64;
    for file in files {
        lost = lost.saturating_add(file.lost);
    }
    lost
}
