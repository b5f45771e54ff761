//! What is known of a split, and the sizes of its blocks, its shards and its files.
//!
//! `Split` is a header with three of the facts of `IsPossible`: its callers need these, and a new
//! split needs no proof of the others. `gather` says all of them.

ghost use Rattle.std.specs.Prelude.{◌≡◌, ◌≢◌, ◌<◌, ◌≤◌, ℕ, List, length, IfOk, IfSome};
ghost use Rattle.math_fields.specs.Elements.{number};
ghost use Rattle.math_splitting.specs.Shards.{width_for};
ghost use Rattle.shard_blocks.specs.BlockWords.{words_of_bytes};
ghost use Rattle.shard_format.specs.Splits.{IsPossible};

use crate::fault::Fault;
use math_fields::goldilocks::{F, MODULUS};
use shard_blocks::cells_for;
use shard_fingerprints::Keys;
use shard_format::formats::Format;
use shard_format::header::Header;
use shard_format::records::{block_count, block_size, file_size, record_size, records_end};
use std::random::RandomSource;
use systematic_shards::Split as RowSplit;

/// How many bytes a block has at least, where it may have so many: then all that is done with it
/// stays in the processor's cache.
const SMALL_BLOCK: u64 = 1 << 18;

/// How many bytes of a block each shard has at least, where it may have so many.
const PIECE: u64 = 1 << 13;

/// A block of the file.
#[derive(Clone, Copy)]
pub struct Block {
    /// Its number, from 0 on.
    pub number: u64,
    /// How many bytes it has.
    pub bytes: u32,
}

/// A split, as the header of any of its shard files says.
#[derive(Clone, Copy)]
pub struct Split {
    pub header: Header,
    pub ghost some: { 1 ≤ header.min },
    pub ghost within: { header.min ≤ header.total },
    pub ghost block: { 1 ≤ header.block },
}

impl Split {
    /// The split that the header is of.
    pub fn new(header: &Header) -> Split
        requires { IsPossible header.now }
        ensures { result.header ≡ header.now }
    {
        Split { header: *header }
    }

    /// The split that the header is of, where a split can have it.
    pub fn possible(header: &Header) -> Option<Split>
        ensures same { IfSome result (λ split. split.header ≡ header.now) }
        ensures possible { IfSome result (λ split. IsPossible split.header) }
    {
        if header.is_possible() {
            return Some(Split::new(header));
        }
        None
    }

    /// A new split of so many bytes in rows, with keys that the system draws.
    pub fn draw(
        rt: &HostRuntime,
        min: u32,
        total: u32,
        length: u64,
        has_paths: bool,
    ) -> Result<Split, Fault>
        requires some { 1 ≤ min }
        requires within { min ≤ total }
        ensures { IfOk result (λ split. split.header.length ≡ length) }
    {
        let format = if has_paths {
            Format::RowsWithPaths
        } else {
            Format::Rows
        };
        let header = Header {
            format,
            index: 0,
            min,
            total,
            block: block_for(min, total),
            length,
            keys: random_keys(rt)?,
        };
        Ok(Split { header })
    }

    /// The header of its shard file with this index.
    pub fn header_of(&self, index: u32) -> Header
        ensures { result.block ≡ self.now.header.block }
    {
        Header {
            index,
            ..self.header
        }
    }

    /// How many cells each shard of a block of so many bytes has. It refuses where these are 2^32
    /// or more.
    pub fn cells_of(&self, bytes: usize) -> Result<u32, Fault>
        ensures { IfOk result (λ cells. (block : List ℕ) → length block ≡ bytes
            → cells ≡ width_for self.now.header.min (words_of_bytes block)) }
    {
        let cells = cells_for(bytes, self.header.min);
        if cells > u32::MAX as usize {
            return Err(Fault::Cells);
        }
        Ok(cells as u32)
    }

    /// The block with this number, where so many bytes of the file are left.
    pub fn block_of(&self, number: u64, left: u64) -> Block
        requires { 0 < left }
        ensures some { 0 < result.bytes }
        ensures within { result.bytes ≤ left }
    {
        Block {
            number,
            bytes: left.min(u64::from(self.header.block)) as u32,
        }
    }

    /// The first block.
    pub fn first_block(&self) -> Block {
        Block {
            number: 0,
            bytes: block_size(&self.header, 0),
        }
    }

    /// How a block of so many bytes is cut into rows. It refuses where it has too many words.
    pub fn rows_of(&self, bytes: u32) -> Result<RowSplit, Fault>
        ensures { IfOk result (λ rows. (rows.size ≡ bytes)
            × (rows.min ≡ self.now.header.min) × (rows.total ≡ self.now.header.total)) }
    {
        match RowSplit::new(self.header.min, self.header.total, bytes as usize) {
            Ok(rows) => Ok(rows),
            Err(_) => Err(Fault::Cells),
        }
    }

    /// How many words each shard of a block of so many bytes has: its cells, or those of a row.
    fn count_words(&self, bytes: u32) -> usize {
        if self.header.format.has_cells() {
            return cells_for(bytes as usize, self.header.min);
        }
        u64::from(bytes).div_ceil(8 * u64::from(self.header.min)) as usize
    }

    /// How many words each shard of a block of so many bytes has. It refuses where these are 2^32
    /// or more.
    pub fn words_of(&self, bytes: u32) -> Result<u32, Fault> {
        match u32::try_from(self.count_words(bytes)) {
            Ok(words) => Ok(words),
            Err(_) => Err(Fault::Cells),
        }
    }

    /// How many bytes the record of a block of so many bytes has, without its path.
    pub fn record_bytes(&self, bytes: u32) -> u64 {
        record_size(&self.header, self.count_words(bytes))
    }

    /// How many words each shard of a whole block has, and each of the last one.
    fn word_counts(&self) -> (usize, usize) {
        let count = block_count(&self.header);
        let last = block_size(&self.header, count.saturating_sub(1));
        (self.count_words(self.header.block), self.count_words(last))
    }

    /// Where the records of the shard file with this index end.
    pub fn records_end(&self, index: u32) -> u64 {
        let (words, last) = self.word_counts();
        records_end(&self.header_of(index), words, last)
    }

    /// The number of bytes of the shard file with this header.
    pub fn size_of_file(&self) -> u64 {
        let (words, last) = self.word_counts();
        file_size(&self.header, words, last)
    }
}

/// How many bytes each block but the last has.
fn block_for(min: u32, total: u32) -> u32
    requires { 1 ≤ total }
    ensures { 1 ≤ result }
{
    let wanted = (PIECE * u64::from(min)).max(SMALL_BLOCK);
    let most = Header::largest_block(min, total);
    wanted.min(u64::from(most)).max(1) as u32
}

/// Two keys, of which neither is zero, drawn by the system, each uniformly and by itself.
fn random_keys(rt: &HostRuntime) -> Result<Keys, Fault>
    ensures first { IfOk result (λ keys. number keys.first ≢ 0) }
    ensures second { IfOk result (λ keys. number keys.second ≢ 0) }
{
    Ok(Keys {
        first: random_key(rt)?,
        second: random_key(rt)?,
    })
}

/// The first of some random words of the system that is an element other than zero.
fn random_key(rt: &HostRuntime) -> Result<F, Fault>
    ensures { IfOk result (λ key. number key ≢ 0) }
{
    for _tried in 0..64u32 {
        let mut bytes = [0u8; 8];
        rt.fill_bytes(&mut bytes)?;
        let word = u64::from_le_bytes(bytes);
        if word != 0 && word < MODULUS {
            return Ok(F::from(word));
        }
    }
    Err(Fault::Random)
}
