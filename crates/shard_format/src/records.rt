//! The blocks of a file and the records of a shard file: how many there are, how large each is and
//! where it begins, and whether a record is the one that has to stand there.
//!
//! A record is the shard of a block and its two fingerprints. Callers hand in how many words the
//! shard of a block has: in version 2 its cells, which `shard_blocks` counts, and in version 3 the
//! words of a row, which `systematic_shards` counts. What stands in a record of version 3 is said in
//! `rows`. In files with paths the path of each record follows it, and the pairs of children of the
//! nodes of a tree over the blocks stand behind the last.

ghost use Rattle.std.specs.Prelude.{◌≡◌, ◌≢◌, ◌↔◌, ◌<◌, ◌≤◌, ◌^◌, ◌+◌, ◌*◌, ◌++◌, List, length, map, take, OnOk, IsTrue, IsFalse, IfOk, IfSome, IsNone};
ghost use Rattle.math_fields.specs.declared.goldilocks.F.{F};
ghost use Rattle.shard_format.specs.Records.{AreCellsThatFit, HaveFingerprints, IsRecordOf, IsShardOfHeader, block_count, block_size, capped, element_spelling, elements_spelling, file_size, numbers_spelling, record_place, record_size, record_spelling};
ghost use Rattle.shard_format.specs.Records.{pairs_size, path_size, records_end};

use crate::header::{Header, write_pair};
use hash_trees::path_steps;
use math_base::algebra::Mem;
use math_codec::codec::{len_size, write_len};
use math_fields::goldilocks::{F, MODULUS};
use math_splitting::shards::Room;
use shard_fingerprints::{Fingerprints, cells_fingerprints};
use std::alloc::{AllocError, Global};

/// The number of bytes of the fingerprints of a record: two words.
pub const FINGERPRINTS_SIZE: usize = 16;

/// The number of bytes of a digest of a path.
const DIGEST_SIZE: usize = 32;

/// The number of bytes of a pair of digests.
pub const PAIR_SIZE: u64 = 64;

/// Returns how many blocks the file has. A block has one byte or more.
pub fn block_count(header: &Header) -> u64
    requires { 1 ≤ header.now.block }
    ensures { result ≡ block_count header.now }
{
    header.length.div_ceil(u64::from(header.block))
}

/// Returns how many bytes the block with this number has: as many as the header says, but for the
/// last one, which has what is left. A block beyond it has none.
pub fn block_size(header: &Header, number: u64) -> u32
    ensures { result ≡ block_size header.now number }
{
    let before = number.saturating_mul(u64::from(header.block));
    let left = header.length.saturating_sub(before);
    left.min(u64::from(header.block)) as u32
}

/// Returns how many bytes the record of a block has whose shard has so many words, or 2^64 - 1 if
/// they are more. The words are cells in version 2.
pub fn record_size(header: &Header, words: usize) -> u64
    ensures { result ≡ capped (record_size header.now words) }
{
    let numbers = len_size(header.index as usize)
        + len_size(header.min as usize)
        + len_size(header.total as usize)
        + len_size(words);
    let others = numbers + header.format.mask_size() + FINGERPRINTS_SIZE;
    (words as u64)
        .saturating_mul(8)
        .saturating_add(others as u64)
}

/// Returns how many bytes the path behind a record has: none where records have no paths, or where
/// the index is that of no shard.
pub fn path_size(header: &Header) -> usize
    ensures { result ≡ path_size header.now }
{
    if !header.format.has_paths() || header.index >= header.total {
        return 0;
    }
    DIGEST_SIZE * path_steps(header.total as usize, header.index as usize)
}

/// Returns where the record of the block with this number begins in the shard file, or 2^64 - 1 if
/// that is beyond it. The shard of a whole block has `words` words.
pub fn record_place(header: &Header, words: usize, number: u64) -> u64
    ensures { result ≡ capped (record_place header.now words number) }
{
    let each = record_size(header, words).saturating_add(path_size(header) as u64);
    each.saturating_mul(number)
        .saturating_add(header.format.header_size() as u64)
}

/// Returns where the records and paths of all blocks end in the shard file, and the pairs begin if
/// there are some, or 2^64 - 1 if that is beyond it. The shard of a whole block has `words` words,
/// and that of the last block `last`. A block has one byte or more.
pub fn records_end(header: &Header, words: usize, last: usize) -> u64
    requires { 1 ≤ header.now.block }
    ensures { result ≡ capped (records_end header.now words last (block_count header.now)) }
{
    let count = block_count(header);
    if count == 0 {
        return header.format.header_size() as u64;
    }
    record_place(header, words, count - 1)
        .saturating_add(record_size(header, last))
        .saturating_add(path_size(header) as u64)
}

/// Returns how many bytes the pairs behind the records have, or 2^64 - 1 if they are more: 64 for
/// each block but one, and none where records have no paths. A block has one byte or more.
pub fn pairs_size(header: &Header) -> u64
    requires { 1 ≤ header.now.block }
    ensures { result ≡ capped (pairs_size header.now) }
{
    if !header.format.has_paths() {
        return 0;
    }
    block_count(header)
        .saturating_sub(1)
        .saturating_mul(PAIR_SIZE)
}

/// Returns how many bytes the shard file has, or 2^64 - 1 if they are more. The shard of a whole
/// block has `words` words, and that of the last block `last`. A block has one byte or more.
pub fn file_size(header: &Header, words: usize, last: usize) -> u64
    requires { 1 ≤ header.now.block }
    ensures { result ≡ capped (file_size header.now words last) }
{
    records_end(header, words, last).saturating_add(pairs_size(header))
}

/// Returns whether a shard with this index, `min` and `total` and so many cells is one of the file
/// with this header, where so many cells are wanted.
pub fn is_shard_of(
    header: &Header,
    index: u32,
    min: u32,
    total: u32,
    cells: usize,
    wanted: usize,
) -> bool
    ensures { IsTrue result ↔ IsShardOfHeader header.now index min total cells wanted }
{
    index == header.index && min == header.min && total == header.total && cells == wanted
}

/// Returns whether the fingerprints are those of the cells of the shard of this block in the file
/// with this header.
pub fn fits(header: &Header, block: u64, cells: &[F], stored: &Fingerprints) -> bool
    ensures { IsTrue result ↔ HaveFingerprints header.now block cells.now stored.now }
{
    stored.is_same(&cells_fingerprints(&header.keys, block, header.index, cells))
}

/// What the record of a block begins with whose shard has so many cells.
pub(crate) fn record_numbers(alloc: Global, header: &Header, cells: u32) -> Mem<Vec<u8>>
    ensures { IfOk result (λ bytes. bytes.items ≡ numbers_spelling header.now cells) }
{
    let mut bytes = Vec::new(alloc);
    write_len(alloc, header.index, &mut bytes)?;
    write_len(alloc, header.min, &mut bytes)?;
    write_len(alloc, header.total, &mut bytes)?;
    write_len(alloc, cells, &mut bytes)?;
    Ok(bytes)
}

/// The element that eight bytes are the word of, where there is one.
fn element_of(word: &[u8; 8]) -> Option<F>
    ensures some { IfSome result (λ a. word.now ≡ element_spelling a) }
    ensures none { IsNone result → (a : F) → word.now ≢ element_spelling a }
{
    let number = u64::from_be_bytes(*word);
    if number >= MODULUS {
        return None;
    }
    Some(F::from(number))
}

/// Writes the elements that the words are over as many others, and says whether all are such words.
fn write_elements(words: &[[u8; 8]], elements: &mut [F]) -> bool
    requires { length elements.old ≡ length words.now }
    ensures spelled { IsTrue result → map element_spelling elements.new ≡ words.now }
    ensures none { IsFalse result → (others : List F) → words.now ≢ map element_spelling others }
{
    for k in 0..words.len() {
        let Some(element) = element_of(&words[k]) else {
            return false;
        };
        elements[k] = element;
    }
    true
}

/// Whether the bytes are those of elements, a word each, which then are in `elements`.
fn read_elements(bytes: &[u8], elements: &mut Vec<F>) -> Mem<bool>
    ensures spelled { IfOk result
        (λ are. IsTrue are → bytes.now ≡ elements_spelling elements.new.items) }
    ensures none { IfOk result
        (λ are. IsFalse are → (others : List F) → bytes.now ≢ elements_spelling others) }
{
    let (words, rest) = bytes.as_chunks::<8>();
    if !rest.is_empty() {
        return Ok(false);
    }
    elements.resize(words.len(), F::from(0))?;
    Ok(write_elements(words, elements))
}

/// Whether the elements are so many cells, and then their two fingerprints as those of the shard of
/// this block in the file with this header.
fn are_cells_that_fit(header: &Header, block: u64, count: usize, elements: &[F]) -> bool
    ensures { IsTrue result ↔ AreCellsThatFit header.now block count elements.now }
{
    let Some((cells, stored)) = elements.split_at_checked(count) else {
        return false;
    };
    let [first, second] = stored else {
        return false;
    };
    let stored = Fingerprints {
        first: *first,
        second: *second,
    };
    fits(header, block, cells, &stored)
}

/// Returns whether the bytes are a record of version 2 of this block in the file with this header,
/// with so many cells, and fingerprints that are theirs.
///
/// `room` is for its elements: hand in the same for one record after the other.
pub fn is_record_of(
    alloc: Global,
    header: &Header,
    block: u64,
    count: u32,
    bytes: &[u8],
    room: &mut Vec<F>,
) -> Mem<bool>
    ensures { IfOk result (λ is. IsTrue is ↔ IsRecordOf header.now block count bytes.now) }
{
    let numbers = record_numbers(alloc, header, count)?;
    let Some(words) = bytes.strip_prefix(&numbers) else {
        return Ok(false);
    };
    if !read_elements(words, room)? {
        return Ok(false);
    }
    Ok(are_cells_that_fit(header, block, count as usize, room))
}

/// Writes the bytes of the cells over those from place `from` on, which are as many: a word each, the
/// highest byte first.
fn write_cells(bytes: &mut [u8], from: usize, cells: &[F])
    requires { length bytes.old ≡ from + 8 * length cells.now }
    ensures { bytes.new ≡ take from bytes.old ++ elements_spelling cells.now }
{
    u8::write(&mut bytes[from..], 0, cells);
}

/// Adds the bytes of the cells.
fn append_cells(cells: &[F], out: &mut Vec<u8>) -> Mem<()>
    requires few { length cells.now < 2 ^ 32 }
    ensures { OnOk result (out.new.items ≡ out.old.items ++ elements_spelling cells.now) }
{
    let from = out.len();
    let Some(size) = from.checked_add(8 * cells.len()) else {
        return Err(AllocError);
    };
    out.resize(size, 0)?;
    write_cells(out, from, cells);
    Ok(())
}

/// Writes the record of version 2 of this block in the file with this header that has these cells,
/// in place of what `out` had: the bytes of the cells, a word each, and before and behind them what
/// `is_record_of` asks for. There are fewer than 2^32 cells.
pub fn write_record(
    alloc: Global,
    header: &Header,
    block: u64,
    cells: &[F],
    out: &mut Vec<u8>,
) -> Mem<()>
    requires few { length cells.now < 2 ^ 32 }
    ensures exact { OnOk result (out.new.items ≡ record_spelling header.now block cells.now) }
    ensures read { OnOk result
        (IsRecordOf header.now block (length cells.now) out.new.items) }
{
    let stored = cells_fingerprints(&header.keys, block, header.index, cells);
    let numbers = record_numbers(alloc, header, cells.len() as u32)?;
    out.clear();
    out.extend_from_slice(&numbers)?;
    append_cells(cells, out)?;
    write_pair(alloc, stored.first, stored.second, out)?;
    Ok(())
}
