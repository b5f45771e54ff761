//! The records of version 3. Each has a row of its block: a data row as it is, or a parity row, with
//! the mask of the block.
//!
//! The words of a row are eight bytes each, the lowest first, as `systematic_shards` has them. All
//! else in a record is as in version 2.

ghost use Rattle.std.specs.Prelude.{◌≡◌, ◌≢◌, ◌↔◌, ◌*◌, ◌<◌, ◌^◌, ◌++◌, ℕ, List, length, map, slice_set};
ghost use Rattle.std.specs.Prelude.{IsTrue, IfOk, IfSome, IsNone, OnOk};
ghost use Rattle.std.specs.Int.{w64, to_be_bytes};
ghost use Rattle.std.specs.List.{range_with_len};
ghost use Rattle.math_fields.specs.declared.goldilocks.F.{F};
ghost use Rattle.math_fields.specs.Elements.{number, residue};
ghost use Rattle.shard_fingerprints.specs.Fingerprints.{fingerprint};
ghost use Rattle.systematic_shards.specs.Masks.{masked_number};
ghost use Rattle.systematic_shards.specs.Shards.{mask_of_row};
ghost use Rattle.systematic_shards.specs.Words.{word_of_bytes};
ghost use Rattle.shard_format.specs.Rows.{BeginsWith, HaveWords, IsRowOfHeader, IsRowRecordOf};
ghost use Rattle.shard_format.specs.Rows.{bound_of_row, row_elements, row_record_spelling};
ghost use Rattle.shard_format.specs.Rows.{row_spelling, row_words};

use crate::header::{Header, read_number, write_pair};
use crate::records::record_numbers;
use math_base::algebra::Mem;
use math_codec::codec::Write;
use math_fields::goldilocks::{F, MODULUS};
use shard_fingerprints::{Fingerprints, fingerprint};
use std::alloc::Global;
use systematic_shards::masked_word;

/// A row of a block, and the mask of the block.
#[derive(Clone, Copy)]
pub struct MaskedRow<'a> {
    /// The mask.
    pub mask: u32,
    /// How many words the row has.
    pub width: u32,
    /// The bytes of its words.
    pub bytes: &'a [u8],
    ghost size: { length bytes.now ≡ 8 * width },
    ghost short: { mask < 2 ^ 32 },
}

impl<'a> MaskedRow<'a> {
    /// Returns the row with these bytes, under this mask, or `None` where they are not whole words
    /// or those of 2^32 or more.
    pub fn new(mask: u32, bytes: &'a [u8]) -> Option<MaskedRow<'a>>
        ensures some { IfSome result (λ row. (row.mask ≡ mask) × (row.bytes.now ≡ bytes.now)) }
        ensures none { IsNone result → (width : ℕ) → width < 2 ^ 32 → length bytes.now ≢ 8 * width }
    {
        if bytes.len() % 8 != 0 {
            return None;
        }
        let width = bytes.len() / 8;
        if width > u32::MAX as usize {
            return None;
        }
        Some(MaskedRow {
            mask,
            width: width as u32,
            bytes,
        })
    }
}

/// What the high halves of the words of a row are xored with: the mask in a data row, and nothing
/// in a parity row.
fn mask_of_row(header: &Header, mask: u32) -> u32
    ensures { result ≡ mask_of_row header.now.min mask header.now.index }
{
    if header.index < header.min { mask } else { 0 }
}

/// Below what the words of a row are under the mask, where they are those of elements.
fn bound_of_row(header: &Header) -> u64
    ensures { result ≡ bound_of_row header.now.min header.now.index }
{
    if header.index < header.min {
        MODULUS - 1
    } else {
        MODULUS
    }
}

/// Writes the word under the mask, as an element, over element k, and says whether it is below the
/// bound.
fn put_element(word: u64, k: usize, mask: u32, bound: u64, elements: &mut [F]) -> bool
    requires { k < length elements.old }
    ensures word { elements.new ≡ slice_set elements.old k (residue (masked_number mask word)) }
    ensures below { IsTrue result ↔ (masked_number mask word < bound) }
    ensures fit { word < 2 ^ 64 }
{
    let masked = masked_word(word, mask);
    elements[k] = F::from(masked);
    masked < bound
}

/// Writes the words of the row under the mask, as elements, over `elements`, and says whether all
/// of them are below the bound.
///
/// All words are looked at before it answers, so that none waits for the one before it.
fn write_elements(row: &[u8], mask: u32, bound: u64, elements: &mut [F]) -> bool
    requires { length row.now ≡ 8 * length elements.old }
    ensures words { elements.new ≡ map (λ k. residue (masked_number mask (word_of_bytes row.now k)))
        (range_with_len 0 (length elements.old)) }
    ensures below { IsTrue result ↔ ((k : ℕ) → k < length elements.old
        → masked_number mask (word_of_bytes row.now k) < bound) }
    ensures fit { (k : ℕ) → k < length elements.old → word_of_bytes row.now k < 2 ^ 64 }
{
    let (words, _) = row.as_chunks::<8>();
    let mut are = true;
    for k in 0..elements.len() {
        if !put_element(u64::from_le_bytes(words[k]), k, mask, bound, elements) {
            are = false;
        }
    }
    are
}

/// Puts the elements of the row into `elements`, and says whether all of its words are those of
/// elements.
fn put_elements(header: &Header, row: MaskedRow<'_>, elements: &mut Vec<F>) -> Mem<bool>
    ensures words { OnOk result (elements.new.items
        ≡ row_elements header.now row.entry.mask row.entry.width row.entry.bytes.now) }
    ensures fit { IfOk result (λ are. IsTrue are
        ↔ IsRowOfHeader header.now row.entry.mask row.entry.width row.entry.bytes.now) }
{
    elements.resize(row.width as usize, F::from(0))?;
    let mask = mask_of_row(header, row.mask);
    Ok(write_elements(row.bytes, mask, bound_of_row(header), elements))
}

/// The fingerprint of the words of a row under one key.
fn row_fingerprint(key: F, header: &Header, block: u64, mask: u32, elements: &[F]) -> F
    ensures { number result
        ≡ number (fingerprint (row_words block header.now.index mask elements.now) key) }
{
    let masked = F::from(u64::from(mask)) + fingerprint(elements, key) * key;
    let counted = F::from(elements.len() as u64) + masked * key;
    let indexed = F::from(u64::from(header.index)) + counted * key;
    F::from(block) + indexed * key
}

/// The fingerprints of the words of a row.
fn row_fingerprints(header: &Header, block: u64, mask: u32, elements: &[F]) -> Fingerprints
    ensures { HaveWords header.now (row_words block header.now.index mask elements.now) result }
{
    Fingerprints {
        first: row_fingerprint(header.keys.first, header, block, mask, elements),
        second: row_fingerprint(header.keys.second, header, block, mask, elements),
    }
}

/// What a record has before its fingerprints, and what is left.
#[derive(Clone, Copy)]
struct Parts<'a> {
    row: MaskedRow<'a>,
    stored: &'a [u8],
}

/// The parts of a record that begins with these numbers, and whose row has so many words.
fn parts_of<'a>(alloc: Global, numbers: &[u8], width: u32, bytes: &'a [u8]) -> Option<Parts<'a>>
    ensures some { IfSome result (λ p. (p.row.width ≡ width) × (bytes.now ≡ numbers.now
        ++ (to_be_bytes w64 p.row.mask ++ (p.row.bytes.now ++ p.stored.now)))) }
    ensures none { IsNone result → (mask : ℕ) (row stored : List ℕ) → mask < 2 ^ 32
        → length row ≡ 8 * width
        → bytes.now ≢ numbers.now ++ (to_be_bytes w64 mask ++ (row ++ stored)) }
{
    let Some(words) = bytes.strip_prefix(numbers) else {
        return None;
    };
    let mut rest = words;
    let Ok(mask) = read_number(alloc, &mut rest) else {
        return None;
    };
    let Some((bytes, stored)) = rest.split_at_checked(8 * width as usize) else {
        return None;
    };
    let row = MaskedRow { mask, width, bytes };
    Some(Parts { row, stored })
}

/// Returns the row of so many words that the bytes begin a record with for this header, whatever
/// its words and what follows them; or `None` where they begin none: with other numbers, a mask of
/// 2^32 or more, or too few bytes.
pub fn row_at<'a>(
    alloc: Global,
    header: &Header,
    width: u32,
    bytes: &'a [u8],
) -> Mem<Option<MaskedRow<'a>>>
    ensures some { IfOk result (λ answer. IfSome answer (λ row. (row.width ≡ width)
        × BeginsWith header.now row.mask width row.bytes.now bytes.now)) }
    ensures none { IfOk result (λ answer. IsNone answer → (mask : ℕ) (row rest : List ℕ)
        → mask < 2 ^ 32 → length row ≡ 8 * width
        → bytes.now ≢ row_spelling header.now mask width row ++ rest) }
{
    let numbers = record_numbers(alloc, header, width)?;
    let Some(found) = parts_of(alloc, &numbers, width, bytes) else {
        return Ok(None);
    };
    Ok(Some(found.row))
}

/// Whether the bytes are the word of the element.
fn are_word_of(element: F, bytes: &[u8]) -> bool
    ensures { IsTrue result ↔ (bytes.now ≡ to_be_bytes w64 (number element)) }
{
    bytes == element.number().to_be_bytes().as_slice()
}

/// Whether the bytes are the words of the two fingerprints.
fn are_words_of(fingerprints: &Fingerprints, bytes: &[u8]) -> bool
    ensures { IsTrue result ↔ (bytes.now ≡ to_be_bytes w64 (number fingerprints.now.first)
        ++ to_be_bytes w64 (number fingerprints.now.second)) }
{
    let Some((first, second)) = bytes.split_at_checked(8) else {
        return false;
    };
    are_word_of(fingerprints.first, first) && are_word_of(fingerprints.second, second)
}

/// Returns the row of so many words that the bytes are the record of, for this block in the file
/// with this header, and its mask; or `None` where they are the record of none. Its words are those
/// of elements, and the fingerprints are theirs.
///
/// `room` is for its elements: hand in the same for one record after the other.
pub fn row_in_record<'a>(
    alloc: Global,
    header: &Header,
    block: u64,
    width: u32,
    bytes: &'a [u8],
    room: &mut Vec<F>,
) -> Mem<Option<MaskedRow<'a>>>
    ensures some { IfOk result (λ answer. IfSome answer (λ row. (row.width ≡ width)
        × IsRowRecordOf header.now block row.mask width row.bytes.now bytes.now)) }
    ensures none { IfOk result (λ answer. IsNone answer → (mask : ℕ) (row : List ℕ)
        → ¬ (IsRowRecordOf header.now block mask width row bytes.now)) }
{
    let numbers = record_numbers(alloc, header, width)?;
    let Some(parts) = parts_of(alloc, &numbers, width, bytes) else {
        return Ok(None);
    };
    if !put_elements(header, parts.row, room)? {
        return Ok(None);
    }
    let fingerprints = row_fingerprints(header, block, parts.row.mask, room);
    if !are_words_of(&fingerprints, parts.stored) {
        return Ok(None);
    }
    Ok(Some(parts.row))
}

/// Writes what a record has before its fingerprints, in place of what `out` had.
fn write_row(alloc: Global, header: &Header, row: MaskedRow<'_>, out: &mut Vec<u8>) -> Mem<()>
    ensures { OnOk result (out.new.items
        ≡ row_spelling header.now row.entry.mask row.entry.width row.entry.bytes.now) }
{
    let numbers = record_numbers(alloc, header, row.width)?;
    out.clear();
    out.extend_from_slice(&numbers)?;
    u64::from(row.mask).write(alloc, out)?;
    out.extend_from_slice(row.bytes)?;
    Ok(())
}

/// Writes the record of this block in the file with this header that has this row, in place of what
/// `out` had. `row_in_record` reads it where the words of the row are those of elements.
///
/// `room` is for its elements: hand in the same for one record after the other.
pub fn write_row_record(
    alloc: Global,
    header: &Header,
    block: u64,
    row: MaskedRow<'_>,
    room: &mut Vec<F>,
    out: &mut Vec<u8>,
) -> Mem<()>
    ensures exact { OnOk result (out.new.items
        ≡ row_record_spelling header.now block row.entry.mask row.entry.width
        row.entry.bytes.now) }
{
    write_row(alloc, header, row, out)?;
    put_elements(header, row, room)?;
    let fingerprints = row_fingerprints(header, block, row.mask, room);
    write_pair(alloc, fingerprints.first, fingerprints.second, out)?;
    Ok(())
}
