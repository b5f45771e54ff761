//! The rows of wanted indices: those in hand are copied, and the others are made from these.

ghost use Rattle.std.specs.Prelude.{◌≡◌, ◌↔◌, ◌+◌, ◌*◌, ◌<◌, ◌≤◌, ◌^◌, ℕ, All, Contains, List, length, slice_index};
ghost use Rattle.std.specs.Prelude.{IsTrue, IsFalse, IfOk, IfSome, IfNone, OnErr, OnOk};
ghost use Rattle.std.specs.List.Sorted.{IsStrictlyIncreasing};
ghost use Rattle.math_fields.specs.declared.goldilocks.F.{F};
ghost use Rattle.math_fields.specs.Elements.{number};
ghost use Rattle.math_restoring.specs.Restored.{item};
ghost use Rattle.row_interpolation.specs.Rooms.{IsRoomFor};
ghost use Rattle.systematic_shards.specs.Filled.{ArePlaces};
ghost use Rattle.systematic_shards.specs.Held.{AreIndexed};
ghost use Rattle.systematic_shards.specs.Masks.{masked_number};
ghost use Rattle.systematic_shards.specs.Refusals.{AreElements};
ghost use Rattle.systematic_shards.specs.Shards.{AreRowsAt, AreWithinAt, BelongTo};
ghost use Rattle.systematic_shards.specs.Shards.{IsCodewordOf};
ghost use Rattle.systematic_shards.specs.Strips.{ArePlacesFor, HasRoomFor, IsCodewordFor};
ghost use Rattle.systematic_shards.specs.Strips.{IsStripWithin};
ghost use Rattle.systematic_shards.specs.Wanted.{AreCopied, AreCopiesWithin, AreLost};
ghost use Rattle.systematic_shards.specs.Words.{IsWithin};

use crate::filling::{copy_row, write_targets};
use crate::holding::Held;
use crate::making::{RowMaker, Strip, strip_of};
use crate::mask::word_of;
use crate::memory::WordMemory;
use crate::rows::{Row, row_mask};
use crate::split::Code;
use math_base::algebra::Mem;
use math_fields::goldilocks::F;
use std::alloc::Global;

/// The rows that are wanted and not in hand.
#[derive(Drop)]
struct Lost {
    /// Their indices.
    indices: Vec<u32>,
    /// How many rows stand before each in the room.
    places: Vec<usize>,
}

/// The place of the index among indices that rise.
fn position(indices: &[u32], index: u32) -> Option<usize>
    requires { IsStrictlyIncreasing indices.now }
    ensures some { IfSome result
        (λ p. (p < length indices.now) × (slice_index indices.now p ≡ index)) }
    ensures none { IfNone result (¬ (Contains indices.now index)) }
{
    indices.binary_search(&index).ok()
}

/// Adds the wanted row of this place to those that are lost, unless its index is in hand.
fn push_if_lost(lost: &mut Lost, indices: &[u32], index: u32, place: usize) -> Mem<()>
    requires { IsStrictlyIncreasing indices.now }
    ensures { OnOk result ((wanted : List ℕ) → index ≡ slice_index wanted place
        → AreLost indices.now wanted place lost.old.indices.items lost.old.places.items
        → AreLost indices.now wanted (place + 1) lost.new.indices.items lost.new.places.items) }
{
    if let Some(_) = position(indices, index) {
        return Ok(());
    }
    lost.indices.push(index)?;
    lost.places.push(place)?;
    Ok(())
}

/// The rows of the wanted indices that are not among those in hand.
fn lost_rows(alloc: Global, indices: &[u32], wanted: &[u32]) -> Mem<Lost>
    requires { IsStrictlyIncreasing indices.now }
    ensures { IfOk result (λ lost. AreLost indices.now wanted.now (length wanted.now)
        lost.indices.items lost.places.items) }
{
    let mut lost = Lost {
        indices: Vec::new(alloc),
        places: Vec::new(alloc),
    };
    for place in 0..wanted.len() {
        push_if_lost(&mut lost, indices, wanted[place], place)?;
    }
    Ok(lost)
}

/// Whether the bytes of word k that lie past the first `size` bytes are zeros.
fn is_within(size: usize, k: usize, word: u64) -> bool
    requires { k < 2 ^ 61 }
    ensures { IsTrue result ↔ IsWithin size k word }
{
    let left = size.saturating_sub(8 * k);
    left >= 8 || word >> (8 * left) == 0
}

/// The first column in which row `place` of rows of this width, in so many bytes, has a word that
/// does not lie before their end; it may be past the width.
fn first_past(size: usize, width: usize, place: usize) -> usize
    requires { (place + 1) * width ≤ 2 ^ 61 }
    ensures { (k : ℕ) → k < result → 8 * (place * width + k) + 8 ≤ size }
{
    (size / 8).saturating_sub(place * width)
}

/// Whether so many bytes have room for the words of a row, as row `place`: those past the end are
/// zeros.
fn is_row_within<M: WordMemory>(cells: &[M], width: usize, place: usize, size: usize) -> bool
    requires inside { (place + 1) * width ≤ 2 ^ 61 }
    requires words { (k : ℕ) → k < width → M.word cells.now k < 2 ^ 64 }
    ensures { IsTrue result ↔ ((k : ℕ) → k < width
        → IsWithin size (place * width + k) (M.word cells.now k)) }
{
    for k in first_past(size, width, place)..width {
        if !is_within(size, place * width + k, M::read(cells, k)) {
            return false;
        }
    }
    true
}

/// Whether so many bytes have room for the wanted rows that are in hand.
fn are_copies_within<M: WordMemory>(
    held: &Held<'_, M>,
    wanted: &[u32],
    width: usize,
    size: usize,
) -> bool
    requires inside { length wanted.now * width ≤ 2 ^ 61 }
    requires words { All (λ row. (k : ℕ) → k < width → M.word row.cells.now k < 2 ^ 64)
        held.now.rows.items }
    ensures { IsTrue result ↔ AreCopiesWithin size M.word width held.now.indices.items
        held.now.rows.items wanted.now (length wanted.now) }
{
    for place in 0..wanted.len() {
        if let Some(p) = position(&held.indices, wanted[place]) {
            if !is_row_within(held.rows[p].cells, width, place, size) {
                return false;
            }
        }
    }
    true
}

/// Writes the wanted rows that are in hand.
fn write_copies<M: WordMemory>(held: &Held<'_, M>, wanted: &[u32], width: usize, out: &mut [M])
    requires inside { length wanted.now * width ≤ 2 ^ 61 }
    requires fits { AreCopiesWithin (M.BYTES * length out.old) M.word width
        held.now.indices.items held.now.rows.items wanted.now (length wanted.now) }
    ensures { AreCopied M.word width held.now.indices.items held.now.rows.items wanted.now
        (length wanted.now) (M.word out.new) }
{
    for place in 0..wanted.len() {
        if let Some(p) = position(&held.indices, wanted[place]) {
            copy_row(held.rows[p].cells, width, place, out);
        }
    }
}

/// Whether so many bytes have room for the words of the elements under the mask, the first as word
/// `at`.
fn is_run_within(elements: &[F], mask: u32, at: usize, size: usize) -> bool
    requires { at + length elements.now ≤ 2 ^ 61 }
    ensures { IsTrue result ↔ ((c : ℕ) → c < length elements.now
        → IsWithin size (at + c) (masked_number mask (number (item elements.now c)))) }
{
    for c in 0..elements.len() {
        if !is_within(size, at + c, word_of(elements[c], mask)) {
            return false;
        }
    }
    true
}

/// Whether so many bytes have room for the words of the strip.
fn is_strip_within(strip: &Strip<'_>, places: &[usize], size: usize) -> bool
    requires { ArePlaces strip.now.code.split.width strip.now.targets.now places.now }
    ensures { IsTrue result ↔ IsStripWithin size strip.now places.now (length places.now) }
{
    let cols = strip.cols;
    for j in 0..places.len() {
        let mask = row_mask(strip.code, strip.targets[j]);
        let at = places[j] * strip.code.split.width + strip.from;
        if !is_run_within(&strip.elements[j * cols..(j + 1) * cols], mask, at, size) {
            return false;
        }
    }
    true
}

/// Whether so many bytes have room for the rows of the targets in their places, none of which lies
/// behind `last`.
fn are_targets_within<M: WordMemory>(
    maker: &RowMaker<'_, '_, M>,
    places: &[usize],
    last: usize,
    room: &mut [F],
    size: usize,
) -> bool
    requires places { ArePlacesFor maker.now places.now }
    requires room { IsRoomFor maker.now.interpolation room.old }
    requires last { (last + 1) * maker.now.code.split.width ≤ 2 ^ 61 }
    requires behind { All (λ p. p ≤ last) places.now }
    ensures { (a : ℕ → ℕ → F) → IsCodewordFor M.word maker.now a
        → (IsTrue result ↔ HasRoomFor size maker.now places.now a) }
{
    let width = maker.code.split.width;
    let mut from = first_past(size, width, last);
    while from < width {
        let cols = maker.interpolation.cols.min(width - from);
        maker.make(from, cols, room);
        let strip = strip_of(maker.code, &maker.interpolation, from, cols, room);
        if !is_strip_within(&strip, places, size) {
            return false;
        }
        from += cols;
    }
    true
}

/// Writes the rows of the wanted indices over `out`, row after row, if what lies past its end are
/// zeros; else it writes nothing. Answers which it was.
///
/// The rows in hand are copied. Each other one is made from the first `min` of these.
pub(crate) fn write_wanted<M: WordMemory>(
    alloc: Global,
    held: &Held<'_, M>,
    wanted: &[u32],
    code: Code,
    out: &mut [M],
) -> Mem<bool>
    requires indexed { AreIndexed code.split held.now.indices.items held.now.rows.items }
    requires elements { AreElements M.word code.split code.mask held.now.rows.items }
    requires below { All (λ i. i < code.split.total) wanted.now }
    requires inside { length wanted.now * code.split.width ≤ 2 ^ 61 }
    requires size { M.BYTES * length out.old < 2 ^ 64 }
    ensures yes { IfOk result (λ answer. IsTrue answer → (a : ℕ → ℕ → F) → IsCodewordOf code.split a
        → BelongTo M.word code.split code.mask held.now.rows.items a
        → AreRowsAt code.split code.mask a wanted.now (M.word out.new)) }
    ensures no { IfOk result (λ answer. IsFalse answer → (a : ℕ → ℕ → F) → IsCodewordOf code.split a
        → BelongTo M.word code.split code.mask held.now.rows.items a
        → ¬ (AreWithinAt (M.BYTES * length out.old) code.split code.mask a wanted.now)) }
    ensures kept { IfOk result (λ answer. IsFalse answer → out.new ≡ out.old) }
    ensures err { OnErr result (out.new ≡ out.old) }
{
    let min = code.split.min as usize;
    let width = code.split.width;
    let size = M::BYTES * out.len();
    let lost = lost_rows(alloc, &held.indices, wanted)?;
    let maker = RowMaker::new(
        alloc,
        &held.rows[..min],
        &held.indices[..min],
        &lost.indices,
        code,
    )?;
    let mut room = maker.interpolation.room(alloc)?;
    if !are_copies_within(held, wanted, width, size) {
        return Ok(false);
    }
    let last = wanted.len().saturating_sub(1);
    if !are_targets_within(&maker, &lost.places, last, &mut room, size) {
        return Ok(false);
    }
    write_copies(held, wanted, width, out);
    write_targets(&maker, &lost.places, &mut room, out);
    Ok(true)
}
