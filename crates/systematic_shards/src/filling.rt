//! Rows that are made, and what becomes of them, some columns at a time: they are written, or
//! compared with rows in hand.

ghost use Rattle.std.specs.Prelude.{◌≡◌, ◌↔◌, ◌+◌, ◌*◌, ◌<◌, ◌≤◌, ◌^◌, ℕ, IsTrue, length, map, slice_index};
ghost use Rattle.math_fields.specs.declared.goldilocks.F.{F};
ghost use Rattle.math_fields.specs.Elements.{number, residue, same};
ghost use Rattle.math_restoring.specs.Restored.{item};
ghost use Rattle.row_interpolation.specs.Rooms.{IsRoomFor};
ghost use Rattle.row_interpolation.specs.Written.{AreWritten};
ghost use Rattle.systematic_shards.specs.Filled.{ArePlaces};
ghost use Rattle.systematic_shards.specs.Masks.{masked_number};
ghost use Rattle.systematic_shards.specs.Refusals.{AreElements};
ghost use Rattle.systematic_shards.specs.Shards.{BelongTo};
ghost use Rattle.systematic_shards.specs.Strips.{ArePlacesFor, AreTargetsFilled, HaveElements};
ghost use Rattle.systematic_shards.specs.Strips.{HaveRoomFor, IsCodewordFor, IsStripFilled};
ghost use Rattle.systematic_shards.specs.Strips.{IsStripWithin};
ghost use Rattle.systematic_shards.specs.Words.{IsWithin};

use crate::making::{RowMaker, Strip, strip_of};
use crate::mask::{element_of, word_of};
use crate::memory::{RUN, WordMemory, words_from};
use crate::rows::{Row, row_mask};
use math_fields::goldilocks::F;

/// Writes the words of the elements under the mask over the first items of `run`; gives these.
fn words_of<'r>(elements: &[F], mask: u32, run: &'r mut [u64; RUN]) -> &'r [u64]
    requires { length elements.now ≤ 64 }
    ensures size { length result.now ≡ length elements.now }
    ensures words { (c : ℕ) → c < length elements.now
        → slice_index result.now c ≡ masked_number mask (number (item elements.now c)) }
{
    let words = &mut run[..elements.len()];
    for c in 0..elements.len() {
        words[c] = word_of(elements[c], mask);
    }
    words
}

/// Writes the words of the elements under the mask, the first as word `at`.
fn write_elements<M: WordMemory>(elements: &[F], mask: u32, at: usize, out: &mut [M])
    requires few { length elements.now ≤ 64 }
    requires place { at + length elements.now ≤ 2 ^ 61 }
    requires fits { (c : ℕ) → c < length elements.now → IsWithin (M.BYTES * length out.old)
        (at + c) (masked_number mask (number (item elements.now c))) }
    ensures { AreWritten (λ c. at + c) (λ c. masked_number mask (number (item elements.now c)))
        (length elements.now) (M.word out.old) (M.word out.new) }
{
    let mut run = [0; RUN];
    let words = words_of(elements, mask, &mut run);
    M::write_run(out, at, words);
}

/// Writes the words of the strip: those of each row in its place.
fn write_strip<M: WordMemory>(strip: &Strip<'_>, places: &[usize], out: &mut [M])
    requires places { ArePlaces strip.now.code.split.width strip.now.targets.now places.now }
    requires fits { IsStripWithin (M.BYTES * length out.old) strip.now places.now
        (length places.now) }
    ensures { IsStripFilled strip.now places.now (length places.now)
        (M.word out.old) (M.word out.new) }
{
    let cols = strip.cols;
    for j in 0..places.len() {
        let mask = row_mask(strip.code, strip.targets[j]);
        let at = places[j] * strip.code.split.width + strip.from;
        write_elements(&strip.elements[j * cols..(j + 1) * cols], mask, at, out);
    }
}

/// Makes the rows of the targets, and writes each in its place.
pub(crate) fn write_targets<M: WordMemory>(
    maker: &RowMaker<'_, '_, M>,
    places: &[usize],
    room: &mut [F],
    out: &mut [M],
)
    requires places { ArePlacesFor maker.now places.now }
    requires room { IsRoomFor maker.now.interpolation room.old }
    requires fits { HaveRoomFor M.word (M.BYTES * length out.old) maker.now places.now }
    ensures { AreTargetsFilled M.word maker.now places.now maker.now.code.split.width
        (M.word out.old) (M.word out.new) }
{
    let width = maker.code.split.width;
    let mut from = 0;
    while from < width {
        let cols = maker.interpolation.cols.min(width - from);
        maker.make(from, cols, room);
        let strip = strip_of(maker.code, &maker.interpolation, from, cols, room);
        write_strip(&strip, places, out);
        from += cols;
    }
}

/// Writes the words of a row as row `place` of `out`.
pub(crate) fn copy_row<M: WordMemory>(cells: &[M], width: usize, place: usize, out: &mut [M])
    requires inside { (place + 1) * width ≤ 2 ^ 61 }
    requires fits { (k : ℕ) → k < width
        → IsWithin (M.BYTES * length out.old) (place * width + k) (M.word cells.now k) }
    ensures { AreWritten (λ k. place * width + k) (M.word cells.now) width (M.word out.old)
        (M.word out.new) }
{
    let mut run = [0; RUN];
    let mut from = 0;
    while from < width {
        let some = RUN.min(width - from);
        let words = words_from(cells, from, some, &mut run);
        M::write_run(out, place * width + from, words);
        from += some;
    }
}

/// Whether the words are those of the elements under the mask.
fn are_words_of(words: &[u64], mask: u32, elements: &[F]) -> bool
    requires { length words.now ≡ length elements.now }
    ensures { IsTrue result ↔ ((c : ℕ) → c < length elements.now
        → same (residue (masked_number mask (slice_index words.now c))) (item elements.now c)) }
{
    for c in 0..elements.len() {
        if element_of(words[c], mask) != elements[c] {
            return false;
        }
    }
    true
}

/// Whether the rows have the elements of the strip.
fn have_elements<M: WordMemory>(rows: &[Row<'_, M>], strip: &Strip<'_>) -> bool
    requires { length rows.now ≡ length strip.now.targets.now }
    ensures { IsTrue result ↔ HaveElements M.word rows.now strip.now (length rows.now) }
{
    let cols = strip.cols;
    let mut run = [0; RUN];
    for j in 0..rows.len() {
        let row = &rows[j];
        let words = words_from(row.cells, strip.from, cols, &mut run);
        let mask = row_mask(strip.code, row.index);
        if !are_words_of(words, mask, &strip.elements[j * cols..(j + 1) * cols]) {
            return false;
        }
    }
    true
}

/// Whether the further rows, which are those of the targets, belong to the codeword of the rows in
/// hand.
pub(crate) fn are_targets<M: WordMemory>(
    maker: &RowMaker<'_, '_, M>,
    further: &[Row<'_, M>],
    room: &mut [F],
) -> bool
    requires further { maker.now.interpolation.targets.items ≡ map (λ row. row.index) further.now }
    requires room { IsRoomFor maker.now.interpolation room.old }
    requires elements { AreElements M.word maker.now.code.split maker.now.code.mask further.now }
    ensures { (a : ℕ → ℕ → F) → IsCodewordFor M.word maker.now a → (IsTrue result
        ↔ BelongTo M.word maker.now.code.split maker.now.code.mask further.now a) }
{
    let width = maker.code.split.width;
    let mut from = 0;
    while from < width {
        let cols = maker.interpolation.cols.min(width - from);
        maker.make(from, cols, room);
        let strip = strip_of(maker.code, &maker.interpolation, from, cols, room);
        if !have_elements(further, &strip) {
            return false;
        }
        from += cols;
    }
    true
}
