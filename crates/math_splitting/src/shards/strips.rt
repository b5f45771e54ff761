//! Strips of columns of the rows that data fill, and their values.
//!
//! Element e of the packed data has 63 bits, of which the first is bit 63 e of the words. Write e
//! as 64 a + b with b below 64, and let h be 63 a + b, which is e - a. Then 63 e is 64 h - b: the b
//! lowest bits of the element are the highest of word h - 1, and the others are the lowest of word
//! h. So the cells of any columns are had from the words, and no list of all elements is made.
//!
//! Each column of the rows is transformed by itself, whatever the others are. A strip has so few of
//! them that it fits a cache near the processor, but eight at least: there all levels of its
//! transform find its cells.
//!
//! In a split for up to 128 shards a pass that orders the rows takes a twenty-fifth of the time: of
//! 256 points or fewer no row is moved. Of 1,024 points and more, rows that are read one by one
//! take up to a quarter of a split longer than that pass.

ghost use Rattle.std.specs.Prelude.{
  ◌≡◌,
  ◌+◌,
  ◌*◌,
  ◌%◌,
  ◌<◌,
  ◌≤◌,
  ◌^◌,
  ℕ,
  List,
  length,
  map,
  slice_index,
};
ghost use Rattle.math_fields.specs.Elements.{same};
ghost use Rattle.math_transforms.specs.DomainValues.{matrix_of};
ghost use Rattle.math_transforms.specs.Matrices.{row_of};
ghost use Rattle.math_splitting.specs.DataWords.{words_in};
ghost use Rattle.math_splitting.specs.Shards.{counted, width_for};
ghost use Rattle.math_splitting.specs.Strips.{ArePacked, ArePieces, ArePlaced, HasStripValues};
ghost use Rattle.math_splitting.specs.Strips.{IsLayoutOf, IsStripOf};
ghost use Rattle.math_splitting.specs.Strips.{IsTableOf, packed_at, piece_of, place_of};

use super::layouts::{Layout, Strip};
use super::sources::{Source, before_slice, count_of, word_in};
use math_fields::goldilocks::F;
use math_transforms::transform::order::{reverse_rows, reversed_row};
use math_transforms::transform::{evaluate_few, size_of};
use math_transforms::work::Work;
use math_values::words::Word;
use std::alloc::Global;

/// At most 2^8 points have their rows of values left in the order of the tree. Of more points rows
/// that are read in that order, one by one, take longer than a pass that puts them in natural
/// order, many at a time.
const MOST_REVERSED_LG: u8 = 8;

/// Returns how many cells each shard has of so many words of data, of which `min` give these back.
///
/// `min` is at least 1, and there are fewer than 2^63 words.
///
/// ```
/// shard_width(100, 4); // 26
/// ```
pub fn shard_width(words: usize, min: u32) -> usize
    requires some { 1 ≤ min }
    requires few { words < 2 ^ 63 }
    ensures { (given : List ℕ) → length given ≡ words → width_for min given ≡ result }
{
    let count = words + 1;
    (count + count.div_ceil(63)).div_ceil(min as usize)
}

/// The layout of the shards of the data.
pub(super) fn layout_of<W: Word>(source: &Source<'_, W>, min: u32, total: u32) -> Layout
    requires some { 1 ≤ min }
    requires within { min ≤ total }
    requires few { length (words_in W.word source.now) < 2 ^ 61 }
    ensures layout { IsLayoutOf (words_in W.word source.now) result }
    ensures min { result.min ≡ min }
    ensures total { result.total ≡ total }
{
    Layout::new(min, total, shard_width(count_of(source), min))
}

/// The word in this place of those that are packed, which are the number of the data and then the
/// data. Past the last one it is zero.
fn packed_word<W: Word>(source: &Source<'_, W>, place: usize) -> u64
    requires { length (words_in W.word source.now) < 2 ^ 61 }
    ensures { result ≡ slice_index (counted (words_in W.word source.now)) place }
{
    if place == 0 {
        return count_of(source) as u64;
    }
    word_in(source, place - 1)
}

/// The element of 63 bits whose first ones are the `taken` highest bits of a word, and the others
/// the lowest of the next word.
fn piece(before: u64, word: u64, taken: u32) -> F
    requires { taken < 64 }
    ensures { same result (piece_of before word taken) }
{
    let first = (before >> 1) >> (63 - taken);
    let both = first.wrapping_add(word << taken);
    F::from(both & 0x7fff_ffff_ffff_ffff)
}

/// The element in this place of those that the data pack to. Past the last one it is zero.
fn packed_at<W: Word>(source: &Source<'_, W>, place: usize) -> F
    requires { length (words_in W.word source.now) < 2 ^ 61 }
    ensures { same result (packed_at (words_in W.word source.now) place) }
{
    let next = place - place / 64;
    let before = packed_word(source, next.saturating_sub(1));
    let word = packed_word(source, next);
    piece(before, word, (place % 64) as u32)
}

/// Writes over the cells the elements whose first bits are the highest ones of a word, and the
/// others the lowest of the next word: of the first element the `taken` highest bits, and of each
/// further one a bit more.
fn write_pieces<W: Word>(words: &[W], taken: u32, cells: &mut [F])
    requires words { length words.now ≡ length cells.old + 1 }
    requires taken { taken + length cells.old ≤ 64 }
    ensures { ArePieces (map W.word words.now) taken cells.new }
{
    let next = &words[1..];
    let before = &words[..next.len()];
    let cells = &mut cells[..next.len()];
    for k in 0..next.len() {
        cells[k] = piece(before[k].word(), next[k].word(), taken + k as u32);
    }
}

/// Writes over the cells the elements that the data pack to, from place `first` on, where these
/// are in one run of 64.
fn pack_run<W: Word>(source: &Source<'_, W>, first: usize, cells: &mut [F])
    requires few { length (words_in W.word source.now) < 2 ^ 61 }
    requires fits { first + length cells.old < 2 ^ 64 }
    requires run { first % 64 + length cells.old ≤ 64 }
    ensures { ArePacked (words_in W.word source.now) first cells.new }
{
    let next = first - first / 64;
    let before = before_slice(source) + 2;
    if next >= before && next - before + cells.len() < source.words.len() {
        let from = next - before;
        let words = &source.words[from..from + cells.len() + 1];
        write_pieces(words, (first % 64) as u32, cells);
    } else {
        for k in 0..cells.len() {
            cells[k] = packed_at(source, first + k);
        }
    }
}

/// Writes over the cells the elements that the data pack to, from place `first` on.
fn write_packed<W: Word>(source: &Source<'_, W>, first: usize, cells: &mut [F])
    requires few { length (words_in W.word source.now) < 2 ^ 61 }
    requires fits { first + length cells.old < 2 ^ 64 }
    ensures { ArePacked (words_in W.word source.now) first cells.new }
{
    let mut done = 0;
    while done < cells.len() {
        let at = first + done;
        let count = (64 - at % 64).min(cells.len() - done);
        pack_run(source, at, &mut cells[done..done + count]);
        done += count;
    }
}

/// Writes over the cells the strip of the rows that the data fill, with so many rows: these, and
/// then rows of zeros.
pub(super) fn write_strip<W: Word>(
    source: &Source<'_, W>,
    strip: Strip,
    rows: usize,
    cells: &mut [F],
)
    requires layout { IsLayoutOf (words_in W.word source.now) strip.layout }
    requires tall { strip.layout.min ≤ rows }
    requires size { length cells.old ≡ rows * strip.cols }
    ensures { IsStripOf (words_in W.word source.now) strip.layout.min rows strip.from strip.cols
        cells.new }
{
    let min = strip.layout.min as usize;
    for row in 0..min {
        let at = row * strip.cols;
        let first = row * strip.layout.width + strip.from;
        write_packed(source, first, &mut cells[at..at + strip.cols]);
    }
    cells[min * strip.cols..].fill(F::from(0));
}

/// Writes over the cells the values of the columns of the strip at all points. The table is that of
/// `evaluation_table`. Takes no memory.
pub(super) fn write_values<W: Word>(
    alloc: Global,
    source: &Source<'_, W>,
    strip: Strip,
    table: &[F],
    cells: &mut [F],
)
    requires layout { IsLayoutOf (words_in W.word source.now) strip.layout }
    requires size { length cells.old ≡ 2 ^ strip.layout.lg * strip.cols }
    requires table { IsTableOf strip.layout.lg table.now }
    ensures { HasStripValues (words_in W.word source.now) strip.layout.min strip.layout.lg
        strip.from strip.cols cells.new }
{
    let cols = strip.cols;
    let lg = strip.layout.lg;
    let part = strip.layout.part();
    let rows = size_of(part);
    write_strip(source, strip, rows, &mut cells[..rows * cols]);
    let Ok(()) = evaluate_few(alloc, cells, cols, lg, part, table, &mut Work::new()) else {
        unreachable!()
    };
    place_rows(cells, cols, lg);
}

/// Puts 2^lg rows of values, which stand in the order of the tree, where `row_of_index` finds them.
fn place_rows(cells: &mut [F], cols: usize, lg: u8)
    requires small { lg < 64 }
    requires size { length cells.old ≡ 2 ^ lg * cols }
    ensures { ArePlaced lg cols cells.old cells.new }
{
    if lg > MOST_REVERSED_LG {
        reverse_rows(cells, cols, lg);
    }
}

/// The row of the values of a strip that has those at power `index` of the root.
pub(super) fn row_of_index(values: &[F], strip: Strip, index: u32) -> &[F]
    requires below { index < strip.layout.total }
    requires size { length values.now ≡ 2 ^ strip.layout.lg * strip.cols }
    ensures row { result.now ≡ row_of (matrix_of (2 ^ strip.layout.lg) strip.cols values.now)
        (place_of strip.layout.lg index) }
    ensures count { length result.now ≡ strip.cols }
{
    let index = index as usize;
    if strip.layout.lg > MOST_REVERSED_LG {
        let at = index * strip.cols;
        return &values[at..at + strip.cols];
    }
    reversed_row(values, strip.cols, strip.layout.lg, index)
}
