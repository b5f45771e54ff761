//! Data to shards.
//!
//! A row of the values of a strip is the next part of a shard, which the transform leaves in the
//! order of the tree. Of few points it is read there, and no row of the strip is moved. The rows of
//! the shards are filled strip by strip, each in the same room, and beside them there is but one
//! strip. Where shards are made, rows of elements are filled, and cut into shards.
//!
//! For example, `min` is 1, `total` is 5, and the data are one word, 1. The words 1 and 1 pack to
//! the elements 1, 2 and 0, which are one row. A domain of 8 points has 5 or more: each column has
//! one coefficient, so each shard has the cells 1 2 0.
//!
//! `split_rows` takes all memory before it writes. A transform of this field takes none, so there
//! is nothing that could be refused then.

ghost use Rattle.std.specs.Prelude.{◌≡◌, ◌+◌, ◌*◌, ◌<◌, ◌≤◌, ◌^◌, All, IfOk, OnErr, OnOk, length};
ghost use Rattle.math_splitting.specs.DataWords.{words_in};
ghost use Rattle.math_splitting.specs.Shards.{AreShardsAt, AreShardsOf, width_for};
ghost use Rattle.math_splitting.specs.ShardRows.{AreCut, AreRowsOfShards, AreRowsOfShardsAt};
ghost use Rattle.math_splitting.specs.ShardRows.{AreSplit, IsRoomFor, IsStripWritten, indices_in};
ghost use Rattle.math_splitting.specs.Strips.{IsLayoutOf, IsTableOf};

use super::Shard;
use super::destinations::Room;
use super::few_points::{are_products_cheaper, write_products};
use super::indices::{WantedIndices, wanted_count, wanted_index};
use super::layouts::{Layout, Strip};
use super::sources::{Source, source_of};
use super::strips::{layout_of, row_of_index, write_values};
use math_base::algebra::Mem;
use math_fields::goldilocks::F;
use math_transforms::transform::{evaluation_table, size_of};
use math_values::strips::{most_cols, strip_room};
use math_values::words::Word;
use std::alloc::Global;

/// How many cells a strip has at most, where eight columns have no more: 256 KiB.
const STRIP_CELLS: usize = 32768;

/// Cuts the data into shards, one for each index below `total`, in the order of the indices. Any
/// `min` of them give the data back.
///
/// `min` is at least 1, and at most `total`. A shard has as many cells as the number of elements
/// that the data and their count pack to, divided by `min` and rounded up. Beside the shards it
/// takes memory for as many cells once more, which are cut into shards, for a table of N elements
/// and for N rows of some columns, where N is `total` rounded up to a power of two: eight columns,
/// or as many as make up 2^15 cells where these are more, or those of a shard where these are
/// fewer. `split_rows` takes no memory for cells.
///
/// ```
/// let mut shards = split(alloc, &[4, 6, 8], 2, 5)?;
/// shards.truncate(2);
/// join(alloc, &shards)?; // [4, 6, 8]
/// ```
pub fn split(alloc: Global, data: &[u64], min: u32, total: u32) -> Mem<Vec<Shard>>
    requires some { 1 ≤ min }
    requires within { min ≤ total }
    ensures { IfOk result (λ shards. AreShardsOf «data».now min total shards.items) }
{
    split_source(alloc, &source_of(data), min, total)
}

/// Cuts data that lie in any form into shards, as `split` does with words. There are fewer than
/// 2^61 words; the other conditions are those of `split`.
///
/// ```
/// let source = Source { first: Some(4), words: &[[6, 0, 0, 0, 0, 0, 0, 0]], last: None };
/// let shards = split_source(alloc, &source, 1, 2)?;
/// join(alloc, &shards)?; // [4, 6]
/// ```
pub fn split_source<W: Word>(
    alloc: Global,
    source: &Source<'_, W>,
    min: u32,
    total: u32,
) -> Mem<Vec<Shard>>
    requires some { 1 ≤ min }
    requires within { min ≤ total }
    requires few { length (words_in W.word source.now) < 2 ^ 61 }
    ensures { IfOk result
        (λ shards. AreShardsOf (words_in W.word source.now) min total shards.items) }
{
    make_shards(
        alloc,
        source,
        layout_of(source, min, total),
        WantedIndices::All(total),
    )
}

/// Gives the shards of these indices, in their order: those that `split_source` gives of all. An
/// index may stand there twice.
///
/// The conditions are those of `split_source`, and each index is below `total`. Where there are few
/// indices, each value is a sum of `min` products; else all values of a strip are computed as
/// `split` does, and those of these indices are kept. Beside the shards it takes memory as `split`
/// does, or less.
///
/// ```
/// let source = Source { first: None, words: &[4_u64, 6], last: None };
/// let shards = split_source_at(alloc, &source, 1, 5, &[3])?;
/// shards[0].index; // 3
/// join(alloc, &shards)?; // [4, 6]
/// ```
pub fn split_source_at<W: Word>(
    alloc: Global,
    source: &Source<'_, W>,
    min: u32,
    total: u32,
    indices: &[u32],
) -> Mem<Vec<Shard>>
    requires some { 1 ≤ min }
    requires within { min ≤ total }
    requires few { length (words_in W.word source.now) < 2 ^ 61 }
    requires below { All (λ i. i < total) indices.now }
    ensures { IfOk result
        (λ shards. AreShardsAt (words_in W.word source.now) min total indices.now shards.items) }
{
    make_shards(
        alloc,
        source,
        layout_of(source, min, total),
        WantedIndices::At(indices),
    )
}

/// Writes the shards of the data over the cells: shard i is row i of `total` rows, and each of its
/// cells is the number of an element.
///
/// The conditions are those of `split`. A row has as many words as a shard of `split` has cells.
/// Beside the cells it takes memory for a table of N elements and for N rows of some columns, where
/// N is `total` rounded up to a power of two: eight columns, or as many as make up 2^15 cells where
/// these are more, or those of a shard where these are fewer. Where that is refused nothing is
/// written.
///
/// ```
/// let mut cells = [0; 8];
/// split_rows(alloc, &[4, 6], 1, 2, &mut cells)?;
/// join(alloc, &shards_of_rows(alloc, &[1], 1, 2, &cells[4..], 4)?)?; // [4, 6]
/// ```
pub fn split_rows(alloc: Global, data: &[u64], min: u32, total: u32, cells: &mut [u64]) -> Mem<()>
    requires some { 1 ≤ min }
    requires within { min ≤ total }
    requires size { length cells.old ≡ total * width_for min «data».now }
    ensures ok { OnOk result (AreRowsOfShards «data».now min total cells.new) }
    ensures err { OnErr result (cells.new ≡ cells.old) }
{
    split_source_rows(alloc, &source_of(data), min, total, cells)
}

/// Writes the shards of data that lie in any form over words, or over bytes, as `split_rows` does.
/// The data have fewer than 2^61 words, and the cells fewer than 2^64.
///
/// ```
/// let source = Source { first: None, words: &[4_u64, 6], last: None };
/// let mut cells = [0_u64; 8];
/// split_source_rows(alloc, &source, 1, 2, &mut cells)?;
/// join(alloc, &shards_of_rows(alloc, &[1], 1, 2, &cells[4..], 4)?)?; // [4, 6]
/// ```
pub fn split_source_rows<W: Word, R: Room>(
    alloc: Global,
    source: &Source<'_, W>,
    min: u32,
    total: u32,
    cells: &mut [R],
) -> Mem<()>
    requires some { 1 ≤ min }
    requires within { min ≤ total }
    requires few { length (words_in W.word source.now) < 2 ^ 61 }
    requires size { length (R.words cells.old) ≡ total * width_for min (words_in W.word source.now) }
    requires fits { length (R.words cells.old) < 2 ^ 64 }
    ensures ok { OnOk result
        (AreRowsOfShards (words_in W.word source.now) min total (R.words cells.new)) }
    ensures err { OnErr result (cells.new ≡ cells.old) }
{
    write_shards(
        alloc,
        source,
        layout_of(source, min, total),
        WantedIndices::All(total),
        cells,
    )
}

/// Writes the shards of these indices over words, or over bytes, those that `split_source_rows`
/// writes of all: row t is the shard of index t of the list. An index may stand there twice.
///
/// The conditions are those of `split_source_rows`, with as many rows as there are indices, and
/// each index is below `total`. Where there are few indices, each value is a sum of `min` products;
/// else all values of a strip are computed as `split_rows` does, and those of these indices are
/// written. Takes memory as `split_rows` does, or less. Where that is refused nothing is written.
///
/// ```
/// let source = Source { first: None, words: &[4_u64, 6], last: None };
/// let mut cells = [0_u64; 4];
/// split_source_rows_at(alloc, &source, 1, 5, &[3], &mut cells)?;
/// join(alloc, &shards_of_rows(alloc, &[3], 1, 5, &cells, 4)?)?; // [4, 6]
/// ```
pub fn split_source_rows_at<W: Word, R: Room>(
    alloc: Global,
    source: &Source<'_, W>,
    min: u32,
    total: u32,
    indices: &[u32],
    cells: &mut [R],
) -> Mem<()>
    requires some { 1 ≤ min }
    requires within { min ≤ total }
    requires few { length (words_in W.word source.now) < 2 ^ 61 }
    requires below { All (λ i. i < total) indices.now }
    requires size { length (R.words cells.old)
        ≡ length indices.now * width_for min (words_in W.word source.now) }
    requires fits { length (R.words cells.old) < 2 ^ 64 }
    ensures ok { OnOk result (AreRowsOfShardsAt (words_in W.word source.now) min total indices.now
        (R.words cells.new)) }
    ensures err { OnErr result (cells.new ≡ cells.old) }
{
    write_shards(
        alloc,
        source,
        layout_of(source, min, total),
        WantedIndices::At(indices),
        cells,
    )
}

/// Writes the shards that are asked for over the rows of the cells.
fn write_shards<W: Word, R: Room>(
    alloc: Global,
    source: &Source<'_, W>,
    layout: Layout,
    wanted: WantedIndices<'_>,
    cells: &mut [R],
) -> Mem<()>
    requires layout { IsLayoutOf (words_in W.word source.now) layout }
    requires below { All (λ i. i < layout.total) (indices_in wanted) }
    requires cells { IsRoomFor layout.width wanted (R.words cells.old) }
    ensures ok { OnOk result (AreRowsOfShardsAt (words_in W.word source.now) layout.min
        layout.total (indices_in wanted.entry) (R.words cells.new)) }
    ensures err { OnErr result (cells.new ≡ cells.old) }
{
    write_all(alloc, source, layout, wanted, cells)?;
    Ok(())
}

/// Writes the values of all columns into the rows of their shards, in the way that takes less work.
fn write_all<W: Word, R: Room>(
    alloc: Global,
    source: &Source<'_, W>,
    layout: Layout,
    wanted: WantedIndices<'_>,
    cells: &mut [R],
) -> Mem<()>
    requires layout { IsLayoutOf (words_in W.word source.now) layout }
    requires below { All (λ i. i < layout.total) (indices_in wanted) }
    requires cells { IsRoomFor layout.width wanted (R.words cells.old) }
    ensures ok { OnOk result (AreSplit W.word source.now layout wanted.entry (R.words cells.new)) }
    ensures err { OnErr result (cells.new ≡ cells.old) }
{
    if are_products_cheaper(layout, wanted_count(wanted)) {
        return write_products(alloc, source, layout, wanted, cells);
    }
    let table = evaluation_table::<F>(alloc, layout.lg)?;
    let most = most_cols(STRIP_CELLS, layout.lg, layout.width);
    let mut room = strip_room(alloc, size_of(layout.lg), most)?;
    write_rows(alloc, source, layout, wanted, &table, &mut room, cells);
    Ok(())
}

/// Writes the values of all columns into the rows of their shards, strip by strip of at most as
/// many columns as the room has in 2^lg rows.
fn write_rows<W: Word, R: Room>(
    alloc: Global,
    source: &Source<'_, W>,
    layout: Layout,
    wanted: WantedIndices<'_>,
    table: &[F],
    room: &mut [F],
    cells: &mut [R],
)
    requires layout { IsLayoutOf (words_in W.word source.now) layout }
    requires below { All (λ i. i < layout.total) (indices_in wanted) }
    requires table { IsTableOf layout.lg table.now }
    requires room { 2 ^ layout.lg ≤ length room.old }
    requires cells { IsRoomFor layout.width wanted (R.words cells.old) }
    ensures { AreSplit W.word source.now layout wanted.entry (R.words cells.new) }
{
    let most = room.len() >> layout.lg;
    let mut from = 0;
    while from < layout.width {
        let cols = most.min(layout.width - from);
        let strip = Strip { layout, from, cols };
        let values = &mut room[..size_of(layout.lg) * cols];
        write_values(alloc, source, strip, table, values);
        write_columns(values, strip, wanted, cells);
        from += cols;
    }
}

/// Writes for each of the indices the row of values that is its own into its row of the cells, in
/// the columns of the strip.
fn write_columns<R: Room>(values: &[F], strip: Strip, wanted: WantedIndices<'_>, cells: &mut [R])
    requires below { All (λ i. i < strip.layout.total) (indices_in wanted) }
    requires values { length values.now ≡ 2 ^ strip.layout.lg * strip.cols }
    requires cells { IsRoomFor strip.layout.width wanted (R.words cells.old) }
    ensures { IsStripWritten strip wanted.entry values.now (R.words cells.old) (R.words cells.new) }
{
    for t in 0..wanted_count(wanted) {
        let row = row_of_index(values, strip, wanted_index(wanted, t));
        R::write(cells, t * strip.layout.width + strip.from, row);
    }
}

/// The shards that are asked for: their rows are written over elements, and cut into shards.
fn make_shards<W: Word>(
    alloc: Global,
    source: &Source<'_, W>,
    layout: Layout,
    wanted: WantedIndices<'_>,
) -> Mem<Vec<Shard>>
    requires layout { IsLayoutOf (words_in W.word source.now) layout }
    requires below { All (λ i. i < layout.total) (indices_in wanted) }
    ensures { IfOk result (λ shards. AreShardsAt (words_in W.word source.now) layout.min
        layout.total (indices_in wanted.entry) shards.items) }
{
    let mut cells = strip_room(alloc, wanted_count(wanted), layout.width)?;
    write_all::<W, F>(alloc, source, layout, wanted, &mut cells)?;
    let shards = cut_rows(alloc, &cells, layout, wanted)?;
    Ok(shards)
}

/// Shards with these rows of cells, one for each index that is asked for.
fn cut_rows(
    alloc: Global,
    cells: &[F],
    layout: Layout,
    wanted: WantedIndices<'_>,
) -> Mem<Vec<Shard>>
    requires { length cells.now ≡ length (indices_in wanted) * layout.width }
    ensures { IfOk result (λ shards. AreCut layout.min layout.total layout.width
        (indices_in wanted.entry) cells.now (length (indices_in wanted.entry)) shards.items) }
{
    let width = layout.width;
    let mut shards = Vec::with_capacity(alloc, wanted_count(wanted))?;
    for t in 0..wanted_count(wanted) {
        let at = t * width;
        let row = copy_of(alloc, &cells[at..at + width])?;
        shards.push(Shard {
            index: wanted_index(wanted, t),
            min: layout.min,
            total: layout.total,
            cells: row,
        })?;
    }
    Ok(shards)
}

/// A list of these cells.
fn copy_of(alloc: Global, cells: &[F]) -> Mem<Vec<F>>
    ensures { IfOk result (λ list. list.items ≡ cells.now) }
{
    let mut list = Vec::with_capacity(alloc, cells.len())?;
    list.extend_from_slice(cells)?;
    Ok(list)
}
