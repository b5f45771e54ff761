//! The values of all columns at few points.
//!
//! The value of a column at a point is the sum of its coefficients, each times a power of the
//! point. For few points that is less work than a transform, which gives the values at all points.

ghost use Rattle.std.specs.Prelude.{◌≡◌, ◌+◌, ◌*◌, ◌<◌, ◌≤◌, ℕ, OnErr, OnOk, length};
ghost use Rattle.math_theory.specs.Powers.{power};
ghost use Rattle.math_fields.specs.Elements.{residue, product, root_of};
ghost use Rattle.math_transforms.specs.DomainValues.{matrix_of};
ghost use Rattle.math_transforms.specs.Matrices.{column_of};
ghost use Rattle.math_values.specs.Values.{ArePowersOf};
ghost use Rattle.math_splitting.specs.DataWords.{words_in};
ghost use Rattle.math_splitting.specs.ShardRows.{AreColumnsWritten, AreSplit, IsRoomFor};
ghost use Rattle.math_splitting.specs.ShardRows.{indices_in, value_element};
ghost use Rattle.math_splitting.specs.Strips.{HasValuesAt, IsLayoutOf};

use super::destinations::Room;
use super::indices::{WantedIndices, wanted_count, wanted_index};
use super::layouts::{Layout, Strip};
use super::sources::Source;
use super::strips::write_strip;
use math_base::algebra::{Mem, Multiplicative, Ring};
use math_fields::goldilocks::F;
use math_transforms::transform::size_of;
use math_values::columns::{sum_columns, sums_columns_at_once};
use math_values::points::point_of;
use math_values::strips::strip_room;
use math_values::sums::sum_of_products;
use math_values::words::Word;
use std::alloc::Global;

/// How many columns a strip has at most: so few that it stays in a cache near the processor, and no
/// power of two, by which the cells of a column would all fall into the same part of it.
const STRIP_COLS: usize = 200;

/// How many products take as long as what a value takes besides its own.
const BESIDE: usize = 18;

/// Whether the values of a column at so many points take less time by products than by a transform:
/// a pair of cells that this combines takes as long as two products.
pub(super) fn are_products_cheaper(layout: Layout, points: usize) -> bool {
    let products = points.saturating_mul(layout.min as usize + BESIDE);
    products <= size_of(layout.lg).saturating_mul(layout.lg as usize)
}

/// Writes the powers of x over the cells, from power 0 on.
fn write_powers(x: F, cells: &mut [F])
    ensures { ArePowersOf x cells.new }
{
    let mut power = F::from(1);
    for i in 0..cells.len() {
        cells[i] = power;
        power = power * x;
    }
}

/// Writes a column of these rows over the items of `column`, of which there is one for each row.
pub fn copy_column(column: &mut [F], rows: &[F], cols: usize, k: usize)
    requires size { length rows.now ≡ length column.old * cols }
    requires within { k < cols }
    ensures { column.new
        ≡ column_of (residue 0) (matrix_of (length column.old) cols rows.now) k }
{
    for r in 0..column.len() {
        column[r] = rows[r * cols + k];
    }
}

/// Writes over the items of `out` the values of the columns of these rows at a point. `powers` are
/// those of the point, and `column` is room for a column.
fn write_values_at(rows: &[F], powers: &[F], column: &mut [F], out: &mut [F])
    requires size { length rows.now ≡ length column.old * length out.old }
    requires powers { length powers.now ≡ length column.old }
    ensures { (lg i : ℕ)
        → ArePowersOf (power (residue 1) product (root_of lg) i) powers.now → HasValuesAt lg i
        (matrix_of (length column.old) (length out.old) rows.now) out.new }
{
    let cols = out.len();
    if sums_columns_at_once(powers.len(), cols) {
        sum_columns(rows, powers, out);
        return;
    }
    for k in 0..cols {
        copy_column(column, rows, cols, k);
        out[k] = sum_of_products(column, powers);
    }
}

/// Writes for each of the indices the values of the columns of a strip at its point into its row of
/// the cells. The room is for the powers of a point, for a column and for a row.
fn write_values_of<R: Room>(
    alloc: Global,
    rows: &[F],
    strip: Strip,
    wanted: WantedIndices<'_>,
    room: &mut [F],
    cells: &mut [R],
)
    requires rows { length rows.now ≡ strip.layout.min * strip.cols }
    requires room { length room.old ≡ 2 * strip.layout.min + strip.cols }
    requires cells { IsRoomFor strip.layout.width wanted (R.words cells.old) }
    ensures columns { AreColumnsWritten strip.layout.width strip.from strip.cols
        (length (indices_in wanted.entry)) (value_element (indices_in wanted.entry)
        strip.layout.lg (matrix_of strip.layout.min strip.cols rows.now)) (R.words cells.old)
        (R.words cells.new) }
    ensures kept { length (R.words cells.new) ≡ length (R.words cells.old) }
{
    let min = strip.layout.min as usize;
    let (powers, rest) = room.split_at_mut(min);
    let (column, out) = rest.split_at_mut(min);
    for t in 0..wanted_count(wanted) {
        let index = wanted_index(wanted, t);
        write_powers(point_of(alloc, strip.layout.lg, index), powers);
        write_values_at(rows, powers, column, out);
        R::write(cells, t * strip.layout.width + strip.from, out);
    }
}

/// Writes for each of the indices the values of all columns at its point into its row of the cells,
/// strip by strip of as many columns as there is room for: for each a cell of each row and of one
/// more, beside two columns.
fn write_strips<W: Word, R: Room>(
    alloc: Global,
    source: &Source<'_, W>,
    layout: Layout,
    wanted: WantedIndices<'_>,
    room: &mut [F],
    cells: &mut [R],
)
    requires layout { IsLayoutOf (words_in W.word source.now) layout }
    requires room { 3 * layout.min < length room.old }
    requires cells { IsRoomFor layout.width wanted (R.words cells.old) }
    ensures { AreSplit W.word source.now layout wanted.entry (R.words cells.new) }
{
    let min = layout.min as usize;
    let most = (room.len() - 2 * min) / (min + 1);
    let (rows, rest) = room.split_at_mut(min * most);
    let mut from = 0;
    while from < layout.width {
        let cols = most.min(layout.width - from);
        let strip = Strip { layout, from, cols };
        let rows = &mut rows[..min * cols];
        write_strip(source, strip, min, rows);
        write_values_of(
            alloc,
            rows,
            strip,
            wanted,
            &mut rest[..2 * min + cols],
            cells,
        );
        from += cols;
    }
}

/// Writes for each of the indices the values of all columns at its point into its row of the cells.
/// Where memory for that is refused nothing is written.
pub(super) fn write_products<W: Word, R: Room>(
    alloc: Global,
    source: &Source<'_, W>,
    layout: Layout,
    wanted: WantedIndices<'_>,
    cells: &mut [R],
) -> Mem<()>
    requires layout { IsLayoutOf (words_in W.word source.now) layout }
    requires cells { IsRoomFor layout.width wanted (R.words cells.old) }
    ensures ok { OnOk result (AreSplit W.word source.now layout wanted.entry (R.words cells.new)) }
    ensures err { OnErr result (cells.new ≡ cells.old) }
{
    let most = STRIP_COLS.min(layout.width).max(1);
    let mut room = strip_room(alloc, layout.min as usize + 1, most + 2)?;
    write_strips(alloc, source, layout, wanted, &mut room, cells);
    Ok(())
}
