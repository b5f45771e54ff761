//! Shards to coefficients, by weights.
//!
//! Let there be k shards of distinct indices, where k of them give the data back. For each of them
//! there is one polynomial of k coefficients that is one at its index, and zero at those of the
//! others. The sum of these, each times cell j of its shard, has the cells j of all shards as its
//! values. So it is the polynomial of column j, since no other one of k coefficients has them.
//! Coefficient r of column j is then the sum of the cells j of all shards, each times coefficient r
//! of its polynomial: these weights are the same for all columns. Transforms (`math_restoring`)
//! give them: of k rows of k cells, where the row of shard i has one in place i and zero in every
//! other, they are the coefficients. Each coefficient then takes k products and one reduction, and
//! the coefficients of a column are written over its cells. Where sums in several columns are taken
//! at once, the columns are taken in strips.

ghost use Rattle.std.specs.Prelude.{◌≡◌, ◌+◌, ◌*◌, ◌<◌, ◌≤◌, ◌^◌, All, Contains, length};
ghost use Rattle.std.specs.Prelude.{IfOk, OnOk};
ghost use Rattle.math_restoring.specs.Restored.{HaveCellsAsValues};
ghost use Rattle.math_shards.specs.Fitting.{AreRowsOf};
ghost use Rattle.math_shards.specs.Weights.{AreChosen, AreCoefficients, AreColumnsPut, AreIndicesOf};
ghost use Rattle.math_shards.specs.Weights.{ArePutBefore, AreRead, AreUnitRows, AreWeightsOf};
ghost use Rattle.math_shards.specs.Weights.{IsColumnPut, weighed_at};

use super::rows::Row;
use math_base::algebra::Mem;
use math_fields::goldilocks::F;
use math_restoring::restoring::put_restored;
use math_splitting::shards::{Layout, copy_column};
use math_transforms::vanishing_points::VanishingPoints;
use math_values::columns::{sum_columns, sums_columns_at_once};
use math_values::strips::strip_room;
use math_values::sums::sum_of_products;
use std::alloc::{AllocError, Global};

/// How many columns a strip has.
const STRIP: usize = 32;

/// The indices of the first `min` rows of distinct indices, or of all such rows where they are
/// fewer, and the cells of these rows, one row after the other. There is a bit for each point of
/// the domain: it says whether a row of that index is chosen.
pub(super) fn choose_rows<R: Row>(
    alloc: Global,
    rows: &[R],
    layout: Layout,
) -> Mem<(Vec<u32>, Vec<F>)>
    requires { AreRowsOf R.index R.cells layout rows.now }
    ensures few { IfOk result (λ answer. length answer.0.items ≤ layout.min) }
    ensures rows { IfOk result
        (λ answer. AreChosen R.index R.cells rows.now answer.0.items answer.1.items) }
    ensures all { IfOk result (λ answer. length answer.0.items < layout.min
        → All (λ row. Contains answer.0.items (R.index row)) rows.now) }
{
    let min = layout.min as usize;
    let Some(count) = min.checked_mul(layout.width) else {
        return Err(AllocError);
    };
    let mut points = VanishingPoints::new(alloc, layout.lg as u32)?;
    let mut indices = Vec::with_capacity(alloc, min)?;
    let mut cells = Vec::with_capacity(alloc, count)?;
    for row in rows {
        let index = row.index();
        if indices.len() < min && !points.get(index as u64) {
            points.set_non_vanishing(index as u64);
            indices.push(index)?;
            row.append_to(&mut cells)?;
        }
    }
    Ok((indices, cells))
}

/// Writes over n rows of n cells: one in place i of row i, and zero in every other.
fn write_units(cells: &mut [F], n: usize)
    requires { length cells.old ≡ n * n }
    ensures { AreUnitRows n n cells.new }
{
    cells.fill(F::from(0));
    for i in 0..n {
        cells[i * n + i] = F::from(1);
    }
}

/// Writes the weights of rows with these indices, as many as give the data back, over as many rows
/// of as many cells: row r has the weights by which cells of the rows give coefficient r.
fn write_weights(alloc: Global, indices: &[u32], layout: Layout, cells: &mut [F]) -> Mem<()>
    requires indices { AreIndicesOf layout indices.now }
    requires size { length cells.old ≡ length indices.now * length indices.now }
    ensures { OnOk result (AreWeightsOf layout.lg indices.now cells.new) }
{
    let n = indices.len();
    write_units(cells, n);
    put_restored(alloc, indices, cells, n, layout.lg, layout.part())?;
    Ok(())
}

/// Writes the coefficients of a column over its cells: in row r the sum of the items, each times
/// its weight there.
fn put_column(cells: &mut [F], width: usize, k: usize, column: &[F], weights: &[F])
    requires size { length cells.old ≡ length column.now * width }
    requires within { k < width }
    requires weights { length weights.now ≡ length column.now * length column.now }
    ensures { IsColumnPut (length column.now) width k (weighed_at weights.now column.now) cells.old
        (length column.now) cells.new }
{
    let n = column.len();
    for r in 0..n {
        let at = r * n;
        cells[r * width + k] = sum_of_products(column, &weights[at..at + n]);
    }
}

/// Rows of cells: how many there are, and how many cells each has.
#[derive(Clone, Copy)]
struct Shape {
    count: usize,
    width: usize,
}

/// Reads the cells of a strip of columns, from column k on, row after row.
fn read_strip(cells: &[F], shape: Shape, k: usize, strip: &mut [F])
    requires size { length cells.now ≡ shape.count * shape.width }
    requires within { k + 32 ≤ shape.width }
    requires room { length strip.old ≡ shape.count * 32 }
    ensures { AreRead shape.width k 32 cells.now shape.count strip.new }
{
    for r in 0..shape.count {
        let at = r * shape.width + k;
        strip[r * STRIP..(r + 1) * STRIP].copy_from_slice(&cells[at..at + STRIP]);
    }
}

/// Writes the coefficients of a strip of columns over their cells, from column k on. `strip` is room
/// for the cells.
fn put_strip(cells: &mut [F], shape: Shape, k: usize, strip: &mut [F], weights: &[F])
    requires size { length cells.old ≡ shape.count * shape.width }
    requires within { k + 32 ≤ shape.width }
    requires room { length strip.old ≡ shape.count * 32 }
    requires few { shape.count ≤ 2 ^ 24 }
    requires weights { length weights.now ≡ shape.count * shape.count }
    ensures { AreColumnsPut weights.now shape.count shape.width k 32 cells.old cells.new }
{
    read_strip(cells, shape, k, strip);
    let n = shape.count;
    for r in 0..n {
        let at = r * shape.width + k;
        let row = &weights[r * n..(r + 1) * n];
        sum_columns(strip, row, &mut cells[at..at + STRIP]);
    }
}

/// Writes the coefficients of the first columns over their cells, a strip at a time, and returns
/// how many columns these are: none where that would take more time. `strip` is room for a strip.
fn put_strips(cells: &mut [F], shape: Shape, strip: &mut [F], weights: &[F]) -> usize
    requires size { length cells.old ≡ shape.count * shape.width }
    requires room { length strip.old ≡ shape.count * 32 }
    requires weights { length weights.now ≡ shape.count * shape.count }
    ensures within { result ≤ shape.width }
    ensures put { ArePutBefore weights.now shape.count shape.width cells.old result cells.new }
{
    if !sums_columns_at_once(shape.count, STRIP) {
        return 0;
    }
    let strips = shape.width / STRIP;
    for s in 0..strips {
        put_strip(cells, shape, s * STRIP, strip, weights);
    }
    strips * STRIP
}

/// Writes the coefficients of all columns over their cells. `column` is room for a column, and
/// `strip` for a strip of them.
fn put_columns(cells: &mut [F], width: usize, column: &mut [F], strip: &mut [F], weights: &[F])
    requires size { length cells.old ≡ length column.old * width }
    requires strip { length strip.old ≡ length column.old * 32 }
    requires weights { length weights.now ≡ length column.old * length column.old }
    ensures { AreCoefficients weights.now (length column.old) width cells.old cells.new }
{
    let shape = Shape {
        count: column.len(),
        width,
    };
    let done = put_strips(cells, shape, strip, weights);
    for k in done..width {
        copy_column(column, cells, width, k);
        put_column(cells, width, k, column, weights);
    }
}

/// Writes the coefficients of all columns over their cells, by weights: row t of the cells has the
/// values at the power of the root that is index t.
///
/// Takes memory for as many rows of as many cells as there are indices and of 33 more, and for the
/// transforms that give the weights.
pub(super) fn put_weighed(
    alloc: Global,
    indices: &[u32],
    cells: &mut [F],
    layout: Layout,
) -> Mem<()>
    requires indices { AreIndicesOf layout indices.now }
    requires size { length cells.old ≡ length indices.now * layout.width }
    ensures { OnOk result
        (HaveCellsAsValues layout.lg indices.now layout.width cells.old cells.new) }
{
    let n = indices.len();
    let mut weights = strip_room(alloc, n, n)?;
    write_weights(alloc, indices, layout, &mut weights)?;
    let mut column = strip_room(alloc, n, 1)?;
    let mut strip = strip_room(alloc, n, STRIP)?;
    put_columns(cells, layout.width, &mut column, &mut strip, &weights);
    Ok(())
}
