//! Rows beside the values of polynomials.
//!
//! Polynomials of `min` coefficients are evaluated at the N = 2^lg powers of a root w, coset by
//! coset. Let m = 2^l be `min` or more. The powers of w are the N / m cosets w^s times the powers
//! of w^(N / m), which are those of the root of order m. The value of p at w^s times such a power
//! is that of the polynomial whose coefficient r is p's times w^(s r). So a coset takes a product
//! for each coefficient and a transform of m rows, and where `min` is far below N that is far less
//! than a transform of N rows. The columns are taken strip by strip, so that a coset stays in a
//! cache near the processor.
//!
//! All rows are compared, also those that the coefficients were made of: that the data fit follows
//! from the comparison, however the coefficients were found. Each coset looks at each row once, so
//! there are no more cosets than twice the cells of a row.

ghost use Rattle.std.specs.Prelude.{◌≡◌, ◌↔◌, ◌+◌, ◌-◌, ◌*◌, ◌/◌, ◌%◌, ◌<◌, ◌≤◌, ◌^◌, All, length};
ghost use Rattle.std.specs.Prelude.{IfOk, IsTrue};
ghost use Rattle.math_transforms.specs.DomainValues.{matrix_of};
ghost use Rattle.math_shards.specs.Cosets.{AreCosetValues, AreMultiples, HasCosetCells};
ghost use Rattle.math_shards.specs.Cosets.{HasValuesFrom, coefficients_of};
ghost use Rattle.math_shards.specs.Fitting.{AreRowsOf, HasValuesOf};
ghost use Rattle.math_splitting.specs.Strips.{IsTableOf};

use super::polynomials::Columns;
use super::rows::Row;
use math_base::algebra::Mem;
use math_fields::goldilocks::F;
use math_splitting::shards::{Layout, Strip};
use math_transforms::transform::{evaluate_rows, evaluation_table, size_of};
use math_transforms::work::Work;
use math_values::strips::{most_cols, strip_room};
use std::alloc::Global;

/// How many cells a strip of a coset has at most, where eight columns have no more.
const COSET_CELLS: usize = 16384;

/// The lg of how many points a coset has: there are as many as coefficients, or more, and no more
/// cosets than twice the width.
fn coset_lg(layout: Layout) -> u8
    ensures enough { layout.min ≤ 2 ^ result }
    ensures within { result ≤ layout.lg }
{
    let wide = usize::BITS - layout.width.saturating_sub(1).leading_zeros();
    layout.part().max(layout.lg.saturating_sub(wide as u8))
}

/// Writes over the cells the items, each times the factor.
fn write_multiples(cells: &mut [F], items: &[F], factor: F)
    requires { length cells.old ≡ length items.now }
    ensures { AreMultiples items.now factor cells.new }
{
    let items = &items[..cells.len()];
    for k in 0..cells.len() {
        cells[k] = items[k] * factor;
    }
}

/// Writes over the cells the values of the columns at `ratio` times the powers of the root of order
/// 2^lg: a row for each power. The table is that of `evaluation_table`. Takes no memory.
fn write_coset(alloc: Global, columns: Columns<'_>, ratio: F, lg: u8, table: &[F], cells: &mut [F])
    requires points { columns.strip.layout.min ≤ 2 ^ lg }
    requires domain { lg ≤ 32 }
    requires size { length cells.old ≡ 2 ^ lg * columns.strip.cols }
    requires table { IsTableOf lg table.now }
    ensures { AreCosetValues (coefficients_of columns.entry) columns.entry.strip.from
        columns.entry.strip.cols ratio lg cells.new }
{
    let elements = columns.elements;
    let min = columns.strip.layout.min as usize;
    let width = columns.strip.layout.width;
    let from = columns.strip.from;
    let cols = columns.strip.cols;
    cells[..cols].copy_from_slice(&elements[from..from + cols]);
    let mut factor = ratio;
    for row in 1..min {
        let place = row * cols;
        let at = row * width + from;
        write_multiples(
            &mut cells[place..place + cols],
            &elements[at..at + cols],
            factor,
        );
        factor = factor * ratio;
    }
    cells[min * cols..].fill(F::from(0));
    let Ok(()) = evaluate_rows(alloc, cells, cols, lg, table, &mut Work::new()) else {
        unreachable!()
    };
}

/// In which of 2^stride cosets the point of this index is, and in which place of it.
fn place_of(index: usize, stride: u8) -> (usize, usize)
    requires { stride ≤ 32 }
    ensures coset { result.0 ≡ index % 2 ^ stride }
    ensures place { result.1 ≡ index / 2 ^ stride }
{
    let place = index >> stride;
    (index - (place << stride), place)
}

/// Whether the row has the cells of a coset in the columns of the strip, where its index is `start`
/// and a multiple of 2^stride.
fn has_coset<R: Row>(row: &R, cells: &[F], strip: Strip, start: usize, stride: u8) -> bool
    requires small { stride ≤ 32 }
    requires row { (R.index row.now / 2 ^ stride + 1) * strip.cols ≤ length cells.now }
    requires count { length (R.cells row.now) ≡ strip.layout.width }
    ensures { IsTrue result ↔ HasCosetCells cells.now strip.cols strip.from start stride
        (R.index row.now) (R.cells row.now) }
{
    let (coset, place) = place_of(row.index() as usize, stride);
    if coset != start {
        return true;
    }
    let at = place * strip.cols;
    row.has_values(strip.from, &cells[at..at + strip.cols])
}

/// Whether each row whose index is `start` and a multiple of 2^stride has the cells of a coset in
/// the columns of the strip.
fn have_coset<R: Row>(rows: &[R], cells: &[F], strip: Strip, start: usize, stride: u8) -> bool
    requires small { stride ≤ 32 }
    requires rows { All (λ row. (R.index row / 2 ^ stride + 1) * strip.cols ≤ length cells.now)
        rows.now }
    requires count { All (λ row. length (R.cells row) ≡ strip.layout.width) rows.now }
    ensures { IsTrue result ↔ All (λ row. HasCosetCells cells.now strip.cols strip.from start
        stride (R.index row) (R.cells row)) rows.now }
{
    for row in rows {
        if !has_coset(row, cells, strip, start, stride) {
            return false;
        }
    }
    true
}

/// Whether the rows have the values of the columns, coset by coset of 2^lg points.
fn have_columns<R: Row>(
    alloc: Global,
    rows: &[R],
    columns: Columns<'_>,
    lg: u8,
    table: &[F],
    cells: &mut [F],
) -> bool
    requires points { columns.strip.layout.min ≤ 2 ^ lg }
    requires part { lg ≤ columns.strip.layout.lg }
    requires size { length cells.old ≡ 2 ^ lg * columns.strip.cols }
    requires table { IsTableOf lg table.now }
    requires rows { AreRowsOf R.index R.cells columns.strip.layout rows.now }
    ensures { IsTrue result ↔ All (λ row. HasValuesFrom columns.entry.strip.layout.lg
        (coefficients_of columns.entry) columns.entry.strip.from columns.entry.strip.cols
        (R.index row) (R.cells row)) rows.now }
{
    let Some(root) = F::root_of_unity(columns.strip.layout.lg) else {
        unreachable!()
    };
    let stride = columns.strip.layout.lg - lg;
    let mut ratio = F::from(1);
    for start in 0..size_of(stride) {
        write_coset(alloc, columns, ratio, lg, table, cells);
        if !have_coset(rows, cells, columns.strip, start, stride) {
            return false;
        }
        ratio = ratio * root;
    }
    true
}

/// Whether the rows have the values of all columns, strip by strip of at most as many columns as
/// the room has in 2^lg rows.
fn have_strips<R: Row>(
    alloc: Global,
    rows: &[R],
    columns: Columns<'_>,
    lg: u8,
    table: &[F],
    room: &mut [F],
) -> bool
    requires points { columns.strip.layout.min ≤ 2 ^ lg }
    requires part { lg ≤ columns.strip.layout.lg }
    requires room { 2 ^ lg ≤ length room.old }
    requires table { IsTableOf lg table.now }
    requires rows { AreRowsOf R.index R.cells columns.strip.layout rows.now }
    ensures { IsTrue result ↔ All (λ row. HasValuesOf columns.entry.strip.layout.lg
        (coefficients_of columns.entry) (R.index row) (R.cells row)) rows.now }
{
    let layout = columns.strip.layout;
    let elements = columns.elements;
    let most = room.len() >> lg;
    let mut from = 0;
    while from < layout.width {
        let cols = most.min(layout.width - from);
        let strip = Strip { layout, from, cols };
        let part = Columns { elements, strip };
        if !have_columns(
            alloc,
            rows,
            part,
            lg,
            table,
            &mut room[..size_of(lg) * cols],
        ) {
            return false;
        }
        from += cols;
    }
    true
}

/// Whether each row has the values, at the power of the root that is its index, of the polynomials
/// whose coefficients are the columns of the elements, row by row.
///
/// Takes memory for a table of as many elements as a coset has points, and for one strip of it.
pub(super) fn have_values<R: Row>(
    alloc: Global,
    rows: &[R],
    elements: &[F],
    layout: Layout,
) -> Mem<bool>
    requires size { length elements.now ≡ layout.min * layout.width }
    requires rows { AreRowsOf R.index R.cells layout rows.now }
    ensures { IfOk result (λ answer. IsTrue answer ↔ All (λ row. HasValuesOf layout.lg
        (matrix_of layout.min layout.width elements.now) (R.index row) (R.cells row))
        rows.now) }
{
    let from = 0;
    let cols = layout.width;
    let strip = Strip { layout, from, cols };
    let columns = Columns { elements, strip };
    let lg = coset_lg(layout);
    let table = evaluation_table::<F>(alloc, lg)?;
    let most = most_cols(COSET_CELLS, lg, layout.width);
    let mut room = strip_room(alloc, size_of(lg), most)?;
    Ok(have_strips(alloc, rows, columns, lg, &table, &mut room))
}
