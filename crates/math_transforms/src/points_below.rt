//! Values at the points below a place of a tree of square roots, and back, counted.
//!
//! Let 2^lg rows hold the coefficients of polynomials, a column each, and let x^(2^lg) be g^2 at
//! the points, where g is the entry at the place. A polynomial is p(x) = l(x) + x^n h(x), where n
//! is half of the rows, l has the rows of the low half and h those of the high half. x^n is g at
//! one half of the points and -g at the other: so p has the values of l + g h at the one and those
//! of l - g h at the other, and both have half as many rows. A step takes two such levels in one
//! pass. If their number is odd, one is taken alone: of thirty-two rows, or of two where there are
//! fewer than thirty-two. Forward a step comes before its two or four parts, and on the way back
//! after them. Four rows at most are one step. A type may take the four levels of sixteen rows at
//! once. A weight is the same for all rows and columns of a half. The rows of coefficients are in
//! natural order and the values in that of the tree, so no row changes its place.
//!
//! Where there are at most as many coefficients as half of the rows, h is zero: p is l at both
//! halves of the points. So each half is given the same coefficients, until there are as many rows
//! as coefficients.
//!
//! A step counts before the rows are combined or turned, and as many butterflies as the rows in
//! hand have pairs of cells. So no loop counts, a type can turn rows in its own way, and a
//! step that is refused has counted something. Where a type takes four levels of sixteen rows at
//! once, which is never refused, these are counted behind it. The weights are compared with one,
//! once for all columns: that saves N - 1 products of a column, and no caller has to say where the
//! entries are one.

ghost use Rattle.std.specs.Prelude.{
  ◌≡◌,
  ◌+◌,
  ◌-◌,
  ◌*◌,
  ◌<◌,
  ◌≤◌,
  ◌^◌,
  IsOk,
  IsTrue,
  IsFalse,
  OnOk,
  OnErr,
  if◌then◌else◌,
  length,
};
ghost use Rattle.math_transforms.specs.CombinedCells.{AreCombined};
ghost use Rattle.math_transforms.specs.CountedWork.{AddsAllOrSome, AddsAtMost};
ghost use Rattle.math_transforms.specs.Quarters.{AreTurned};
ghost use Rattle.math_transforms.specs.StepsBelow.{AreStepped, AreTransformed};
ghost use Rattle.math_transforms.specs.RootTrees.{
  AreMultiplesAtPoints,
  ArePoints,
  AreValuesAtPoints,
  AreValuesOfFewAtPoints,
  entry,
};

mod quarters;

use crate::cells::copy_cells;
use crate::transform::butterflies::combine_rows;
use crate::transform::size_of;
use crate::work::Work;
use math_base::algebra::{Field, FieldNTT, Mem, Multiplicative, Object, Ring};
use quarters::{Weights, turn_rows};
use std::alloc::Global;

/// The 2^lg points below a place of a tree of square roots, in its order. The place 1 has all
/// points of the tree below it.
#[derive(Drop)]
pub struct Points<'a, F> {
    /// The tree.
    pub roots: &'a [F],
    /// The place, from 1 on.
    pub place: usize,
    /// The lg of the number of points.
    pub lg: u8,
}

/// Counts two levels of four rows of `cols` cells, and turns the rows by the entries at the place
/// and at both places below it.
fn turn_rows_at<F: FieldNTT, const FORWARD: bool>(
    alloc: Global,
    rows: &mut [F],
    cols: usize,
    points: &Points<'_, F>,
    work: &mut Work,
) -> Mem<()>
    requires points { ArePoints F.Ring F.MAX_LG_ROOT_ORDER
        (if FORWARD then F.root 2 else F.inverse (F.root 2)) points.now }
    requires two { 2 ≤ points.now.lg }
    requires inside { 2 * points.now.place + 2 ≤ length points.now.roots.now }
    requires size { length rows.old ≡ 4 * cols }
    requires room { work.old.butterflies + 4 * cols < 2 ^ 128 }
    ensures turned { OnOk result (AreTurned F.Ring FORWARD
        (entry F.Ring points.now.roots.now (2 * points.now.place))
        (entry F.Ring points.now.roots.now (2 * points.now.place + 1))
        (entry F.Ring points.now.roots.now points.now.place) cols rows.old rows.new) }
    ensures counted { work.new.butterflies ≡ work.old.butterflies + 4 * cols }
    ensures root_products { work.new.root_products ≡ work.old.root_products }
    ensures never { IsTrue F.NEVER_REFUSES → IsOk result }
{
    work.add_butterflies(rows.len());
    let roots = points.roots;
    let place = points.place;
    let below = 2 * place;
    let weights = Weights {
        e: &roots[below],
        f: &roots[below + 1],
        g: &roots[place],
    };
    turn_rows::<F, FORWARD>(alloc, rows, cols, &weights)?;
    Ok(())
}

/// Counts one level of two rows of `cols` cells, and combines them by the entry at the place.
fn combine_rows_at<F: FieldNTT, const FORWARD: bool>(
    alloc: Global,
    rows: &mut [F],
    cols: usize,
    points: &Points<'_, F>,
    work: &mut Work,
) -> Mem<()>
    requires inside { points.now.place < length points.now.roots.now }
    requires size { length rows.old ≡ 2 * cols }
    requires room { work.old.butterflies + cols < 2 ^ 128 }
    ensures combined { OnOk result (AreCombined F.Ring FORWARD
        (entry F.Ring points.now.roots.now points.now.place) cols rows.old rows.new) }
    ensures counted { work.new.butterflies ≡ work.old.butterflies + cols }
    ensures root_products { work.new.root_products ≡ work.old.root_products }
    ensures never { IsTrue F.NEVER_REFUSES → IsOk result }
{
    work.add_butterflies(cols);
    let roots = points.roots;
    let place = points.place;
    let w = &roots[place];
    combine_rows::<F, FORWARD>(alloc, rows, cols, w)?;
    Ok(())
}

/// How many of three levels or more one step takes: of thirty-two rows one, and of others two.
fn levels_of(lg: u8) -> u8
    requires three { 3 ≤ lg }
    ensures some { 1 ≤ result }
    ensures few { result ≤ 2 }
{
    if lg == 5 {
        return 1;
    }
    2
}

/// How many of the levels are taken before the parts: all forward, and none on the way back.
fn levels_before<const FORWARD: bool>(levels: u8) -> u8
    ensures before { result ≡ (if FORWARD then levels else 0) }
    ensures most { result ≤ levels }
{
    if FORWARD {
        return levels;
    }
    0
}

/// Counts so many levels, none, one or two, of 2^lg rows of `cols` cells, and takes them: two parts
/// of the rows are combined, or four are turned.
fn step<F: FieldNTT, const FORWARD: bool>(
    alloc: Global,
    rows: &mut [F],
    cols: usize,
    levels: u8,
    points: &Points<'_, F>,
    work: &mut Work,
) -> Mem<()>
    requires points { ArePoints F.Ring F.MAX_LG_ROOT_ORDER
        (if FORWARD then F.root 2 else F.inverse (F.root 2)) points.now }
    requires few { levels ≤ 2 }
    requires deep { levels ≤ points.now.lg }
    requires size { length rows.old ≡ 2 ^ points.now.lg * cols }
    requires some { cols < length rows.old }
    requires room { 2 * work.old.butterflies + levels * length rows.old < 2 ^ 129 }
    ensures stepped { OnOk result
        (AreStepped F.Ring FORWARD levels points.now cols rows.old rows.new) }
    ensures counted { 2 * work.new.butterflies
        ≡ 2 * work.old.butterflies + levels * length rows.old }
    ensures root_products { work.new.root_products ≡ work.old.root_products }
    ensures refused { OnErr result (work.old.butterflies < work.new.butterflies) }
    ensures never { IsTrue F.NEVER_REFUSES → IsOk result }
{
    if levels == 0 {
        return Ok(());
    }
    let part = size_of(points.lg - levels) * cols;
    if levels == 1 {
        combine_rows_at::<F, FORWARD>(alloc, rows, part, points, work)?;
        return Ok(());
    }
    turn_rows_at::<F, FORWARD>(alloc, rows, part, points, work)?;
    Ok(())
}

/// `transform_below` of four rows at most, by one step.
fn transform_few<F: FieldNTT, const FORWARD: bool>(
    alloc: Global,
    cells: &mut [F],
    cols: usize,
    points: &Points<'_, F>,
    work: &mut Work,
) -> Mem<()>
    requires points { ArePoints F.Ring F.MAX_LG_ROOT_ORDER
        (if FORWARD then F.root 2 else F.inverse (F.root 2)) points.now }
    requires few { points.now.lg ≤ 2 }
    requires size { length cells.old ≡ 2 ^ points.now.lg * cols }
    requires room { 2 * work.old.butterflies + cols * 2 ^ points.now.lg * points.now.lg < 2 ^ 129 }
    ensures done { OnOk result (AreTransformed F.Ring FORWARD points.now cols cells.old cells.new) }
    ensures counted { AddsAllOrSome (cols * 2 ^ points.now.lg * points.now.lg) result
        work.old work.new }
    ensures never { IsTrue F.NEVER_REFUSES → IsOk result }
{
    let count = cells.len();
    if count <= cols {
        return Ok(());
    }
    step::<F, FORWARD>(alloc, cells, cols, points.lg, points, work)?;
    Ok(())
}

/// `transform_below` of sixteen rows, if the type takes their four levels at once. Returns whether
/// it did.
fn transform_sixteen<F: FieldNTT, const FORWARD: bool>(
    cells: &mut [F],
    cols: usize,
    points: &Points<'_, F>,
    work: &mut Work,
) -> bool
    requires points { ArePoints F.Ring F.MAX_LG_ROOT_ORDER
        (if FORWARD then F.root 2 else F.inverse (F.root 2)) points.now }
    requires size { length cells.old ≡ 2 ^ points.now.lg * cols }
    requires room { 2 * work.old.butterflies + cols * 2 ^ points.now.lg * points.now.lg < 2 ^ 129 }
    ensures done { IsTrue result
        → AreTransformed F.Ring FORWARD points.now cols cells.old cells.new }
    ensures counted { IsTrue result → (2 * work.new.butterflies
        ≡ 2 * work.old.butterflies + cols * 2 ^ points.now.lg * points.now.lg) }
    ensures kept { IsFalse result → (cells.new ≡ cells.old) }
    ensures none_counted { IsFalse result → (work.new.butterflies ≡ work.old.butterflies) }
    ensures root_products { work.new.root_products ≡ work.old.root_products }
{
    if points.lg != 4 {
        return false;
    }
    let done = F::turn_sixteen_rows(cells, cols, points.roots, points.place, FORWARD);
    if done {
        work.add_butterflies(cells.len());
        work.add_butterflies(cells.len());
        return true;
    }
    false
}

/// Writes over 2^lg rows of coefficients the values at the points, or, on the way back, over rows
/// of values 2^lg times the coefficients.
///
/// A part of four rows at most is done without a call of itself. Otherwise most calls for one column
/// would be for four cells.
fn transform_below<F: FieldNTT, const FORWARD: bool>(
    alloc: Global,
    cells: &mut [F],
    cols: usize,
    points: &Points<'_, F>,
    work: &mut Work,
) -> Mem<()>
    requires points { ArePoints F.Ring F.MAX_LG_ROOT_ORDER
        (if FORWARD then F.root 2 else F.inverse (F.root 2)) points.now }
    requires size { length cells.old ≡ 2 ^ points.now.lg * cols }
    requires room { 2 * work.old.butterflies + cols * 2 ^ points.now.lg * points.now.lg < 2 ^ 129 }
    ensures done { OnOk result (AreTransformed F.Ring FORWARD points.now cols cells.old cells.new) }
    ensures counted { AddsAllOrSome (cols * 2 ^ points.now.lg * points.now.lg) result
        work.old work.new }
    ensures never { IsTrue F.NEVER_REFUSES → IsOk result }
{
    let count = cells.len();
    if count <= cols {
        return Ok(());
    }
    if points.lg <= 2 {
        transform_few::<F, FORWARD>(alloc, cells, cols, points, work)?;
        return Ok(());
    }
    let at_once = transform_sixteen::<F, FORWARD>(cells, cols, points, work);
    if at_once {
        return Ok(());
    }
    let levels = levels_of(points.lg);
    let first = levels_before::<FORWARD>(levels);
    step::<F, FORWARD>(alloc, cells, cols, first, points, work)?;
    let roots = points.roots;
    let lg = points.lg - levels;
    let parts = size_of(levels);
    let part = size_of(lg) * cols;
    for k in 0..parts {
        let place = parts * points.place + k;
        let from = k * part;
        let rows = &mut cells[from..from + part];
        if lg <= 2 {
            transform_few::<F, FORWARD>(alloc, rows, cols, &Points { roots, place, lg }, work)?;
            continue;
        }
        transform_below::<F, FORWARD>(alloc, rows, cols, &Points { roots, place, lg }, work)?;
    }
    step::<F, FORWARD>(alloc, cells, cols, levels - first, points, work)?;
    Ok(())
}

/// Writes over 2^lg rows of coefficients the values at the points, in their order.
///
/// Adds cols 2^lg lg / 2 butterflies. Where it is refused, the cells have some values, and one
/// butterfly or more is counted.
pub fn evaluate_below<F: FieldNTT>(
    alloc: Global,
    cells: &mut [F],
    cols: usize,
    points: &Points<'_, F>,
    work: &mut Work,
) -> Mem<()>
    requires points { ArePoints F.Ring F.MAX_LG_ROOT_ORDER (F.root 2) points.now }
    requires size { length cells.old ≡ 2 ^ points.now.lg * cols }
    requires room { 2 * work.old.butterflies + cols * 2 ^ points.now.lg * points.now.lg < 2 ^ 129 }
    ensures size { length cells.new ≡ length cells.old }
    ensures values { OnOk result (AreValuesAtPoints F.Ring points.now cols cells.old cells.new) }
    ensures counted { AddsAllOrSome (cols * 2 ^ points.now.lg * points.now.lg) result
        work.old work.new }
    ensures never { IsTrue F.NEVER_REFUSES → IsOk result }
{
    transform_below::<F, true>(alloc, cells, cols, points, work)?;
    Ok(())
}

/// Writes over 2^lg rows the values at the points, in their order, of the polynomials whose
/// coefficients are the first 2^part rows, whatever the further rows hold.
///
/// Adds cols 2^lg part / 2 butterflies. Where it is refused, the cells have some values.
pub fn evaluate_few_below<F: FieldNTT>(
    alloc: Global,
    cells: &mut [F],
    cols: usize,
    part: u8,
    points: &Points<'_, F>,
    work: &mut Work,
) -> Mem<()>
    requires points { ArePoints F.Ring F.MAX_LG_ROOT_ORDER (F.root 2) points.now }
    requires entries { length points.now.roots.now ≤ 2 ^ 63 }
    requires part { part ≤ points.now.lg }
    requires size { length cells.old ≡ 2 ^ points.now.lg * cols }
    requires room { 2 * work.old.butterflies + cols * 2 ^ points.now.lg * part < 2 ^ 129 }
    ensures size { length cells.new ≡ length cells.old }
    ensures values { OnOk result
        (AreValuesOfFewAtPoints F.Ring points.now part cols cells.old cells.new) }
    ensures counted { OnOk result (2 * work.new.butterflies
        ≡ 2 * work.old.butterflies + cols * 2 ^ points.now.lg * part) }
    ensures bounded { AddsAtMost (cols * 2 ^ points.now.lg * part) work.old work.new }
    ensures never { IsTrue F.NEVER_REFUSES → IsOk result }
{
    let lg = points.lg;
    if cols == 0 {
        return Ok(());
    }
    if lg == part {
        evaluate_below(alloc, cells, cols, points, work)?;
        return Ok(());
    }
    let size = size_of(lg - 1) * cols;
    let few = size_of(part) * cols;
    let (low, high) = cells.split_at_mut(size);
    copy_cells(alloc, low, high, few)?;
    let roots = points.roots;
    let first = 2 * points.place;
    let lg = lg - 1;
    let place = first;
    evaluate_few_below(alloc, low, cols, part, &Points { roots, place, lg }, work)?;
    let place = first + 1;
    evaluate_few_below(alloc, high, cols, part, &Points { roots, place, lg }, work)?;
    Ok(())
}

/// Writes over 2^lg rows of values, in the order of the points, 2^lg times the coefficients that
/// have these values there. The tree is that of the inverses of the points.
///
/// Adds cols 2^lg lg / 2 butterflies. Where it is refused, the cells have some values, and one
/// butterfly or more is counted.
pub fn interpolate_below<F: FieldNTT>(
    alloc: Global,
    cells: &mut [F],
    cols: usize,
    inverses: &Points<'_, F>,
    work: &mut Work,
) -> Mem<()>
    requires points { ArePoints F.Ring F.MAX_LG_ROOT_ORDER (F.inverse (F.root 2)) inverses.now }
    requires size { length cells.old ≡ 2 ^ inverses.now.lg * cols }
    requires room { 2 * work.old.butterflies + cols * 2 ^ inverses.now.lg * inverses.now.lg
        < 2 ^ 129 }
    ensures size { length cells.new ≡ length cells.old }
    ensures values { OnOk result
        (AreMultiplesAtPoints F.Ring inverses.now cols cells.old cells.new) }
    ensures counted { AddsAllOrSome (cols * 2 ^ inverses.now.lg * inverses.now.lg) result
        work.old work.new }
    ensures never { IsTrue F.NEVER_REFUSES → IsOk result }
{
    transform_below::<F, false>(alloc, cells, cols, inverses, work)?;
    Ok(())
}
