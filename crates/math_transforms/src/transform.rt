//! Number theoretic transforms of rows of cells, in place and counted.
//!
//! The tree of the powers of a root of order 2^lg has them below its first place: there the rows of
//! values stand in bit-reversed order, in which row i stands at the place whose bits are those of i
//! in the opposite order. `evaluate_below` and `interpolate_below` lead from coefficients in
//! natural order to values in that of the tree, and back. `evaluate_rows` and `interpolate_rows`
//! have both in natural order: they put the rows of values in the other order after the one, and
//! before the other. `evaluate_rows_reversed` and `evaluate_few` leave them in that of the tree.
//!
//! The way back gives 2^lg times the coefficients, so that in the end each cell is multiplied once
//! by 1 / 2^lg.

ghost use Rattle.std.specs.Prelude.{
  ◌≡◌,
  ◌+◌,
  ◌-◌,
  ◌*◌,
  ◌<◌,
  ◌≤◌,
  ◌^◌,
  IfOk,
  IsOk,
  IsTrue,
  OnOk,
  length,
};
ghost use Rattle.std.specs.Int.{IsPowerOfTwo};
ghost use Rattle.math_theory.specs.Powers.{power};
ghost use Rattle.math_transforms.specs.Domains.{IsDomain};
ghost use Rattle.math_transforms.specs.CosetValues.{AreMultiplesAtPowers};
ghost use Rattle.math_transforms.specs.CountedWork.{AddsAllOrSome, AddsAtMost};
ghost use Rattle.math_transforms.specs.DomainValues.{
  matrix_of,
  AreReversedValuesAtPowers,
  AreValuesAtPowers,
};
ghost use Rattle.math_transforms.specs.RootTrees.{IsTreeOf};

pub(crate) mod butterflies;
pub mod coset;
pub mod order;

use super::points_below::{Points, evaluate_below, evaluate_few_below, interpolate_below};
use super::row_products::multiply_row;
use super::trees::domain_tree;
use super::work::Work;
use math_base::algebra::{Field, FieldNTT, Mem, Multiplicative, Object, Ring};
use order::reverse_rows;
use std::alloc::Global;

/// The lg of a power of two.
pub fn lg_of(count: usize) -> u8
    requires { IsPowerOfTwo count }
    ensures value { count ≡ 2 ^ result }
    ensures small { result < 64 }
{
    count.trailing_zeros() as u8
}

/// 2^lg.
pub fn size_of(lg: u8) -> usize
    requires { lg < 64 }
    ensures { result ≡ 2 ^ lg }
{
    1 << lg
}

/// The table for `evaluate_rows` at 2^lg rows: the tree of the powers of the root, of 2^lg entries.
pub fn evaluation_table<F: FieldNTT>(alloc: Global, lg: u8) -> Mem<Vec<F>>
    requires domain { IsDomain F.MAX_LG_ROOT_ORDER lg }
    ensures { IfOk result (λ table. IsTreeOf F.Ring F.root F.one lg table.items) }
{
    let table = domain_tree::<F, true>(alloc, lg)?;
    Ok(table)
}

/// The table for `interpolate_rows` at 2^lg rows: the tree of the powers of the inverse of the
/// root, of 2^lg entries.
pub fn interpolation_table<F: FieldNTT>(alloc: Global, lg: u8) -> Mem<Vec<F>>
    requires domain { IsDomain F.MAX_LG_ROOT_ORDER lg }
    ensures { IfOk result
        (λ table. IsTreeOf F.Ring (λ l. F.inverse (F.root l)) F.one lg table.items) }
{
    let table = domain_tree::<F, false>(alloc, lg)?;
    Ok(table)
}

/// Turns 2^lg rows of coefficients into rows of values: in each column cell j becomes the value at
/// power j of the root of order 2^lg. Both are in natural order.
///
/// Adds cols 2^lg lg / 2 butterflies. Where it is refused, the cells have some values, and one
/// butterfly or more is counted.
pub fn evaluate_rows<F: FieldNTT>(
    alloc: Global,
    cells: &mut [F],
    cols: usize,
    lg: u8,
    table: &[F],
    work: &mut Work,
) -> Mem<()>
    requires domain { IsDomain F.MAX_LG_ROOT_ORDER lg }
    requires size { length cells.old ≡ 2 ^ lg * cols }
    requires table { IsTreeOf F.Ring F.root F.one lg table.now }
    requires room { 2 * work.old.butterflies + cols * 2 ^ lg * lg < 2 ^ 129 }
    ensures size { length cells.new ≡ length cells.old }
    ensures values { OnOk result (AreValuesAtPowers F.Ring (F.root lg)
        (matrix_of (2 ^ lg) cols cells.old) (matrix_of (2 ^ lg) cols cells.new)) }
    ensures counted { AddsAllOrSome (cols * 2 ^ lg * lg) result work.old work.new }
    ensures never { IsTrue F.NEVER_REFUSES → IsOk result }
{
    evaluate_rows_reversed(alloc, cells, cols, lg, table, work)?;
    reverse_rows(cells, cols, lg);
    Ok(())
}

/// As `evaluate_rows`, but the rows of values are left in the order of the tree: that of power j
/// is row `reverse_bits(j, lg)`. A caller that reads each row once, by `reversed_row`, does without
/// the pass that puts them in order.
pub fn evaluate_rows_reversed<F: FieldNTT>(
    alloc: Global,
    cells: &mut [F],
    cols: usize,
    lg: u8,
    table: &[F],
    work: &mut Work,
) -> Mem<()>
    requires domain { IsDomain F.MAX_LG_ROOT_ORDER lg }
    requires size { length cells.old ≡ 2 ^ lg * cols }
    requires table { IsTreeOf F.Ring F.root F.one lg table.now }
    requires room { 2 * work.old.butterflies + cols * 2 ^ lg * lg < 2 ^ 129 }
    ensures size { length cells.new ≡ length cells.old }
    ensures values { OnOk result (AreReversedValuesAtPowers F.Ring (F.root lg) lg
        (matrix_of (2 ^ lg) cols cells.old) (matrix_of (2 ^ lg) cols cells.new)) }
    ensures counted { AddsAllOrSome (cols * 2 ^ lg * lg) result work.old work.new }
    ensures never { IsTrue F.NEVER_REFUSES → IsOk result }
{
    let points = Points {
        roots: table,
        place: 1,
        lg,
    };
    evaluate_below(alloc, cells, cols, &points, work)?;
    Ok(())
}

/// As `evaluate_rows_reversed`, for polynomials of few coefficients: the first 2^part rows hold
/// these, and what the further rows hold does not matter. All 2^lg rows become values.
///
/// x^(2^part) is one of 2^(lg - part) numbers at the points, and 2^part points have each of them:
/// those below one place of the tree. So each block of 2^part rows is given the coefficients, and
/// becomes the values below its own place. The levels above that, which `evaluate_rows` begins
/// with, are left out.
///
/// Adds cols 2^lg part / 2 butterflies. Where it is refused, the cells have some values.
pub fn evaluate_few<F: FieldNTT>(
    alloc: Global,
    cells: &mut [F],
    cols: usize,
    lg: u8,
    part: u8,
    table: &[F],
    work: &mut Work,
) -> Mem<()>
    requires domain { IsDomain F.MAX_LG_ROOT_ORDER lg }
    requires part { part ≤ lg }
    requires size { length cells.old ≡ 2 ^ lg * cols }
    requires table { IsTreeOf F.Ring F.root F.one lg table.now }
    requires room { 2 * work.old.butterflies + cols * 2 ^ lg * part < 2 ^ 129 }
    ensures size { length cells.new ≡ length cells.old }
    ensures values { OnOk result (AreReversedValuesAtPowers F.Ring (F.root lg) lg
        (matrix_of (2 ^ part) cols cells.old) (matrix_of (2 ^ lg) cols cells.new)) }
    ensures counted { OnOk result
        (2 * work.new.butterflies ≡ 2 * work.old.butterflies + cols * 2 ^ lg * part) }
    ensures bounded { AddsAtMost (cols * 2 ^ lg * part) work.old work.new }
    ensures never { IsTrue F.NEVER_REFUSES → IsOk result }
{
    let points = Points {
        roots: table,
        place: 1,
        lg,
    };
    evaluate_few_below(alloc, cells, cols, part, &points, work)?;
    Ok(())
}

/// Turns 2^lg rows of values, at the powers of the root of order 2^lg, into rows of the
/// coefficients of the polynomials that have them. Both are in natural order.
///
/// Adds cols 2^lg lg / 2 butterflies. Where it is refused, the cells have some values, and one
/// butterfly or more is counted.
pub fn interpolate_rows<F: FieldNTT>(
    alloc: Global,
    cells: &mut [F],
    cols: usize,
    lg: u8,
    table: &[F],
    work: &mut Work,
) -> Mem<()>
    requires domain { IsDomain F.MAX_LG_ROOT_ORDER lg }
    requires size { length cells.old ≡ 2 ^ lg * cols }
    requires table { IsTreeOf F.Ring (λ l. F.inverse (F.root l)) F.one lg table.now }
    requires room { 2 * work.old.butterflies + cols * 2 ^ lg * lg < 2 ^ 129 }
    ensures size { length cells.new ≡ length cells.old }
    ensures values { OnOk result (AreValuesAtPowers F.Ring (F.root lg)
        (matrix_of (2 ^ lg) cols cells.new) (matrix_of (2 ^ lg) cols cells.old)) }
    ensures counted { AddsAllOrSome (cols * 2 ^ lg * lg) result work.old work.new }
    ensures never { IsTrue F.NEVER_REFUSES → IsOk result }
{
    interpolate_multiples(alloc, cells, cols, lg, table, work)?;
    let count = cells.len();
    if count <= cols {
        return Ok(());
    }
    let factor = size_inverse(alloc, lg)?;
    multiply_row(alloc, cells, &factor)?;
    Ok(())
}

/// As `interpolate_rows`, but each coefficient is multiplied by 2^lg: a caller that multiplies the
/// rows by other factors as well can divide by it in the same pass over the cells.
pub fn interpolate_multiples<F: FieldNTT>(
    alloc: Global,
    cells: &mut [F],
    cols: usize,
    lg: u8,
    table: &[F],
    work: &mut Work,
) -> Mem<()>
    requires domain { IsDomain F.MAX_LG_ROOT_ORDER lg }
    requires size { length cells.old ≡ 2 ^ lg * cols }
    requires table { IsTreeOf F.Ring (λ l. F.inverse (F.root l)) F.one lg table.now }
    requires room { 2 * work.old.butterflies + cols * 2 ^ lg * lg < 2 ^ 129 }
    ensures size { length cells.new ≡ length cells.old }
    ensures values { OnOk result (AreMultiplesAtPowers F.Ring (F.root lg) lg
        (matrix_of (2 ^ lg) cols cells.new) (matrix_of (2 ^ lg) cols cells.old)) }
    ensures counted { AddsAllOrSome (cols * 2 ^ lg * lg) result work.old work.new }
    ensures never { IsTrue F.NEVER_REFUSES → IsOk result }
{
    if lg == 0 {
        return Ok(());
    }
    reverse_rows(cells, cols, lg);
    let inverses = Points {
        roots: table,
        place: 1,
        lg,
    };
    interpolate_below(alloc, cells, cols, &inverses, work)?;
    Ok(())
}

/// 1 / 2^lg: one, halved lg times.
pub fn size_inverse<F: FieldNTT>(alloc: Global, lg: u8) -> Mem<F>
    ensures inverse { IfOk result
        (λ x. F.same (F.product x (power F.one F.product (F.sum F.one F.one) lg)) F.one) }
    ensures never { IsTrue F.NEVER_REFUSES → IsOk result }
{
    let mut out = F::one(alloc)?;
    for _done in 0..lg {
        out = out.div_2(alloc)?;
    }
    Ok(out)
}
