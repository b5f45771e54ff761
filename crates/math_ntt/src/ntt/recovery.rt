//! Recovery of polynomials from some of the rows of their values.
//!
//! Let the domain have N points, and let V be a polynomial that vanishes at exactly the points of
//! the missing rows. Let f be the polynomial that fits the filled cells of a column: its
//! coefficients from the number of filled rows on are zero, so that f V has at most N coefficients.
//! On the domain the values of f V are the cells times the values of V, whatever the missing cells
//! hold, since V is zero there. So interpolation gives f V. On the domain V has zeros, so f V can't
//! be divided by it. On the coset of the domain by the shift V has none: f V and V are evaluated
//! there, the quotients are values of f, and these are interpolated. The points of the coset are a
//! tree with another start, so only the tree changes from the one to the other. Rows are put in the
//! order of the trees once, at the beginning.
//!
//! One inversion serves all divisions. If no row is filled, the answer is zero. If all are, it is
//! what has the cells as its values. Neither takes a polynomial that vanishes, and each is one
//! interpolation.
//!
//! Both dividends and divisor are N times the values on the coset, and 1 / N is in the numerator of
//! the quotients. So no pass multiplies by powers of the shift or divides by N.

ghost use Rattle.std.specs.Prelude.{
  ◌≡◌,
  ◌+◌,
  ◌*◌,
  ◌<◌,
  ◌≤◌,
  ◌^◌,
  ℕ,
  IfOk,
  IsOk,
  IsTrue,
  OnOk,
  OnErr,
  length,
};
ghost use Rattle.std.specs.List.{All};
ghost use Rattle.math_theory.specs.Recovery.{count_true};
ghost use Rattle.math_transforms.specs.CosetValues.{AreMovedValues};
ghost use Rattle.math_transforms.specs.CountedWork.{AddsAllOrSome};
ghost use Rattle.math_transforms.specs.DomainValues.{matrix_of, AreValuesAtPowers, HasDomain};
ghost use Rattle.math_transforms.specs.Matrices.{IsOfSize};
ghost use Rattle.math_transforms.specs.MissingPoints.{count_false};
ghost use Rattle.math_ntt.specs.AddedWork.{
  AddsAtMostOneRecovery,
  AddsOneRecovery,
  HasRoom,
  IsOneTransform,
};
ghost use Rattle.math_ntt.specs.DomainTrees.{AreTrees};
ghost use Rattle.math_ntt.specs.Evaluations.{evaluations_of, IsDomainLg};
ghost use Rattle.math_ntt.specs.RecoveredRows.{
  AreDivided,
  AreQuotientsOfValues,
  AreRecovered,
  AreOnlyRecovered,
  IsExactWork,
  IsRecovery,
  IsRefusal,
};

use super::evaluations::EvaluationVector;
use super::matrix::Matrix;
use super::polynomials::PolynomialVector;
use math_base::algebra::{Additive, FieldNTT, Mem};
use math_base::weights::quotients;
use math_transforms::points_below::{Points, evaluate_below, interpolate_below};
use math_transforms::row_products::multiply_rows;
use math_transforms::transform::coset::move_rows;
use math_transforms::transform::order::reverse_rows;
use math_transforms::transform::{
    evaluation_table, interpolate_rows, interpolation_table, lg_of, size_inverse, size_of,
};
use math_transforms::trees::start_at;
use math_transforms::vanishing::vanishing_coefficients;
use math_transforms::vanishing_points::VanishingPoints;
use math_transforms::work::Work;
use std::alloc::Global;

/// The trees of square roots of 2^lg points: that of the points, and that of their inverses.
#[derive(Drop)]
struct Trees<F: Drop> {
    lg: u8,
    points: Vec<F>,
    inverses: Vec<F>,
}

impl<F: FieldNTT> EvaluationVector<F> {
    /// Recovers the polynomials from the filled rows.
    ///
    /// Let N be the number of rows, and m that of the filled ones. The polynomial of a column has
    /// the cells of the filled rows as its values. It has N coefficients, and those from m on are
    /// zero. It is the only such polynomial.
    ///
    /// lg N is at most `F::MAX_LG_ROOT_ORDER`. It takes memory for about five columns of cells: the
    /// coefficients stand where the cells stood.
    ///
    /// ```
    /// let mut values = EvaluationVector::empty(alloc, 2, 1)?;
    /// values.fill_row(alloc, 0, &[F::from(7)])?;
    /// values.fill_row(alloc, 2, &[F::from(3)])?;
    /// values.recover(alloc)?.data().into_cells(); // [5, 2, 0, 0]
    /// ```
    pub fn recover(self, alloc: Global) -> Mem<PolynomialVector<F>>
        requires domain { HasDomain F.MAX_LG_ROOT_ORDER self.matrix.rows }
        ensures size { IfOk result (λ v. IsOfSize v self.matrix.rows self.matrix.cols) }
        ensures fits { IfOk result (λ v. AreRecovered F.Ring F.root self v) }
        ensures only { IfOk result (λ v. AreOnlyRecovered F.Ring F.root self v) }
    {
        let mut work = Work::new();
        let out = self.recover_counted(alloc, &mut work)?;
        Ok(out)
    }

    /// Does what `recover` does, and adds the work that was done.
    ///
    /// At entry `work` has at most 2^127 butterflies and at most 2^127 root products. Whatever the
    /// outcome, the call adds at most N lg N (3 lg N + 3 c + 2) / 2 butterflies and 128 N root
    /// products, c being the number of columns.
    ///
    /// A call that succeeds adds:
    ///
    /// - c N lg N / 2 butterflies and no root product, if no row or all rows are filled;
    /// - at least N lg N (3 c + 3) / 2 butterflies, if v rows are missing, some and not all. If
    ///   lg N is at most 8, it adds just these, and v (v + 1) / 2 root products.
    ///
    /// If no row or all rows are filled, or lg N is at most 8, a refused call adds no more than one
    /// that succeeds. If lg N is at most 8, it adds no butterfly before all root products.
    ///
    /// If calls on elements are never refused, the call takes its own memory at a few places, and a
    /// refused one adds what stands before that place:
    ///
    /// - nothing, if no row or all rows are filled;
    /// - if some rows are missing and lg N is at most 8: no butterfly; or all root products and
    ///   N lg N (2 c + 3) / 2 butterflies, all but those of the way back from the coset.
    ///
    /// ```
    /// let mut values = EvaluationVector::empty(alloc, 1, 1)?;
    /// values.fill_row(alloc, 1, &[F::from(4)])?;
    /// let mut work = Work::new();
    /// values.recover_counted(alloc, &mut work)?.data().into_cells(); // [4, 0]
    /// work.butterflies(); // 6
    /// ```
    pub fn recover_counted(self, alloc: Global, work: &mut Work) -> Mem<PolynomialVector<F>>
        requires domain { HasDomain F.MAX_LG_ROOT_ORDER self.matrix.rows }
        requires room { work.old.butterflies ≤ 2 ^ 127 }
        requires product_room { work.old.root_products ≤ 2 ^ 127 }
        ensures size { IfOk result (λ v. IsOfSize v self.matrix.rows self.matrix.cols) }
        ensures fits { IfOk result (λ v. AreRecovered F.Ring F.root self v) }
        ensures only { IfOk result (λ v. AreOnlyRecovered F.Ring F.root self v) }
        ensures most { (lg : ℕ) → self.matrix.rows ≡ 2 ^ lg
            → AddsAtMostOneRecovery self.matrix.rows lg self.matrix.cols work.old work.new }
        ensures exact { IfOk result (λ _. (lg : ℕ) → self.matrix.rows ≡ 2 ^ lg
            → IsExactWork lg self work.old work.new) }
        ensures refused { OnErr result ((lg : ℕ) → self.matrix.rows ≡ 2 ^ lg
            → IsRefusal F.NEVER_REFUSES lg self work.old work.new) }
    {
        let mut matrix = self.matrix;
        let lg = lg_of(matrix.rows);
        recovered_cells(
            alloc,
            &mut matrix.cells,
            matrix.cols,
            &self.filled,
            lg,
            work,
        )?;
        Ok(PolynomialVector {
            coefficients: matrix,
        })
    }
}

/// The coefficients that fit the cells, whatever rows are filled.
pub(super) fn recovered_cells<F: FieldNTT>(
    alloc: Global,
    cells: &mut [F],
    cols: usize,
    points: &VanishingPoints,
    lg: u8,
    work: &mut Work,
) -> Mem<()>
    requires lg { IsDomainLg F.MAX_LG_ROOT_ORDER lg }
    requires size { length cells.old ≡ 2 ^ lg * cols }
    requires points { length points.now ≡ 2 ^ lg }
    requires room { HasRoom work.old }
    requires fits { 2 ^ lg * cols < 2 ^ 64 }
    ensures recovered { OnOk result (IsRecovery F.Ring F.root lg
        (evaluations_of (matrix_of (2 ^ lg) cols cells.old) points.now)
        (matrix_of (2 ^ lg) cols cells.new) work.old work.new) }
    ensures refused { OnErr result (IsRefusal F.NEVER_REFUSES lg
        (evaluations_of (matrix_of (2 ^ lg) cols cells.old) points.now) work.old work.new) }
    ensures most { AddsOneRecovery lg cols work.old work.new }
{
    let filled = points.count_non_vanishing() as usize;
    if filled == 0 {
        zeros(alloc, cells)?;
        interpolate_cells(alloc, cells, cols, lg, work)?;
        return Ok(());
    }
    if filled == size_of(lg) {
        interpolate_cells(alloc, cells, cols, lg, work)?;
        return Ok(());
    }
    recover_cells(alloc, cells, cols, points, lg, work)?;
    Ok(())
}

/// Puts zero in place of each cell.
fn zeros<F: Additive>(alloc: Global, cells: &mut [F]) -> Mem<()>
    ensures { OnOk result (All (λ cell. F.same cell F.zero) cells.new) }
{
    for cell in cells.iter_mut() {
        let zero = F::zero(alloc)?;
        *cell = zero;
    }
    Ok(())
}

/// The coefficients of the polynomials whose values the cells are, by a table of its own.
fn interpolate_cells<F: FieldNTT>(
    alloc: Global,
    cells: &mut [F],
    cols: usize,
    lg: u8,
    work: &mut Work,
) -> Mem<()>
    requires lg { IsDomainLg F.MAX_LG_ROOT_ORDER lg }
    requires size { length cells.old ≡ 2 ^ lg * cols }
    requires room { 2 * work.old.butterflies + cols * 2 ^ lg * lg < 2 ^ 129 }
    ensures values { OnOk result
        (AreValuesAtPowers F.Ring (F.root lg) (matrix_of (2 ^ lg) cols cells.new)
        (matrix_of (2 ^ lg) cols cells.old)) }
    ensures work { IsOneTransform F.NEVER_REFUSES (cols * 2 ^ lg * lg) result work.old work.new }
{
    let table = interpolation_table(alloc, lg)?;
    interpolate_rows(alloc, cells, cols, lg, &table, work)?;
    Ok(())
}

/// 2^lg times the values of the polynomials, and those of V, on the coset: both were values on the
/// domain. All are in bit-reversed order.
fn moved_to_coset<F: FieldNTT>(
    alloc: Global,
    cells: &mut [F],
    cols: usize,
    vanishing: &mut [F],
    trees: &Trees<F>,
    work: &mut Work,
) -> Mem<()>
    requires trees { AreTrees F.Ring F.MAX_LG_ROOT_ORDER F.inverse F.root F.shift F.one trees.now }
    requires size { length cells.old ≡ 2 ^ trees.now.lg * cols }
    requires vanishing_size { length vanishing.old ≡ 2 ^ trees.now.lg }
    requires room { 2 * work.old.butterflies
        + (cols + cols + 2) * 2 ^ trees.now.lg * trees.now.lg < 2 ^ 129 }
    ensures cells { OnOk result (AreMovedValues F.Ring (F.root trees.now.lg) F.shift trees.now.lg
        cols cells.old cells.new) }
    ensures vanishing { OnOk result (AreMovedValues F.Ring (F.root trees.now.lg) F.shift
        trees.now.lg 1 vanishing.old vanishing.new) }
    ensures counted { AddsAllOrSome ((cols + cols + 2) * 2 ^ trees.now.lg * trees.now.lg) result
        work.old work.new }
    ensures never { IsTrue F.NEVER_REFUSES → IsOk result }
{
    move_rows(
        alloc,
        vanishing,
        1,
        trees.lg,
        &trees.inverses,
        &trees.points,
        work,
    )?;
    move_rows(
        alloc,
        cells,
        cols,
        trees.lg,
        &trees.inverses,
        &trees.points,
        work,
    )?;
    Ok(())
}

/// The coefficients of the quotients in each column, from 2^lg times the values of the dividends
/// and of the divisor on the coset, in bit-reversed order. The values of the quotients are also
/// divided by 2^lg, since the way back multiplies by it.
fn quotients_from_coset<F: FieldNTT>(
    alloc: Global,
    cells: &mut [F],
    cols: usize,
    divisors: &[F],
    trees: &Trees<F>,
    work: &mut Work,
) -> Mem<()>
    requires trees { AreTrees F.Ring F.MAX_LG_ROOT_ORDER F.inverse F.root F.shift
        (F.inverse F.shift) trees.now }
    requires size { length cells.old ≡ 2 ^ trees.now.lg * cols }
    requires divisors { length divisors.now ≡ 2 ^ trees.now.lg }
    requires room { 2 * work.old.butterflies + cols * 2 ^ trees.now.lg * trees.now.lg < 2 ^ 129 }
    ensures quotients { OnOk result (AreQuotientsOfValues F.Ring (F.root trees.now.lg) F.shift
        trees.now.lg cols cells.old divisors.now cells.new) }
    ensures work { IsOneTransform F.NEVER_REFUSES (cols * 2 ^ trees.now.lg * trees.now.lg)
        result work.old work.new }
{
    let lg = trees.lg;
    let numerator = size_inverse(alloc, lg)?;
    let inverses = quotients(alloc, numerator, divisors)?;
    multiply_rows(alloc, cells, cols, &inverses)?;
    let points = Points {
        roots: &trees.inverses,
        place: 1,
        lg,
    };
    interpolate_below(alloc, cells, cols, &points, work)?;
    Ok(())
}

/// The coefficients in each column of f V divided by V: the values of f V on the domain are the
/// cells times those of V, both are moved to the coset, and there divided. The trees of the domain
/// become those of the coset. Where it is refused, one butterfly or more is counted.
fn divide_by_vanishing<F: FieldNTT>(
    alloc: Global,
    cells: &mut [F],
    cols: usize,
    vanishing: &mut [F],
    trees: &mut Trees<F>,
    work: &mut Work,
) -> Mem<()>
    requires trees { AreTrees F.Ring F.MAX_LG_ROOT_ORDER F.inverse F.root F.one F.one trees.old }
    requires size { length cells.old ≡ 2 ^ trees.old.lg * cols }
    requires vanishing_size { length vanishing.old ≡ 2 ^ trees.old.lg }
    requires room { 2 * work.old.butterflies
        + (3 * cols + 3) * 2 ^ trees.old.lg * trees.old.lg < 2 ^ 129 }
    ensures divided { OnOk result (AreDivided F.Ring (F.root trees.old.lg) F.shift
        (2 ^ trees.old.lg) cols cells.old vanishing.old cells.new) }
    ensures counted { AddsAllOrSome ((3 * cols + 3) * 2 ^ trees.old.lg * trees.old.lg) result
        work.old work.new }
    ensures late { OnErr result (IsTrue F.NEVER_REFUSES → 2 * work.new.butterflies
        ≡ 2 * work.old.butterflies + (2 * cols + 3) * 2 ^ trees.old.lg * trees.old.lg) }
{
    let lg = trees.lg;
    reverse_rows(cells, cols, lg);
    let points = Points {
        roots: &trees.points,
        place: 1,
        lg,
    };
    evaluate_below(alloc, vanishing, 1, &points, work)?;
    multiply_rows(alloc, cells, cols, vanishing)?;
    let shift = F::coset_shift(alloc)?;
    start_at(alloc, &mut trees.points, &shift, lg)?;
    moved_to_coset(alloc, cells, cols, vanishing, trees, work)?;
    let back = F::coset_shift_inv(alloc)?;
    start_at(alloc, &mut trees.inverses, &back, lg)?;
    quotients_from_coset(alloc, cells, cols, vanishing, trees, work)?;
    Ok(())
}

/// The recovery where some rows are filled and some are missing.
fn recover_cells<F: FieldNTT>(
    alloc: Global,
    cells: &mut [F],
    cols: usize,
    points: &VanishingPoints,
    lg: u8,
    work: &mut Work,
) -> Mem<()>
    requires lg { IsDomainLg F.MAX_LG_ROOT_ORDER lg }
    requires size { length cells.old ≡ 2 ^ lg * cols }
    requires points { length points.now ≡ 2 ^ lg }
    requires some { 0 < count_true points.now }
    requires missing { 0 < count_false points.now }
    requires room { HasRoom work.old }
    requires fits { 2 ^ lg * cols < 2 ^ 64 }
    ensures recovered { OnOk result (IsRecovery F.Ring F.root lg
        (evaluations_of (matrix_of (2 ^ lg) cols cells.old) points.now)
        (matrix_of (2 ^ lg) cols cells.new) work.old work.new) }
    ensures refused { OnErr result (IsRefusal F.NEVER_REFUSES lg
        (evaluations_of (matrix_of (2 ^ lg) cols cells.old) points.now) work.old work.new) }
    ensures most { AddsOneRecovery lg cols work.old work.new }
{
    let evaluation = evaluation_table(alloc, lg)?;
    let interpolation = interpolation_table(alloc, lg)?;
    let mut vanishing = vanishing_coefficients(
        alloc,
        points,
        lg,
        &evaluation,
        &interpolation,
        work,
    )?;
    let mut trees = Trees {
        lg,
        points: evaluation,
        inverses: interpolation,
    };
    divide_by_vanishing(alloc, cells, cols, &mut vanishing, &mut trees, work)?;
    Ok(())
}
