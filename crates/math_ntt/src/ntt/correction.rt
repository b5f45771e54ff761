//! Recovery of polynomials from rows of which some are wrong.
//!
//! A row is wrong if any of its cells is. Of m filled rows at most (m - k) / 2 are wrong, and the
//! polynomials have at most k coefficients. There is at most one such polynomial a column, since
//! two would agree at k rows or more. They are recovered as if no row were wrong. A column that
//! then has a coefficient other than zero from k on is decoded by itself. The rows at which it
//! differs from what is decoded are wrong for every answer, so they are dropped, and what is left
//! is recovered again. If more rows than (m - k) / 2 are dropped in all, there is no answer.
//!
//! A row may be right in the column that is decoded first, and wrong in another. So each column is
//! decoded over the rows that are left, and not over all. What is within (m - k) / 2 rows of all m
//! is within the radius of the rows that are left, since each dropped row is one of its wrong ones.
//!
//! For example, 5 and 6 stand in each of the rows 0 to 6 of eight, the first column is damaged in
//! the rows 1 and 3, the second in row 6, and k is 1: three rows may be wrong. From the first
//! column 5 is decoded, and the rows 1 and 3 are dropped. From the five rows that are left 6 is
//! decoded, and row 6 is dropped. What is left fits 5 and 6.
//!
//! What is recovered stands in place of the cells, and a wrong column needs its cells again: so a
//! copy is recovered. Each decoding drops a row, so no two of them have the same points, and
//! weights that serve many columns at the same points would not pay. Each recovery counts its work
//! apart.

ghost use Rattle.std.specs.Prelude.{
  ◌≡◌,
  ◌↔◌,
  ◌+◌,
  ◌-◌,
  ◌*◌,
  ◌/◌,
  ◌<◌,
  ◌≤◌,
  ◌^◌,
  ◌⊎◌,
  ℕ,
  List,
  [],
  true,
  false,
  IfOk,
  IfSome,
  IfNone,
  OnOk,
  OnErr,
  length,
  not,
  slice_index_or,
};
ghost use Rattle.std.specs.List.{All, Contains, filter};
ghost use Rattle.math_theory.specs.Recovery.{count_true};
ghost use Rattle.math_transforms.specs.DomainValues.{HasDomain};
ghost use Rattle.math_transforms.specs.Matrices.{cell_of};
ghost use Rattle.math_ntt.specs.AddedWork.{AddsOneRecovery, AddsRecoveries, AddsUpTo, HasRoom};
ghost use Rattle.math_ntt.specs.CorrectedRows.{AreWithinRadius, IsCorrected};
ghost use Rattle.math_ntt.specs.Evaluations.{evaluations_of, IsDomainLg};
ghost use Rattle.math_ntt.specs.NarrowedRows.{IsNarrowed, IsNear};
ghost use Rattle.math_ntt.specs.RecoveredRows.{
  AddsRecovery,
  IsExactWork,
  IsRecoveredFrom,
  IsRefusedWork,
};

use super::evaluations::EvaluationVector;
use super::matrix::Matrix;
use super::polynomials::PolynomialVector;
use super::recovery::recovered_cells;
use math_base::algebra::{Additive, FieldNTT, Mem, Object, Ring};
use math_decoding::decoding::decode;
use math_lagrange::weights::domain_points;
use math_transforms::cells::copies;
use math_transforms::transform::lg_of;
use math_transforms::vanishing_points::VanishingPoints;
use math_transforms::work::Work;
use std::alloc::Global;

/// Polynomials, and the filled rows that differ from their values, by rising number.
#[derive(Debug, Drop)]
pub struct Corrected<F: Drop> {
    pub polynomials: PolynomialVector<F>,
    pub wrong: Vec<usize>,
}

impl<F: FieldNTT> EvaluationVector<F> {
    /// Recovers the polynomials from the filled rows, though some of these are wrong, and says
    /// which.
    ///
    /// Let N be the number of rows, and m that of the filled ones. The polynomial of a column has
    /// the cells of the filled rows as its values, but for the wrong rows. It has N coefficients,
    /// and those from `count` on are zero. The wrong rows are the same for all columns, and at most
    /// (m - count) / 2. These are then the only such polynomials.
    ///
    /// It answers `None` exactly if there are none. If more rows are wrong, that may be so, or the
    /// rows may fit other polynomials, which it then answers.
    ///
    /// lg N is at most `F::MAX_LG_ROOT_ORDER`, and `count` is at most m. Beside the memory of
    /// `recover` it takes memory for a copy of the cells, and for a column that is wrong some lists
    /// of m elements.
    ///
    /// ```
    /// let cells = vec![in alloc; F::from(4), F::from(4), F::from(6), F::from(4)]?;
    /// let filled = VanishingPoints::all_non_vanishing(alloc, 2)?;
    /// let values = EvaluationVector::from_parts(Matrix::from_cells(4, 1, cells), filled);
    /// let Some(corrected) = values.correct(alloc, 1)? else { return Ok(()) };
    /// corrected.wrong; // [2]
    /// corrected.polynomials.data().into_cells(); // [4, 0, 0, 0]
    /// ```
    pub fn correct(self, alloc: Global, count: usize) -> Mem<Option<Corrected<F>>>
        requires domain { HasDomain F.MAX_LG_ROOT_ORDER self.matrix.rows }
        requires count { count ≤ count_true self.filled }
        ensures found { IfOk result (λ answer. IfSome answer (λ c.
            (lg : ℕ) → self.matrix.rows ≡ 2 ^ lg
            → IsCorrected F.Ring (F.root lg) self count c.polynomials c.wrong.items)) }
        ensures none { IfOk result (λ answer. IfNone answer (
            (lg : ℕ) → self.matrix.rows ≡ 2 ^ lg → (a : ℕ → List F)
            → ¬ (AreWithinRadius F.Ring (F.root lg) self count a))) }
    {
        let mut work = Work::new();
        let out = self.correct_counted(alloc, count, &mut work)?;
        Ok(out)
    }

    /// Does what `correct` does, and adds the work of the transforms. If no row is wrong, that is
    /// exactly the work of one recovery of the m filled rows.
    ///
    /// Whatever the outcome, the call makes at most (m - count) / 2 + 1 recoveries. Each has fewer
    /// filled rows than the one before it, and may cost more. All together add at most so many times
    /// the most that `recover_counted` may add at N rows: see there.
    ///
    /// A call that is not refused adds at least the work of one recovery. A refused one does so
    /// too, unless its first recovery was refused: then it adds what a refused recovery does.
    ///
    /// At entry `work` has at most 2^127 butterflies and at most 2^127 root products. A count that
    /// comes to 2^128 stays at 2^128 - 1.
    ///
    /// ```
    /// let mut values = EvaluationVector::empty(alloc, 1, 1)?;
    /// values.fill_row(alloc, 1, &[F::from(4)])?;
    /// let mut work = Work::new();
    /// let Some(corrected) = values.correct_counted(alloc, 1, &mut work)? else { return Ok(()) };
    /// corrected.wrong; // []
    /// work.butterflies(); // 6
    /// ```
    pub fn correct_counted(
        self,
        alloc: Global,
        count: usize,
        work: &mut Work,
    ) -> Mem<Option<Corrected<F>>>
        requires domain { HasDomain F.MAX_LG_ROOT_ORDER self.matrix.rows }
        requires count { count ≤ count_true self.filled }
        requires room { work.old.butterflies ≤ 2 ^ 127 }
        requires product_room { work.old.root_products ≤ 2 ^ 127 }
        ensures found { IfOk result (λ answer. IfSome answer (λ c.
            (lg : ℕ) → self.matrix.rows ≡ 2 ^ lg
            → IsCorrected F.Ring (F.root lg) self count c.polynomials c.wrong.items)) }
        ensures none { IfOk result (λ answer. IfNone answer (
            (lg : ℕ) → self.matrix.rows ≡ 2 ^ lg → (a : ℕ → List F)
            → ¬ (AreWithinRadius F.Ring (F.root lg) self count a))) }
        ensures most { (lg : ℕ) → self.matrix.rows ≡ 2 ^ lg
            → let recoveries = (count_true self.filled - count) / 2 + 1 in
            AddsUpTo
            (recoveries * (self.matrix.rows * lg * (3 * lg + 3 * self.matrix.cols + 2)) / 2)
            (recoveries * (128 * self.matrix.rows))
            work.old work.new }
        ensures exact { IfOk result (λ answer. IfSome answer (λ c. c.wrong.items ≡ []
            → (lg : ℕ) → self.matrix.rows ≡ 2 ^ lg → IsExactWork lg self work.old work.new)) }
        ensures least { OnOk result ((lg : ℕ) → self.matrix.rows ≡ 2 ^ lg
            → AddsRecovery lg self work.old work.new) }
        ensures refused { OnErr result ((lg : ℕ) → self.matrix.rows ≡ 2 ^ lg
            → IsRefusedWork lg self work.old work.new
            ⊎ AddsRecovery lg self work.old work.new) }
    {
        let EvaluationVector { matrix, filled } = self;
        let lg = lg_of(matrix.rows);
        without_wrong_rows(alloc, &matrix, filled, count, lg, work)
    }
}

/// The polynomials, and the wrong rows.
fn without_wrong_rows<F: FieldNTT>(
    alloc: Global,
    matrix: &Matrix<F>,
    filled: VanishingPoints,
    count: usize,
    lg: u8,
    work: &mut Work,
) -> Mem<Option<Corrected<F>>>
    requires lg { IsDomainLg F.MAX_LG_ROOT_ORDER lg }
    requires rows { matrix.now.rows ≡ 2 ^ lg }
    requires full { length matrix.now.cells ≡ matrix.now.rows * matrix.now.cols }
    requires marks { length filled ≡ 2 ^ lg }
    requires count { count ≤ count_true filled }
    requires room { HasRoom work.old }
    ensures found { IfOk result (λ answer. IfSome answer (λ c. IsCorrected F.Ring (F.root lg)
        (evaluations_of matrix.now filled) count c.polynomials c.wrong.items)) }
    ensures none { IfOk result (λ answer. IfNone answer ((a : ℕ → List F)
        → ¬ (AreWithinRadius F.Ring (F.root lg) (evaluations_of matrix.now filled) count a))) }
    ensures most { AddsRecoveries ((count_true filled - count) / 2 + 1) lg matrix.now.cols
        work.old work.new }
    ensures exact { IfOk result (λ answer. IfSome answer (λ c. c.wrong.items ≡ []
        → IsExactWork lg (evaluations_of matrix.now filled) work.old work.new)) }
    ensures least { OnOk result
        (AddsRecovery lg (evaluations_of matrix.now filled) work.old work.new) }
    ensures refused { OnErr result
        (IsRefusedWork lg (evaluations_of matrix.now filled) work.old work.new
        ⊎ AddsRecovery lg (evaluations_of matrix.now filled) work.old work.new) }
{
    let rows = filled.non_vanishing_indices(alloc)?;
    let most = (rows.len() - count) / 2;
    let mut left = filled;
    let mut polynomials = recovered_copy(alloc, matrix, &left, lg, work)?;
    while let Some(column) = long_column(alloc, &polynomials, count)? {
        let Some(less) = agreeing_rows(alloc, matrix, &left, column, count, lg)? else {
            return Ok(None);
        };
        if rows.len() - less.count_non_vanishing() as usize > most {
            return Ok(None);
        }
        left = less;
        polynomials = recovered_copy(alloc, matrix, &left, lg, work)?;
    }
    let wrong = rows_dropped(alloc, &rows, &left)?;
    Ok(Some(Corrected {
        polynomials: PolynomialVector {
            coefficients: polynomials,
        },
        wrong,
    }))
}

/// What is recovered from a copy of the cells. The work is added up to 2^128 - 1.
fn recovered_copy<F: FieldNTT>(
    alloc: Global,
    matrix: &Matrix<F>,
    filled: &VanishingPoints,
    lg: u8,
    work: &mut Work,
) -> Mem<Matrix<F>>
    requires lg { IsDomainLg F.MAX_LG_ROOT_ORDER lg }
    requires rows { matrix.now.rows ≡ 2 ^ lg }
    requires marks { length filled.now ≡ 2 ^ lg }
    ensures polynomials { IfOk result (λ v.
        IsRecoveredFrom F.Ring F.root (evaluations_of matrix.now filled.now) v) }
    ensures most { AddsOneRecovery lg matrix.now.cols work.old work.new }
    ensures exact { OnOk result (HasRoom work.old
        → IsExactWork lg (evaluations_of matrix.now filled.now) work.old work.new) }
    ensures refused { OnErr result (HasRoom work.old
        → IsRefusedWork lg (evaluations_of matrix.now filled.now) work.old work.new) }
{
    let mut cells = copies(alloc, &matrix.cells)?;
    let mut counted = Work::new();
    let outcome = recovered_cells(alloc, &mut cells, matrix.cols, filled, lg, &mut counted);
    work.saturating_add(counted);
    outcome?;
    Ok(Matrix {
        rows: matrix.rows,
        cols: matrix.cols,
        cells,
    })
}

/// The place of the first cell that is not the zero given.
fn first_nonzero<F: Additive>(alloc: Global, cells: &[F], zero: &F) -> Mem<Option<usize>>
    requires { F.same zero.now F.zero }
    ensures some { IfOk result (λ answer. IfSome answer (λ k. (k < length cells.now)
        × ¬ (F.same (slice_index_or cells.now k F.zero) F.zero))) }
    ensures none { IfOk result (λ answer. IfNone answer ((k : ℕ) → k < length cells.now
        → F.same (slice_index_or cells.now k F.zero) F.zero)) }
{
    for k in 0..cells.len() {
        if !cells[k].equals(alloc, zero)? {
            return Ok(Some(k));
        }
    }
    Ok(None)
}

/// A column with a coefficient other than zero from `count` on.
fn long_column<F: Additive>(
    alloc: Global,
    coefficients: &Matrix<F>,
    count: usize,
) -> Mem<Option<usize>>
    ensures some { IfOk result (λ answer. IfSome answer (λ k. (k < coefficients.now.cols)
        × (i : ℕ) × (count ≤ i) × (i < coefficients.now.rows)
        × ¬ (F.same (cell_of F.zero coefficients.now i k) F.zero))) }
    ensures none { IfOk result (λ answer. IfNone answer ((i k : ℕ) → count ≤ i
        → i < coefficients.now.rows → k < coefficients.now.cols
        → F.same (cell_of F.zero coefficients.now i k) F.zero)) }
{
    let zero = F::zero(alloc)?;
    for i in count..coefficients.rows {
        if let Some(k) = first_nonzero(alloc, coefficients.row(i), &zero)? {
            return Ok(Some(k));
        }
    }
    Ok(None)
}

/// The filled rows in which the column agrees with what is decoded from it; `None` where that is
/// nothing.
fn agreeing_rows<F: FieldNTT>(
    alloc: Global,
    matrix: &Matrix<F>,
    filled: &VanishingPoints,
    column: usize,
    count: usize,
    lg: u8,
) -> Mem<Option<VanishingPoints>>
    requires lg { IsDomainLg F.MAX_LG_ROOT_ORDER lg }
    requires rows { matrix.now.rows ≡ 2 ^ lg }
    requires marks { length filled.now ≡ 2 ^ lg }
    requires column { column < matrix.now.cols }
    requires count { count ≤ count_true filled.now }
    ensures some { IfOk result (λ answer. IfSome answer (λ left. IsNarrowed F.Ring (F.root lg)
        (evaluations_of matrix.now filled.now) column count left)) }
    ensures none { IfOk result (λ answer. IfNone answer ((p : List F) → ¬ (IsNear F.Ring (F.root lg)
        (evaluations_of matrix.now filled.now) column count p))) }
{
    let rows = filled.non_vanishing_indices(alloc)?;
    let powers = domain_points::<F>(alloc, lg)?;
    let points = cells_at(alloc, &powers, 1, 0, &rows)?;
    let values = cells_at(alloc, &matrix.cells, matrix.cols, column, &rows)?;
    let Some(decoded) = decode(alloc, &points, &values, count)? else {
        return Ok(None);
    };
    let left = rows_left(alloc, lg, &rows, &decoded.wrong)?;
    Ok(Some(left))
}

/// Copies of the cells of a column in these rows.
fn cells_at<F: Object>(
    alloc: Global,
    cells: &[F],
    cols: usize,
    column: usize,
    rows: &[usize],
) -> Mem<Vec<F>>
    requires { All (λ row. row * cols + column < length cells.now) rows.now }
    ensures count { IfOk result (λ out. length out.items ≡ length rows.now) }
    ensures cells { IfOk result (λ out. (j : ℕ) (d : F) → j < length rows.now
        → F.same (slice_index_or out.items j d)
        (slice_index_or cells.now (slice_index_or rows.now j 0 * cols + column) d)) }
{
    let mut out = Vec::with_capacity(alloc, rows.len())?;
    for j in 0..rows.len() {
        let cell = cells[rows[j] * cols + column].clone(alloc)?;
        out.push(cell)?;
    }
    Ok(out)
}

/// 2^lg rows, of which those are filled that stand in the list, but not at a place that is wrong.
fn rows_left(alloc: Global, lg: u8, rows: &[usize], wrong: &[usize]) -> Mem<VanishingPoints>
    requires small { lg < 64 }
    requires rows { All (λ row. row < 2 ^ lg) rows.now }
    ensures size { IfOk result (λ out. length out ≡ 2 ^ lg) }
    ensures filled { IfOk result (λ out. (i : ℕ) → slice_index_or out i false ≡ true
        ↔ (j : ℕ) × (j < length rows.now) × (slice_index_or rows.now j 0 ≡ i)
        × ¬ (Contains wrong.now j)) }
{
    let mut out = VanishingPoints::new(alloc, u32::from(lg))?;
    for j in 0..rows.len() {
        if !wrong.contains(&j) {
            out.set_non_vanishing(rows[j] as u64);
        }
    }
    Ok(out)
}

/// Those of the rows that are not filled any more.
fn rows_dropped(alloc: Global, rows: &[usize], left: &VanishingPoints) -> Mem<Vec<usize>>
    requires { All (λ row. row < length left.now) rows.now }
    ensures { IfOk result (λ out. out.items
        ≡ filter (λ row. not (slice_index_or left.now row false)) rows.now) }
{
    let mut out = Vec::new(alloc);
    for j in 0..rows.len() {
        if !left.get(rows[j] as u64) {
            out.push(rows[j])?;
        }
    }
    Ok(out)
}
