//! Vectors of polynomials.

ghost use Rattle.std.specs.Prelude.{
  ◌≡◌,
  ◌↔◌,
  ◌*◌,
  ◌<◌,
  ◌≤◌,
  ◌^◌,
  true,
  IsTrue,
  IsOk,
  IsSome,
  IfOk,
  IfSome,
  length,
  min,
  replicate,
  take,
};
ghost use Rattle.std.specs.Int.{IsNextPowerOfTwo, IsPowerOfTwo};
ghost use Rattle.std.specs.Iterator.{YieldsFirstRef, item_count};
ghost use Rattle.math_transforms.specs.DomainValues.{HasDomain, AreValuesOnDomain};
ghost use Rattle.math_transforms.specs.Matrices.{rows_of, IsOfSize, AreSameMatrices};
ghost use Rattle.math_ntt.specs.AddedWork.{IsEvaluationWork};
ghost use Rattle.math_ntt.specs.PolynomialRows.{AreEnough, FitsPadded, HaveSamePolynomials};

use super::evaluations::EvaluationVector;
use super::matrix::{Matrix, Rows};
use math_base::algebra::{Additive, FieldNTT, Mem, Object};
use math_transforms::cells::{copies, filled_up};
use math_transforms::transform::{evaluate_rows, evaluation_table, lg_of};
use math_transforms::vanishing_points::VanishingPoints;
use math_transforms::work::Work;
use std::alloc::Global;
use std::marker::Model;

/// Polynomials with the same number of coefficients, a power of two, one polynomial a column. Row i
/// holds coefficient i of each. The last coefficients may be zero.
///
/// ```
/// let m = Matrix::from_cells(2, 1, vec![in alloc; F::from(5), F::from(2)]?);
/// let polynomials = PolynomialVector::from_matrix(m);
/// polynomials.evaluate(alloc)?.data().into_cells(); // [7, 3]
/// ```
#[derive(Debug, Drop)]
pub struct PolynomialVector<F: Drop> {
    pub(super) coefficients: Matrix<F>,
}

/// A vector of polynomials is the matrix of the coefficients.
impl<F: Drop> Model for PolynomialVector<F> {
    ghost use Rattle.std.specs.Int.{IsPowerOfTwo};
    ghost use Rattle.math_transforms.specs.Matrices.{MatrixOf};

    ghost Value = { MatrixOf F };

    ghost view = { λ v. v.coefficients };

    ghost invariant = { λ v. IsPowerOfTwo v.coefficients.rows };
}

impl<F: Additive> Matrix<F> {
    /// Makes the polynomials whose coefficients are the columns of this matrix, from the constant
    /// upwards.
    ///
    /// It answers `None` if `min_coefficients` is 0, or less than the number of rows. Otherwise
    /// zeros fill the polynomials up to N rows, where N is the least power of two that is
    /// `min_coefficients` or more. N, and N times the number of columns, then have to be below
    /// 2^64.
    ///
    /// ```
    /// let m = Matrix::from_cells(1, 2, vec![in alloc; F::from(4), F::from(6)]?);
    /// let Some(polynomials) = m.as_polynomials(alloc, 2)? else { return Ok(()) };
    /// polynomials.data().into_cells(); // [4, 6, 0, 0]
    /// ```
    pub fn as_polynomials(
        &self,
        alloc: Global,
        min_coefficients: usize,
    ) -> Mem<Option<PolynomialVector<F>>>
        requires fits { AreEnough self.now min_coefficients → FitsPadded self.now min_coefficients }
        ensures some { IfOk result (λ answer. IsSome answer ↔ AreEnough self.now min_coefficients) }
        ensures rows { IfOk result
            (λ answer. IfSome answer (λ v. IsNextPowerOfTwo min_coefficients v.rows)) }
        ensures size { IfOk result
            (λ answer. IfSome answer (λ v. IsOfSize v v.rows self.now.cols)) }
        ensures polynomials { IfOk result (λ answer.
            IfSome answer (λ v. HaveSamePolynomials F.same F.zero v self.now)) }
    {
        if min_coefficients == 0 || min_coefficients < self.rows {
            return Ok(None);
        }
        let rows = min_coefficients.next_power_of_two();
        let cells = filled_up(alloc, copies(alloc, &self.cells)?, rows * self.cols)?;
        let coefficients = Matrix {
            rows,
            cols: self.cols,
            cells,
        };
        Ok(Some(PolynomialVector { coefficients }))
    }
}

impl<F: Drop> PolynomialVector<F> {
    /// Makes the polynomials whose coefficients are the columns of the matrix, from the constant
    /// upwards. The number of rows is a power of two.
    ///
    /// ```
    /// let m = Matrix::from_cells(2, 1, vec![in alloc; F::from(4), F::from(6)]?);
    /// PolynomialVector::from_matrix(m).data().into_cells(); // [4, 6]
    /// ```
    pub fn from_matrix(coefficients: Matrix<F>) -> Self
        requires { IsPowerOfTwo coefficients.rows }
        ensures { result ≡ coefficients }
    {
        PolynomialVector { coefficients }
    }

    /// Returns the matrix of the coefficients: row i holds coefficient i of each polynomial.
    pub fn data(self) -> Matrix<F>
        ensures { result ≡ self }
    {
        self.coefficients
    }

    /// Gives the first n rows of the coefficients, from the constants upwards, or all if they are
    /// fewer. Each row has one coefficient a polynomial.
    ///
    /// ```
    /// let m = Matrix::from_cells(2, 1, vec![in alloc; F::from(4), F::from(6)]?);
    /// let polynomials = PolynomialVector::from_matrix(m);
    /// let mut rows = polynomials.coefficients_up_to(1);
    /// rows.next(); // Some([4])
    /// rows.next(); // None
    /// ```
    pub fn coefficients_up_to(&self, n: usize) -> CoefficientRows<'_, F>
        ensures rows { result ≡ take n (rows_of self.now) }
        ensures count { length result ≡ min n self.now.rows }
        ensures fits { length result < 2 ^ 64 }
    {
        let matrix = &self.coefficients;
        let left = n.min(matrix.rows);
        CoefficientRows {
            rows: Rows {
                left,
                cols: matrix.cols,
                cells: &matrix.cells[..left * matrix.cols],
            },
        }
    }
}

impl<F: Object> PolynomialVector<F> {
    /// Returns polynomials that equal these.
    pub fn clone(&self, alloc: Global) -> Mem<Self>
        ensures { IfOk result (λ copy. AreSameMatrices F.same copy self.now) }
    {
        let coefficients = self.coefficients.clone(alloc)?;
        Ok(PolynomialVector { coefficients })
    }

    /// Returns whether both have as many polynomials, as many coefficients of each, and in each
    /// place the same coefficient. If calls on coefficients are never refused, neither is this one.
    ///
    /// ```
    /// let m = Matrix::from_cells(2, 1, vec![in alloc; F::from(4), F::from(6)]?);
    /// let polynomials = PolynomialVector::from_matrix(m);
    /// polynomials.equals(alloc, &polynomials.clone(alloc)?)?; // true
    /// ```
    pub fn equals(&self, alloc: Global, other: &Self) -> Mem<bool>
        ensures ok { IfOk result (λ answer. IsTrue answer ↔ AreSameMatrices F.same self.now other.now) }
        ensures never { IsTrue F.NEVER_REFUSES → IsOk result }
    {
        self.coefficients.equals(alloc, &other.coefficients)
    }
}

impl<F: FieldNTT> PolynomialVector<F> {
    /// Evaluates the polynomials at the powers of the root of order N, where N is the number of
    /// rows. In each column cell j is the value of that column's polynomial at power j. All rows
    /// are filled.
    ///
    /// lg N is at most `F::MAX_LG_ROOT_ORDER`. It takes memory for a table of N elements and for a
    /// bitmap of N bits; the values stand where the coefficients stood.
    ///
    /// ```
    /// let m = Matrix::from_cells(2, 1, vec![in alloc; F::from(5), F::from(2)]?);
    /// let values = PolynomialVector::from_matrix(m).evaluate(alloc)?;
    /// values.row(0); // [7]
    /// values.row(1); // [3]
    /// ```
    pub fn evaluate(self, alloc: Global) -> Mem<EvaluationVector<F>>
        requires domain { HasDomain F.MAX_LG_ROOT_ORDER self.rows }
        ensures size { IfOk result (λ v. IsOfSize v.matrix self.rows self.cols) }
        ensures values { IfOk result (λ v. AreValuesOnDomain F.Ring F.root self v.matrix) }
        ensures filled { IfOk result (λ v. v.filled ≡ replicate self.rows true) }
    {
        let mut work = Work::new();
        let out = self.evaluate_counted(alloc, &mut work)?;
        Ok(out)
    }

    /// Does what `evaluate` does, and adds the work that was done. That is c N lg N / 2 butterflies
    /// for c columns, or at most so many if it is refused, and no root product.
    ///
    /// At entry `work` has at most 2^127 butterflies. It takes the memory for the table and the
    /// bitmap before the first butterfly: if calls on elements are never refused, a refused call
    /// adds nothing.
    ///
    /// ```
    /// let m = Matrix::init(alloc, 4, 1, vec![in alloc; F::from(5), F::from(2)]?)?;
    /// let mut work = Work::new();
    /// let values = PolynomialVector::from_matrix(m).evaluate_counted(alloc, &mut work)?;
    /// values.row(2); // [3]
    /// work.butterflies(); // 4
    /// ```
    pub fn evaluate_counted(self, alloc: Global, work: &mut Work) -> Mem<EvaluationVector<F>>
        requires domain { HasDomain F.MAX_LG_ROOT_ORDER self.rows }
        requires room { work.old.butterflies ≤ 2 ^ 127 }
        ensures size { IfOk result (λ v. IsOfSize v.matrix self.rows self.cols) }
        ensures values { IfOk result (λ v. AreValuesOnDomain F.Ring F.root self v.matrix) }
        ensures filled { IfOk result (λ v. v.filled ≡ replicate self.rows true) }
        ensures work { IsEvaluationWork F.NEVER_REFUSES result self.rows self.cols
            work.old work.new }
    {
        let mut matrix = self.coefficients;
        let cols = matrix.cols;
        let lg = lg_of(matrix.rows);
        let table = evaluation_table(alloc, lg)?;
        let filled = VanishingPoints::all_non_vanishing(alloc, u32::from(lg))?;
        evaluate_rows(alloc, &mut matrix.cells, cols, lg, &table, work)?;
        Ok(EvaluationVector { matrix, filled })
    }
}

/// The first rows of a vector of polynomials: see `PolynomialVector::coefficients_up_to`.
#[derive(Drop)]
pub struct CoefficientRows<'a, F: Drop> {
    rows: Rows<'a, F>,
}

/// The rows that are left.
impl<'a, F: Drop> Model for CoefficientRows<'a, F> {
    ghost use Rattle.std.specs.Prelude.{List};

    ghost Value = { List (List F) };

    ghost view = { λ s. s.rows };
}

impl<'a, F: Drop> Iterator for CoefficientRows<'a, F> {
    type Item = &'a [F];

    ghost next_gives = { YieldsFirstRef (λ rows. rows) };

    ghost remaining = { item_count (λ rows. rows) };

    fn next(&mut self) -> Option<&'a [F]> {
        self.rows.next()
    }
}
