//! Values of polynomials at the points of a domain.

ghost use Rattle.std.specs.Prelude.{
  ◌≡◌,
  ◌↔◌,
  ◌*◌,
  ◌<◌,
  ◌≤◌,
  ◌^◌,
  IsTrue,
  IsOk,
  IfOk,
  OnOk,
  OnErr,
  Some,
  length,
  replicate,
  slice_get,
  false,
};
ghost use Rattle.std.specs.Int.{IsPowerOfTwo};
ghost use Rattle.std.specs.List.{All};
ghost use Rattle.math_theory.specs.Recovery.{count_true};
ghost use Rattle.math_transforms.specs.Matrices.{row_of, IsOfSize};
ghost use Rattle.math_ntt.specs.Evaluations.{IsFilledAt, AreSameEvaluations};

use super::matrix::Matrix;
use math_base::algebra::{Additive, Mem, Object};
use math_transforms::cells::{copies, filled_up};
use math_transforms::vanishing_points::VanishingPoints;
use std::alloc::Global;
use std::marker::Model;

/// Values of polynomials at the points of a domain, one polynomial a column.
///
/// The number of points is a power of two. Row i holds the value of each polynomial at point i,
/// which is power i of the root. Some rows are filled, and the others are missing.
///
/// ```
/// let mut values = EvaluationVector::empty(alloc, 2, 1)?;
/// values.fill_row(alloc, 0, &[F::from(7)])?;
/// values.fill_row(alloc, 2, &[F::from(3)])?;
/// values.recover(alloc)?.data().into_cells(); // [5, 2, 0, 0]
/// ```
#[derive(Debug, Drop)]
pub struct EvaluationVector<F: Drop> {
    pub(super) matrix: Matrix<F>,
    pub(super) filled: VanishingPoints,
}

/// The matrix of the values, and a truth value a row, true where the row is filled.
impl<F: Drop> Model for EvaluationVector<F> {
    ghost use Rattle.std.specs.Prelude.{◌≡◌, length};
    ghost use Rattle.std.specs.Int.{IsPowerOfTwo};
    ghost use Rattle.math_ntt.specs.Evaluations.{EvaluationsOf};

    ghost Value = { EvaluationsOf F };

    ghost view = { λ v. record { matrix = v.matrix; filled = v.filled } };

    ghost invariant = { λ v. IsPowerOfTwo v.matrix.rows × (length v.filled ≡ v.matrix.rows) };
}

impl<F: Additive> EvaluationVector<F> {
    /// Makes 2^lg_rows rows of `cols` cells, each of which is zero. No row is filled.
    ///
    /// `lg_rows` is below 64, and the number of cells below 2^64.
    ///
    /// ```
    /// let values = EvaluationVector::<F>::empty(alloc, 1, 2)?;
    /// values.row(1); // [0, 0]
    /// values.filled_rows(); // 0
    /// ```
    pub fn empty(alloc: Global, lg_rows: usize, cols: usize) -> Mem<Self>
        requires small { lg_rows < 64 }
        requires fits { 2 ^ lg_rows * cols < 2 ^ 64 }
        ensures size { IfOk result (λ v. IsOfSize v.matrix (2 ^ lg_rows) cols) }
        ensures cells { IfOk result (λ v. All (λ cell. F.same cell F.zero) v.matrix.cells) }
        ensures filled { IfOk result (λ v. v.filled ≡ replicate (2 ^ lg_rows) false) }
    {
        let rows = 1 << lg_rows;
        let cells = filled_up(alloc, Vec::new(alloc), rows * cols)?;
        let matrix = Matrix { rows, cols, cells };
        let filled = VanishingPoints::new(alloc, lg_rows as u32)?;
        Ok(EvaluationVector { matrix, filled })
    }

    /// Puts copies of `data` in place of the first cells of a row, which counts as filled from then
    /// on. The further cells stay as they were. If it is refused, nothing changes: it makes each
    /// copy before it writes the first cell.
    ///
    /// `row` is below the number of rows, and `data` has no more items than there are columns.
    ///
    /// ```
    /// let mut values = EvaluationVector::empty(alloc, 1, 2)?;
    /// values.fill_row(alloc, 1, &[F::from(4), F::from(6)])?;
    /// values.row(1); // [4, 6]
    /// values.is_filled(0); // false
    /// ```
    pub fn fill_row(&mut self, alloc: Global, row: usize, data: &[F]) -> Mem<()>
        requires row { row < self.old.matrix.rows }
        requires few { length «data».now ≤ self.old.matrix.cols }
        ensures ok { OnOk result (IsFilledAt F.same self.old row «data».now self.new) }
        ensures err { OnErr result (self.new ≡ self.old) }
    {
        let mut copies = copies(alloc, data)?;
        let matrix = &mut self.matrix;
        let from = row * matrix.cols;
        let cells = matrix.cells.slice_mut(from..from + data.len());
        cells.swap_with_slice(&mut copies);
        self.filled.set_non_vanishing(row as u64);
        Ok(())
    }
}

impl<F: Drop> EvaluationVector<F> {
    /// Takes the rows of the matrix as values. A row is filled if its truth value is `true`. The
    /// number of rows is a power of two, and there is a truth value for each.
    ///
    /// ```
    /// let cells = vec![in alloc; F::from(7), F::from(3)]?;
    /// let filled = VanishingPoints::all_non_vanishing(alloc, 1)?;
    /// let values = EvaluationVector::from_parts(Matrix::from_cells(2, 1, cells), filled);
    /// values.filled_rows(); // 2
    /// values.data().into_cells(); // [7, 3]
    /// ```
    pub fn from_parts(matrix: Matrix<F>, filled: VanishingPoints) -> Self
        requires power { IsPowerOfTwo matrix.rows }
        requires count { length filled ≡ matrix.rows }
        ensures matrix { result.matrix ≡ matrix }
        ensures filled { result.filled ≡ filled }
    {
        EvaluationVector { matrix, filled }
    }

    /// Returns the matrix of the cells, of filled rows and of others.
    pub fn data(self) -> Matrix<F>
        ensures { result ≡ self.matrix }
    {
        self.matrix
    }

    /// Returns row i of the cells, whether it is filled or not; i is below the number of rows.
    pub fn row(&self, i: usize) -> &[F]
        requires { i < self.now.matrix.rows }
        ensures row { result.now ≡ row_of self.now.matrix i }
        ensures count { length result.now ≡ self.now.matrix.cols }
    {
        self.matrix.row(i)
    }

    /// Returns whether row i is filled; i is below the number of rows.
    pub fn is_filled(&self, i: usize) -> bool
        requires { i < self.now.matrix.rows }
        ensures { slice_get self.now.filled i ≡ Some result }
    {
        self.filled.get(i as u64)
    }

    /// Returns how many distinct rows are filled.
    pub fn filled_rows(&self) -> usize
        ensures { result ≡ count_true self.now.filled }
    {
        self.filled.count_non_vanishing() as usize
    }
}

impl<F: Object> EvaluationVector<F> {
    /// Returns whether both have as many rows, as many columns, the same cell in each place, and
    /// the same filled rows. If calls on cells are never refused, neither is this one.
    ///
    /// ```
    /// let mut values = EvaluationVector::empty(alloc, 1, 1)?;
    /// values.fill_row(alloc, 1, &[F::from(4)])?;
    /// values.equals(alloc, &EvaluationVector::empty(alloc, 1, 1)?)?; // false
    /// ```
    pub fn equals(&self, alloc: Global, other: &Self) -> Mem<bool>
        ensures ok { IfOk result
            (λ answer. IsTrue answer ↔ AreSameEvaluations F.same self.now other.now) }
        ensures never { IsTrue F.NEVER_REFUSES → IsOk result }
    {
        if self.filled != other.filled {
            return Ok(false);
        }
        let out = self.matrix.equals(alloc, &other.matrix)?;
        Ok(out)
    }
}
