//! Matrices.

ghost use Rattle.std.specs.Prelude.{
  ◌≡◌,
  ◌↔◌,
  ◌+◌,
  ◌*◌,
  ◌<◌,
  ◌^◌,
  List,
  Some,
  IsTrue,
  IsOk,
  IfOk,
  length,
  slice_get,
};
ghost use Rattle.std.specs.List.{AllZip};
ghost use Rattle.std.specs.Iterator.{YieldsFirstRef, item_count};
ghost use Rattle.math_transforms.specs.Matrices.{
  rows_of,
  row_of,
  IsOfSize,
  AreSameMatrices,
  IsIterable,
  IsProductOf,
};
ghost use Rattle.math_ntt.specs.MatrixItems.{AreFirstItems};

mod encoding;
mod product;
mod sampling;

use math_base::algebra::{Additive, Mem, Object, Ring};
use math_transforms::cells::{copies, filled_up};
use std::alloc::Global;
use std::fmt;
use std::marker::Model;
use std::ops::{Index, IndexMut};

/// A matrix with any number of rows and of columns, which may be zero. Its cells lie row by row.
///
/// ```
/// let m = Matrix::from_cells(1, 3, vec![in alloc; F::from(4), F::from(6), F::from(8)]?);
/// m.rows(); // 1
/// m.cols(); // 3
/// m.row(0); // [4, 6, 8]
/// m[(0, 2)]; // 8
/// ```
#[derive(Drop)]
pub struct Matrix<F: Drop> {
    pub(super) rows: usize,
    pub(super) cols: usize,
    pub(super) cells: Vec<F>,
}

/// A matrix is its numbers of rows and of columns and the list of its cells, row by row.
impl<F: Drop> Model for Matrix<F> {
    ghost use Rattle.std.specs.Prelude.{◌≡◌, ◌*◌, length};
    ghost use Rattle.math_transforms.specs.Matrices.{MatrixOf};

    ghost Value = { MatrixOf F };

    ghost view = { λ m. record { rows = m.rows; cols = m.cols; cells = m.cells.items } };

    ghost invariant = { λ m. length m.cells.items ≡ m.rows * m.cols };
}

impl<F: Additive> Matrix<F> {
    /// Makes the matrix whose cells are the items of `data`, row by row. If there are fewer items
    /// than cells, the further cells are zero. It asks for no more items than cells, so `data` need
    /// not end. The number of cells is below 2^64.
    ///
    /// ```
    /// let m = Matrix::init(alloc, 2, 2, vec![in alloc; F::from(4), F::from(6), F::from(8)]?)?;
    /// m.row(1); // [8, 0]
    /// ```
    pub fn init<P: IntoIterator<Item = F>>(
        alloc: Global,
        rows: usize,
        cols: usize,
        data: P,
    ) -> Mem<Self>
    where
        P::IntoIter: Drop,
        requires fits { rows * cols < 2 ^ 64 }
        requires iterable { IsIterable P.into_iter_gives P.IntoIter.can_next «data» }
        ensures size { IfOk result (λ m. IsOfSize m rows cols) }
        ensures cells { IfOk result (λ m. AreFirstItems F.same F.zero P.into_iter_gives
            P.IntoIter.next_gives (rows * cols) «data» m.cells) }
    {
        let count = rows * cols;
        let mut cells = Vec::new(alloc);
        for cell in data.into_iter().take(count) {
            cells.push(cell)?;
        }
        let cells = filled_up(alloc, cells, count)?;
        Ok(Matrix { rows, cols, cells })
    }

    /// Multiplies the matrices.
    ///
    /// The cell in row i and column k of the product is the sum over j of the cell in row i and
    /// column j of this matrix times the cell in row j and column k of `other`. This matrix has as
    /// many columns as `other` has rows, and the number of cells of the product is below 2^64.
    ///
    /// Row i of the product is the sum of the rows of `other`, row j scaled by cell j of row i
    /// here. So it reads both matrices along their rows.
    ///
    /// ```
    /// let cells = vec![in alloc; F::from(1), F::from(2), F::from(3), F::from(4)]?;
    /// let m = Matrix::from_cells(2, 2, cells);
    /// let v = Matrix::from_cells(2, 1, vec![in alloc; F::from(5), F::from(6)]?);
    /// m.mul(alloc, &v)?.into_cells(); // [17, 39]
    /// ```
    pub fn mul(&self, alloc: Global, other: &Self) -> Mem<Self>
    where
        F: Ring,
        requires shapes { self.now.cols ≡ other.now.rows }
        requires fits { self.now.rows * other.now.cols < 2 ^ 64 }
        ensures size { IfOk result (λ m. IsOfSize m self.now.rows other.now.cols) }
        ensures cells { IfOk result
            (λ m. IsProductOf F.same F.zero F.sum F.product self.now other.now m) }
    {
        let mut cells = Vec::new(alloc);
        for i in 0..self.rows {
            let mut row = product::of_row(alloc, self.row(i), other)?;
            cells.append(&mut row)?;
        }
        Ok(Matrix {
            rows: self.rows,
            cols: other.cols,
            cells,
        })
    }
}

impl<F: Drop> Matrix<F> {
    /// Makes the matrix whose cells are these, row by row; there are as many as rows times columns.
    pub fn from_cells(rows: usize, cols: usize, cells: Vec<F>) -> Self
        requires { length cells.items ≡ rows * cols }
        ensures size { IsOfSize result rows cols }
        ensures cells { result.cells ≡ cells.items }
    {
        Matrix { rows, cols, cells }
    }

    /// Returns the cells, row by row.
    pub fn into_cells(self) -> Vec<F>
        ensures { result.items ≡ self.cells }
    {
        self.cells
    }

    /// Returns the number of rows.
    pub fn rows(&self) -> usize
        ensures { result ≡ self.now.rows }
    {
        self.rows
    }

    /// Returns the number of columns.
    pub fn cols(&self) -> usize
        ensures { result ≡ self.now.cols }
    {
        self.cols
    }

    /// Returns row i, which has as many cells as there are columns; i is below the number of rows.
    pub fn row(&self, i: usize) -> &[F]
        requires { i < self.now.rows }
        ensures row { result.now ≡ row_of self.now i }
        ensures count { length result.now ≡ self.now.cols }
    {
        let from = i * self.cols;
        &self.cells[from..from + self.cols]
    }

    /// Gives the rows in their order, each of as many cells as there are columns.
    ///
    /// ```
    /// let m = Matrix::from_cells(2, 1, vec![in alloc; F::from(4), F::from(6)]?);
    /// let mut rows = m.iter();
    /// rows.next(); // Some([4])
    /// rows.next(); // Some([6])
    /// ```
    pub fn iter(&self) -> Rows<'_, F>
        ensures rows { result ≡ rows_of self.now }
        ensures count { length result ≡ self.now.rows }
        ensures fits { length result < 2 ^ 64 }
    {
        Rows {
            left: self.rows(),
            cols: self.cols,
            cells: &self.cells,
        }
    }
}

impl<F: Drop> Matrix<F> {
    ghost use Rattle.std.specs.Borrow.{sem};
    ghost use Rattle.math_ntt.specs.MatrixLends.{lends_row};

    /// Returns row i, to be written; i is below the number of rows.
    ///
    /// ```
    /// let mut m = Matrix::from_cells(1, 2, vec![in alloc; F::from(4), F::from(6)]?);
    /// m.row_mut(0)[1] = F::from(8);
    /// m.into_cells(); // [4, 8]
    /// ```
    pub fn row_mut(&mut self, i: usize) -> &mut [F]
        requires { i < self.old.rows }
        ensures* writes_back { sem 𝓛 (lends_row F.row self.entry i result) }
        ensures row { result.now ≡ row_of self.old i }
        ensures count { length result.now ≡ self.old.cols }
    {
        let from = i * self.cols;
        let to = from + self.cols;
        self.cells.slice_mut(from..to)
    }
}

/// The cell in row `index.0` and column `index.1`.
impl<F: Drop> Index<(usize, usize)> for Matrix<F> {
    type Output = F;

    ghost can_index = { λ m i. (i.0 < m.rows) × (i.1 < m.cols) };

    ghost index_gives = { λ m i cell. slice_get m.cells (i.0 * m.cols + i.1) ≡ Some cell };

    fn index(&self, index: (usize, usize)) -> &F {
        &self.cells[index.0 * self.cols + index.1]
    }
}

/// The cell in row `index.0` and column `index.1`, to be written.
impl<F: Drop> IndexMut<(usize, usize)> for Matrix<F> {
    ghost use Rattle.std.specs.Borrow.{sem};
    ghost use Rattle.math_ntt.specs.MatrixLends.{lends_cell};

    fn index_mut(&mut self, index: (usize, usize)) -> &mut F
        requires { (index.0 < self.old.rows) × (index.1 < self.old.cols) }
        ensures* writes_back { sem 𝓛 (lends_cell F.row self.entry index result) }
        ensures value { slice_get self.old.cells (index.0 * self.old.cols + index.1)
            ≡ Some result.now }
    {
        let i = index.0 * self.cols + index.1;
        &mut self.cells[i]
    }
}

impl<F: Object> Matrix<F> {
    /// Returns a matrix that equals this one.
    pub fn clone(&self, alloc: Global) -> Mem<Self>
        ensures { IfOk result (λ copy. AreSameMatrices F.same copy self.now) }
    {
        let cells = copies(alloc, &self.cells)?;
        Ok(Matrix {
            rows: self.rows,
            cols: self.cols,
            cells,
        })
    }

    /// Returns whether both have as many rows, as many columns, and in each place the same cell. If
    /// calls on cells are never refused, neither is this one.
    ///
    /// ```
    /// let m = Matrix::from_cells(1, 2, vec![in alloc; F::from(4), F::from(6)]?);
    /// m.equals(alloc, &m.clone(alloc)?)?; // true
    /// ```
    pub fn equals(&self, alloc: Global, other: &Self) -> Mem<bool>
        ensures ok { IfOk result (λ answer. IsTrue answer ↔ AreSameMatrices F.same self.now other.now) }
        ensures never { IsTrue F.NEVER_REFUSES → IsOk result }
    {
        if self.rows != other.rows || self.cols != other.cols {
            return Ok(false);
        }
        all_same(alloc, &self.cells, &other.cells)
    }
}

/// Whether the cells of two slices of one length are the same, place by place.
fn all_same<F: Object>(alloc: Global, a: &[F], b: &[F]) -> Mem<bool>
    requires { length a.now ≡ length b.now }
    ensures ok { IfOk result (λ answer. IsTrue answer ↔ AllZip F.same a.now b.now) }
    ensures never { IsTrue F.NEVER_REFUSES → IsOk result }
{
    for (i, cell) in a.iter().enumerate() {
        if !cell.equals(alloc, &b[i])? {
            return Ok(false);
        }
    }
    Ok(true)
}

/// A space after each cell, and a line end after each row.
impl<F: fmt::Debug + Drop> fmt::Debug for Matrix<F> {
    fn fmt<W: fmt::Write>(&self, f: &mut fmt::Formatter<W>) -> fmt::Result {
        for row in self.iter() {
            for cell in row {
                write!(f, "{cell:?} ")?;
            }
            writeln!(f)?;
        }
        Ok(())
    }
}

/// The rows of a matrix, in their order: see `Matrix::iter`.
#[derive(Drop)]
pub struct Rows<'a, F: Drop> {
    pub(super) left: usize,
    pub(super) cols: usize,
    pub(super) cells: &'a [F],
}

/// The rows that are left.
impl<'a, F: Drop> Model for Rows<'a, F> {
    ghost use Rattle.std.specs.Prelude.{◌≡◌, ◌*◌, List, length};
    ghost use Rattle.math_transforms.specs.Matrices.{pieces};

    ghost Value = { List (List F) };

    ghost view = { λ s. pieces s.left s.cols s.cells.now };

    ghost invariant = { λ s. length s.cells.now ≡ s.left * s.cols };
}

impl<'a, F: Drop> Iterator for Rows<'a, F> {
    type Item = &'a [F];

    ghost next_gives = { YieldsFirstRef (λ rows. rows) };

    ghost remaining = { item_count (λ rows. rows) };

    fn next(&mut self) -> Option<&'a [F]> {
        if self.left == 0 {
            return None;
        }
        let (row, rest) = self.cells.split_at(self.cols);
        self.cells = rest;
        self.left -= 1;
        Some(row)
    }
}
