//! Rows of words: coefficients and values of polynomials at the points of a domain, one polynomial
//! a column.
//!
//! Recovery stands on `EvaluationVector::from_parts`, since `fill_row` would make a list for each
//! row. `lg_of` tests here that its number is a power of two; the function of that name in
//! `math_transforms` asks for one.

ghost use Rattle.std.specs.Prelude.{◌≡◌, ◌↔◌, ◌<◌, ◌≤◌, ◌*◌, ◌^◌, ◌++◌, IsTrue, IsSome, IfOk, IfSome, OnOk, OnErr, length, All};
ghost use Rattle.c_calls.specs.WordElements.{elements};
ghost use Rattle.c_calls.specs.WordRows.{
  AreElementRows,
  AreElementsWhereFilled,
  AreFilledElements,
  AreRecoveredWords,
  AreWordValues,
  HasRows,
  HasRowsFor,
  IsDomainSize,
  truth,
};

mod filled;

use crate::elements::{are_elements, write_numbers};
use commonware_math::algebra::Mem;
use commonware_math::fields::goldilocks::F;
use commonware_math::ntt::{EvaluationVector, Matrix, PolynomialVector, VanishingPoints};
pub use filled::FilledRows;
use math_transforms::transform::size_of;
use std::alloc::Global;

/// The lg of the number, where it is 2^lg for an lg of at most 32.
fn lg_of(n: usize) -> Option<u8>
    ensures lg { IfSome result (λ lg. (lg ≤ 32) × (n ≡ 2 ^ lg)) }
    ensures some { IsDomainSize n → IsSome result }
{
    for lg in 0..33 {
        if size_of(lg) == n {
            return Some(lg);
        }
    }
    None
}

/// The lg of the number of rows of n cells in rows of `cols`, where it is that of the points of a
/// domain.
pub fn lg_of_rows(n: usize, cols: usize) -> Option<u8>
    ensures lg { IfSome result (λ lg. (lg ≤ 32) × HasRowsFor n cols (2 ^ lg)) }
    ensures rows { IfSome result (λ _. HasRows n cols) }
    ensures some { HasRows n cols → IsSome result }
{
    if cols == 0 || n % cols != 0 {
        return None;
    }
    lg_of(n / cols)
}

/// The lg of `rows`, where n cells are so many rows of `cols`, and these are as many as the points
/// of a domain.
pub fn lg_of_these_rows(n: usize, cols: usize, rows: usize) -> Option<u8>
    ensures lg { IfSome result (λ lg. (lg ≤ 32) × (rows ≡ 2 ^ lg) × HasRowsFor n cols rows) }
    ensures some { HasRowsFor n cols rows → IsSome result }
{
    match lg_of_rows(n, cols) {
        Some(lg) if size_of(lg) == rows => Some(lg),
        _ => None,
    }
}

/// Whether each byte is 0 or 1.
pub fn are_marks(bytes: &[u8]) -> bool
    ensures { IsTrue result ↔ All (λ b. b ≤ 1) bytes.now }
{
    bytes.iter().all(|b| *b <= 1)
}

/// Whether the words of the rows whose byte is 1 are below P.
pub fn are_filled_elements(cells: &[u64], cols: usize, bytes: &[u8]) -> bool
    requires { length cells.now ≡ length bytes.now * cols }
    ensures { IsTrue result ↔ AreFilledElements cols cells.now bytes.now }
{
    for i in 0..bytes.len() {
        let from = i * cols;
        if bytes[i] == 1 && !are_elements(&cells[from..from + cols]) {
            return false;
        }
    }
    true
}

/// The elements as a matrix.
pub(crate) fn matrix_of(cells: Vec<F>, rows: usize, cols: usize) -> Matrix<F>
    requires { length cells.items ≡ rows * cols }
    ensures { result ≡ record { rows = rows; cols = cols; cells = cells.items } }
{
    Matrix::from_cells(rows, cols, cells)
}

/// Adds the words as elements.
fn push_elements(out: &mut Vec<F>, words: &[u64]) -> Mem<()>
    ensures { OnOk result (out.new.items ≡ out.old.items ++ elements words.now) }
{
    for word in words {
        out.push(F::from(*word))?;
    }
    Ok(())
}

/// The words of the rows whose byte is 1 as elements, and zeros in place of the others, which are
/// not read.
pub(crate) fn filled_elements(
    alloc: Global,
    cells: &[u64],
    cols: usize,
    bytes: &[u8],
) -> Mem<Vec<F>>
    requires { length cells.now ≡ length bytes.now * cols }
    ensures count { IfOk result (λ v. length v.items ≡ length bytes.now * cols) }
    ensures filled { IfOk result (λ v. AreElementsWhereFilled cols cells.now bytes.now v.items) }
{
    let mut out = Vec::with_capacity(alloc, cells.len())?;
    for i in 0..bytes.len() {
        let from = i * cols;
        if bytes[i] == 1 {
            push_elements(&mut out, &cells[from..from + cols])?;
        } else {
            out.resize(from + cols, F::from(0))?;
        }
    }
    Ok(out)
}

/// Puts the values of the polynomials whose coefficients the columns are in place of these, which
/// are handed in as elements too.
pub fn evaluate(alloc: Global, cells: &mut [u64], items: Vec<F>, lg: u8, cols: usize) -> Mem<()>
    requires { AreElementRows lg cols cells.old items.items }
    ensures ok { OnOk result (AreWordValues cols cells.old cells.new) }
    ensures err { OnErr result (cells.new ≡ cells.old) }
{
    let matrix = matrix_of(items, size_of(lg), cols);
    let polynomials = PolynomialVector::from_matrix(matrix);
    let values = polynomials.evaluate(alloc)?.data().into_cells();
    write_numbers(cells, &values);
    Ok(())
}

/// Puts the coefficients of the polynomials whose values the columns are in place of these, which
/// are handed in as elements too.
pub fn interpolate(alloc: Global, cells: &mut [u64], items: Vec<F>, lg: u8, cols: usize) -> Mem<()>
    requires { AreElementRows lg cols cells.old items.items }
    ensures ok { OnOk result (AreWordValues cols cells.new cells.old) }
    ensures err { OnErr result (cells.new ≡ cells.old) }
{
    let matrix = matrix_of(items, size_of(lg), cols);
    let points = VanishingPoints::all_non_vanishing(alloc, u32::from(lg))?;
    let values = EvaluationVector::from_parts(matrix, points);
    let coefficients = values.recover(alloc)?.data().into_cells();
    write_numbers(cells, &coefficients);
    Ok(())
}

/// A point for each byte, true where the byte is 1.
pub(crate) fn points(alloc: Global, lg: u8, bytes: &[u8]) -> Mem<VanishingPoints>
    requires small { lg ≤ 32 }
    requires count { length bytes.now ≡ 2 ^ lg }
    ensures { IfOk result (λ points. points ≡ truth bytes.now) }
{
    let mut out = VanishingPoints::new(alloc, u32::from(lg))?;
    for i in 0..bytes.len() {
        if bytes[i] == 1 {
            out.set_non_vanishing(i as u64);
        }
    }
    Ok(out)
}

/// Puts the coefficients of the polynomials that fit the filled rows in place of the cells.
pub fn recover(alloc: Global, cells: &mut [u64], filled: &FilledRows<'_>) -> Mem<()>
    requires whole { length cells.old ≡ length filled.now.bytes.now * filled.now.cols }
    requires below { AreFilledElements filled.now.cols cells.old filled.now.bytes.now }
    ensures ok { OnOk result (AreRecoveredWords filled.now.cols
        cells.old filled.now.bytes.now cells.new) }
    ensures err { OnErr result (cells.new ≡ cells.old) }
{
    let FilledRows { lg, cols, bytes } = *filled;
    let items = filled_elements(alloc, cells, cols, bytes)?;
    let matrix = matrix_of(items, bytes.len(), cols);
    let points = points(alloc, lg, bytes)?;
    let values = EvaluationVector::from_parts(matrix, points);
    let coefficients = values.recover(alloc)?.data().into_cells();
    write_numbers(cells, &coefficients);
    Ok(())
}
