//! The command `recover LG ROW..`: the polynomials that agree with some rows of values on a domain.
//!
//! The rows of the words are gone over twice: first the ones that are there twice are found, and
//! then each is put in its place. A set of rows that is kept between the two would be one more
//! field of `Recovery`, with a clause in each function that takes one.

ghost use Rattle.std.specs.Prelude.{◌≡◌, ◌≢◌, ◌↔◌, ◌<◌, ◌≤◌, ◌*◌, ◌^◌, ℕ, List, Some, IsTrue, IfOk, IfSome, MatchResult, length, map, string_bytes, All, AllPairs, IsSome};
ghost use Rattle.std.specs.List.{AllZip};
ghost use Rattle.math_codec.specs.Faults.{Agrees, IsMemory};
ghost use Rattle.math_transforms.specs.Matrices.{MatrixOf};
ghost use Rattle.goldmath_commands.specs.Numerals.{WritesNumber, WritesRow};
ghost use Rattle.goldmath_commands.specs.Recoveries.{
  AreRecoverWords,
  EncodesRecovered,
  HasSize,
  HoldsRows,
  IsEncodedMatrix,
  scan_rows,
  scan_size,
};

use crate::text::number_in;
use commonware_math::codec::{self, Error, Mem, Write, decode};
use commonware_math::fields::goldilocks::F;
use commonware_math::ntt::{EvaluationVector, Matrix, VanishingPoints};
use std::alloc::Global;

/// The greatest number of rows, of columns and of cells.
const MOST_CELLS: usize = 1 << 24;

/// The domain of 2^lg points, and the number of the point that each row of values is at. No two
/// rows are at one point.
#[derive(Drop)]
pub struct Recovery {
    pub lg: usize,
    pub rows: Vec<u64>,
    ghost small: { lg ≤ 24 },
    ghost below: { All (λ row. row < 2 ^ lg) rows.items },
    ghost distinct: { AllPairs (λ i j. i ≢ j) rows.items },
}

/// LG, which is at most 24, where a word writes it.
fn lg_in(word: &str) -> Option<usize>
    ensures written { IfSome result (λ lg. WritesNumber word.now lg × (lg ≤ 24)) }
    ensures found { (lg : ℕ) → lg ≤ 24 → WritesNumber word.now lg → result ≡ Some lg }
{
    match number_in(word) {
        Some(lg) if lg <= 24 => Some(lg as usize),
        _ => None,
    }
}

/// The number of a row, which is below 2^lg, where a word writes one.
fn row_in(word: &str, lg: usize) -> Option<u64>
    requires { lg < 64 }
    ensures written { IfSome result (WritesRow lg word.now) }
    ensures found { (row : ℕ) → WritesRow lg word.now row → result ≡ Some row }
{
    number_in(word).filter(|row| *row < 1 << lg)
}

/// The numbers of the rows, where each word writes one.
fn rows_in(alloc: Global, words: &[String], lg: usize) -> Mem<Option<Vec<u64>>>
    requires { lg < 64 }
    ensures written { IfOk result (λ answer. IfSome answer (λ rows.
        AllZip (WritesRow lg) (map string_bytes words.now) rows.items)) }
    ensures found { (rows : List ℕ) → AllZip (WritesRow lg) (map string_bytes words.now) rows
        → IfOk result (λ answer. IsSome answer × IfSome answer (λ found. found.items ≡ rows)) }
{
    let mut rows = Vec::new(alloc);
    for word in words {
        let Some(row) = row_in(word.as_str(), lg) else {
            return Ok(None);
        };
        rows.push(row)?;
    }
    Ok(Some(rows))
}

/// Whether no two rows are equal. Each is below 2^lg.
fn are_distinct(alloc: Global, rows: &[u64], lg: usize) -> Mem<bool>
    requires small { lg ≤ 24 }
    requires below { All (λ row. row < 2 ^ lg) rows.now }
    ensures { IfOk result (λ answer. IsTrue answer ↔ AllPairs (λ i j. i ≢ j) rows.now) }
{
    let mut seen = VanishingPoints::new(alloc, lg as u32)?;
    for row in rows {
        if seen.get(*row) {
            return Ok(false);
        }
        seen.set_non_vanishing(*row);
    }
    Ok(true)
}

/// LG and the rows, where the words are those of the command.
pub fn recovery_in(alloc: Global, words: &[String]) -> Mem<Option<Recovery>>
    ensures written { IfOk result (λ answer. IfSome answer (λ found.
        AreRecoverWords (map string_bytes words.now) found.lg found.rows.items)) }
    ensures found { (lg : ℕ) (rows : List ℕ) → AreRecoverWords (map string_bytes words.now) lg rows
        → IfOk result (λ answer. IsSome answer × IfSome answer
        (λ found. (found.lg ≡ lg) × (found.rows.items ≡ rows))) }
{
    let [command, lg, rows @ ..] = words else {
        return Ok(None);
    };
    if command.as_str() != "recover" {
        return Ok(None);
    }
    let Some(lg) = lg_in(lg.as_str()) else {
        return Ok(None);
    };
    let Some(rows) = rows_in(alloc, rows, lg)? else {
        return Ok(None);
    };
    if !are_distinct(alloc, &rows, lg)? {
        return Ok(None);
    }
    Ok(Some(Recovery { lg, rows }))
}

/// Refuses a matrix whose number of rows is not that of the words, or whose columns would take too
/// many cells at 2^lg rows.
fn check_size(recovery: &Recovery, matrix: &Matrix<F>) -> Result<(), codec::Error>
    ensures { Agrees (λ _. tt) result
        (scan_size recovery.now.lg (length recovery.now.rows.items)
        matrix.now.rows matrix.now.cols) }
{
    if matrix.rows() != recovery.rows.len() {
        return Err(Error::Invalid("Matrix", "row count does not match words"));
    }
    if matrix.cols() > MOST_CELLS >> recovery.lg {
        return Err(Error::Invalid("Matrix", "too many cells"));
    }
    Ok(())
}

/// A vector of 2^lg rows of zeros, in which each row of the matrix is put in the place that its
/// word names.
fn place_rows(alloc: Global, recovery: &Recovery, matrix: &Matrix<F>) -> Mem<EvaluationVector<F>>
    requires { HasSize recovery.now.lg (length recovery.now.rows.items) matrix.now }
    ensures { IfOk result (HoldsRows recovery.now.lg recovery.now.rows.items matrix.now
        (length recovery.now.rows.items)) }
{
    let mut values = EvaluationVector::empty(alloc, recovery.lg, matrix.cols())?;
    for i in 0..recovery.rows.len() {
        values.fill_row(alloc, recovery.rows[i] as usize, matrix.row(i))?;
    }
    Ok(values)
}

/// What `recover_matrix` answers.
#[tactic(auto, unfolding(crate::specs::Recoveries::scan_rows))]
fn recovered_exactly(
    alloc: Global,
    recovery: &Recovery,
    bytes: &[u8],
) -> Result<Vec<u8>, codec::Error>
    ensures answer { IfOk result (λ out. (m : MatrixOf F) × IsEncodedMatrix bytes.now m
        × EncodesRecovered recovery.now.lg recovery.now.rows.items m out.items) }
    ensures exact { Agrees (λ _. tt) result
        (scan_rows recovery.now.lg (length recovery.now.rows.items) bytes.now) }
{
    let matrix: Matrix<F> = decode(alloc, bytes, &(MOST_CELLS as u32, ()))?;
    check_size(recovery, &matrix)?;
    let polynomials = place_rows(alloc, recovery, &matrix)?.recover(alloc)?.data();
    let mut out = Vec::new(alloc);
    polynomials.write(alloc, &mut out)?;
    Ok(out)
}

/// The encoding of the matrix of 2^lg rows whose column k holds the coefficients of the polynomial
/// of column k of the matrix that the bytes encode.
///
/// Where the bytes are no encoded matrix, it refuses with the first fault of the bytes; then with
/// `Invalid` where the number of rows is not that of the words, and where 2^lg rows of these
/// columns would be more than 2^24 cells.
pub fn recover_matrix(
    alloc: Global,
    recovery: &Recovery,
    bytes: &[u8],
) -> Result<Vec<u8>, codec::Error>
    ensures answer { IfOk result (λ out. (m : MatrixOf F) × IsEncodedMatrix bytes.now m
        × EncodesRecovered recovery.now.lg recovery.now.rows.items m out.items) }
    ensures encoded { (m : MatrixOf F) → IsEncodedMatrix bytes.now m
        → HasSize recovery.now.lg (length recovery.now.rows.items) m
        → MatchResult result
        (λ out. EncodesRecovered recovery.now.lg recovery.now.rows.items m out.items) IsMemory }
    ensures exact { Agrees (λ _. tt) result
        (scan_rows recovery.now.lg (length recovery.now.rows.items) bytes.now) }
{
    recovered_exactly(alloc, recovery, bytes)
}
