//! Rows from other rows, where some rows in hand are wrong.
//!
//! A row with a word that is no element is wrong, and counts as missing. The other rows of one
//! index are equal if none of them is wrong: an index at which they differ counts as missing too.
//! The m indices that remain are settled. At most (m - `min`) / 2 of them have wrong rows. Then
//! there is one codeword at most, since two would agree at `min` indices or more. The rows of the
//! settled indices are values of polynomials, and are corrected as such. Then all rows in hand are
//! compared with the codeword.

ghost use Rattle.std.specs.Prelude.{◌≡◌, ◌↔◌, ◌+◌, ◌*◌, ◌<◌, ◌≤◌, ◌^◌, ℕ, All, length};
ghost use Rattle.std.specs.Prelude.{IsTrue, IfOk, IfErr, IfSome, IfNone, OnErr, OnOk};
ghost use Rattle.math_fields.specs.declared.goldilocks.F.{F};
ghost use Rattle.math_restoring.specs.Restored.{item};
ghost use Rattle.systematic_shards.specs.Correcting.{Agrees, AreCorrectedTo, AreMarked};
ghost use Rattle.systematic_shards.specs.Correcting.{ArePositionsWithout, AreSettledRows};
ghost use Rattle.systematic_shards.specs.Correcting.{HasCells, HaveNoneNear, HaveSettled};
ghost use Rattle.systematic_shards.specs.Correcting.{HoldsNear, IsCorrectingDue, IsSettled};
ghost use Rattle.systematic_shards.specs.Correcting.{IsSettledDue, cells_at};
ghost use Rattle.systematic_shards.specs.Refusals.{AreAsked, IsSound};
ghost use Rattle.systematic_shards.specs.Shards.{AreRowsAt, IsRowOf};
ghost use Rattle.systematic_shards.specs.Shards.{element_in, word_in};
ghost use Rattle.row_interpolation.specs.Written.{AreWritten};

use crate::Error;
use crate::mask::{element_of, word_of};
use crate::memory::WordMemory;
use crate::rows::{Row, are_below, check_rows, first_difference, has_elements, row_mask};
use crate::split::Code;
use math_base::algebra::Mem;
use math_fields::goldilocks::F;
use math_ntt::ntt::{EvaluationVector, Matrix, VanishingPoints};
use math_transforms::transform::size_of;
use math_values::strips::strip_room;
use row_interpolation::lg_above;
use std::alloc::Global;

/// Writes the rows of the wanted indices over `out`, row after row, though some rows in hand are
/// wrong, and says which these are.
///
/// A row with a word that is no element counts as missing: in a parity row that is P or more, in a
/// data row one whose high half is all ones under the mask. An index whose other rows differ counts
/// as missing too. Of the m indices that remain at most (m - `min`) / 2 have wrong rows. So there
/// is one codeword at most with the rows of all the others. Its rows are written, and the answer is
/// the positions of the rows in hand that are not its rows, by rising number. If there is no such
/// codeword, the answer is `None`. If more rows are wrong, that may be so, or the rows may be those
/// of another codeword, which is then written.
///
/// It refuses, in this order:
///
/// - no row at all, with `TooFew`;
/// - the first row of a wrong length, with `Mismatch`, or with an index of `total` or more, with
///   `Index`;
/// - a wanted index of `total` or more, with `Index`;
/// - m below `min`, with `TooFew`.
///
/// It takes memory for several times N rows of as many words as a row has, where N is `total`
/// rounded up to a power of two, whether a row is wrong or not. For each row it reads the indices
/// of all rows. If it refuses, or answers `None`, it writes nothing.
///
/// ```
/// use systematic_shards::{Code, Row, Split, rebuild_corrected};
/// let code = Code { split: Split::new(1, 3, 4)?, mask: 0 };
/// let data = Row { index: 0, cells: &[100_u8, 97, 116, 97, 0, 0, 0, 0] };
/// let wrong = Row { index: 1, cells: &[100_u8, 97, 116, 101, 0, 0, 0, 0] };
/// let right = Row { index: 2, cells: &[100_u8, 97, 116, 97, 0, 0, 0, 0] };
/// let mut out = [0_u8; 8];
/// rebuild_corrected(alloc, code, &[data, wrong, right], &[1], &mut out)?; // Some([1])
/// out; // [100, 97, 116, 97, 0, 0, 0, 0]
/// ```
pub fn rebuild_corrected<M: WordMemory>(
    alloc: Global,
    code: Code,
    rows: &[Row<'_, M>],
    wanted: &[u32],
    out: &mut [M],
) -> Result<Option<Vec<usize>>, Error>
    requires room { M.BYTES * length out.old ≡ length wanted.now * (8 * code.split.width) }
    requires size { M.BYTES * length out.old < 2 ^ 64 }
    ensures some { IfOk result (λ answer. IfSome answer (λ positions. (a : ℕ → ℕ → F)
        × AreCorrectedTo M.word code.split code.mask rows.now positions.items a
        × AreRowsAt code.split code.mask a wanted.now (M.word out.new))) }
    ensures none { IfOk result (λ answer. IfNone answer
        (HaveNoneNear M.word code.split code.mask rows.now)) }
    ensures kept { IfOk result (λ answer. IfNone answer (out.new ≡ out.old)) }
    ensures asked { OnOk result (AreAsked M.BYTES code.split rows.now wanted.now) }
    ensures enough { OnOk result
        (HaveSettled M.word code.split code.mask code.split.min rows.now) }
    ensures due { IfErr result
        (IsCorrectingDue M.BYTES M.word code.split code.mask rows.now wanted.now) }
    ensures err { OnErr result (out.new ≡ out.old) }
{
    check_rows(rows, code.split)?;
    if !are_below(wanted, code.split.total) {
        return Err(Error::Index);
    }
    let Some(cells) = corrected_cells(alloc, rows, code)? else {
        return Ok(None);
    };
    let positions = write_corrected(alloc, rows, wanted, &cells, code, out)?;
    Ok(Some(positions))
}

/// Whether the other row has another index than the row, or a word that is no element, or the words
/// of the row.
fn agrees<M: WordMemory>(row: &Row<'_, M>, other: &Row<'_, M>, code: Code) -> bool
    ensures { IsTrue result ↔ Agrees M.word code.split code.mask row.now other.now }
{
    if other.index != row.index {
        return true;
    }
    match first_difference(other.cells, row.cells, code.split.width) {
        Some(_) => !has_elements(other, code),
        None => true,
    }
}

/// Whether the row has words of elements, and each of the rows agrees with it.
fn is_settled<M: WordMemory>(rows: &[Row<'_, M>], row: &Row<'_, M>, code: Code) -> bool
    ensures { IsTrue result ↔ IsSettled M.word code.split code.mask rows.now row.now }
{
    if !has_elements(row, code) {
        return false;
    }
    for other in rows {
        if !agrees(row, other, code) {
            return false;
        }
    }
    true
}

/// 2^lg points, of which those of settled indices are marked.
fn settled_points<M: WordMemory>(
    alloc: Global,
    rows: &[Row<'_, M>],
    code: Code,
    lg: u8,
) -> Mem<VanishingPoints>
    requires small { lg ≤ 32 }
    requires below { All (λ row. row.index < 2 ^ lg) rows.now }
    ensures { IfOk result
        (λ points. AreMarked M.word code.split code.mask rows.now (2 ^ lg) points) }
{
    let mut points = VanishingPoints::new(alloc, lg as u32)?;
    for row in rows {
        if is_settled(rows, row, code) {
            points.set_non_vanishing(row.index as u64);
        }
    }
    Ok(points)
}

/// Writes the elements of the words of the row over the row of its index.
fn put_elements<M: WordMemory>(row: &Row<'_, M>, code: Code, cells: &mut [F])
    requires { (row.now.index + 1) * code.split.width ≤ length cells.old }
    ensures { AreWritten (λ k. row.now.index * code.split.width + k)
        (λ k. element_in code.split.min code.mask row.now.index (M.word row.now.cells.now k))
        code.split.width (item cells.old) (item cells.new) }
{
    let width = code.split.width;
    let from = row.index as usize * width;
    let mask = row_mask(code, row.index);
    for k in 0..width {
        cells[from + k] = element_of(M::read(row.cells, k), mask);
    }
}

/// 2^lg rows of cells: those of settled indices have the elements of their words.
fn settled_cells<M: WordMemory>(
    alloc: Global,
    rows: &[Row<'_, M>],
    code: Code,
    lg: u8,
) -> Mem<Vec<F>>
    requires small { lg ≤ 32 }
    requires below { All (λ row. row.index < 2 ^ lg) rows.now }
    ensures count { IfOk result (λ cells. length cells.items ≡ 2 ^ lg * code.split.width) }
    ensures cells { IfOk result (λ cells. All (λ row.
        IsSettled M.word code.split code.mask rows.now row
        → HasCells M.word code.split code.mask cells.items row) rows.now) }
{
    let mut cells = strip_room(alloc, size_of(lg), code.split.width)?;
    for row in rows {
        if has_elements(row, code) {
            put_elements(row, code, &mut cells);
        }
    }
    Ok(cells)
}

/// The rows of the settled indices, where these are `min` or more.
fn settled_rows<M: WordMemory>(
    alloc: Global,
    rows: &[Row<'_, M>],
    code: Code,
) -> Result<EvaluationVector<F>, Error>
    requires { All (IsSound M.BYTES code.split) rows.now }
    ensures ok { IfOk result (λ e. AreSettledRows M.word code.split code.mask rows.now e) }
    ensures enough { OnOk result
        (HaveSettled M.word code.split code.mask code.split.min rows.now) }
    ensures err { IfErr result (IsSettledDue M.word code.split code.mask rows.now) }
{
    let lg = lg_above(code.split.total);
    let points = settled_points(alloc, rows, code, lg)?;
    if points.count_non_vanishing() < code.split.min as u64 {
        return Err(Error::TooFew);
    }
    let cells = settled_cells(alloc, rows, code, lg)?;
    let matrix = Matrix::from_cells(size_of(lg), code.split.width, cells);
    Ok(EvaluationVector::from_parts(matrix, points))
}

/// The cells, row after row, of the only codeword near the rows, where there is one, and those of
/// further rows.
fn corrected_cells<M: WordMemory>(
    alloc: Global,
    rows: &[Row<'_, M>],
    code: Code,
) -> Result<Option<Vec<F>>, Error>
    requires { All (IsSound M.BYTES code.split) rows.now }
    ensures some { IfOk result (λ answer. IfSome answer
        (λ cells. HoldsNear M.word code.split code.mask rows.now cells.items)) }
    ensures none { IfOk result (λ answer. IfNone answer
        (HaveNoneNear M.word code.split code.mask rows.now)) }
    ensures enough { OnOk result
        (HaveSettled M.word code.split code.mask code.split.min rows.now) }
    ensures err { IfErr result (IsSettledDue M.word code.split code.mask rows.now) }
{
    let values = settled_rows(alloc, rows, code)?;
    let Some(corrected) = values.correct(alloc, code.split.min as usize)? else {
        return Ok(None);
    };
    let found = corrected.polynomials.evaluate(alloc)?;
    Ok(Some(found.data().into_cells()))
}

/// Whether the row has the words of the row of its index among the cells.
fn is_row<M: WordMemory>(row: &Row<'_, M>, cells: &[F], code: Code) -> bool
    requires { (row.now.index + 1) * code.split.width ≤ length cells.now }
    ensures { IsTrue result ↔ IsRowOf code.split code.mask (cells_at code.split.width cells.now)
        row.now.index (M.word row.now.cells.now) }
{
    let width = code.split.width;
    let from = row.index as usize * width;
    let mask = row_mask(code, row.index);
    for k in 0..width {
        if M::read(row.cells, k) != word_of(cells[from + k], mask) {
            return false;
        }
    }
    true
}

/// By rising number, the positions of the rows that are not those of their indices among the cells.
fn unlike_rows<M: WordMemory>(
    alloc: Global,
    rows: &[Row<'_, M>],
    cells: &[F],
    code: Code,
) -> Mem<Vec<usize>>
    requires below { All (λ row. row.index < code.split.total) rows.now }
    requires count { code.split.total * code.split.width ≤ length cells.now }
    ensures { IfOk result (λ positions. ArePositionsWithout (λ row. IsRowOf code.split code.mask
        (cells_at code.split.width cells.now) row.index (M.word row.cells.now))
        rows.now positions.items) }
{
    let mut positions = Vec::new(alloc);
    for (position, row) in rows.iter().enumerate() {
        if !is_row(row, cells, code) {
            positions.push(position)?;
        }
    }
    Ok(positions)
}

/// Writes the words of the row of this index among the cells as row `place` of `out`.
fn write_row<M: WordMemory>(cells: &[F], index: u32, place: usize, code: Code, out: &mut [M])
    requires cells { (index + 1) * code.split.width ≤ length cells.now }
    requires inside { (place + 1) * code.split.width ≤ 2 ^ 61 }
    requires room { 8 * ((place + 1) * code.split.width) ≤ M.BYTES * length out.old }
    ensures { AreWritten (λ k. place * code.split.width + k)
        (λ k. word_in code.split.min code.mask index (cells_at code.split.width cells.now index k))
        code.split.width (M.word out.old) (M.word out.new) }
{
    let width = code.split.width;
    let from = index as usize * width;
    let mask = row_mask(code, index);
    for k in 0..width {
        M::write(out, place * width + k, word_of(cells[from + k], mask));
    }
}

/// Writes the words of the rows of these indices among the cells over `out`, row after row.
fn write_rows<M: WordMemory>(cells: &[F], wanted: &[u32], code: Code, out: &mut [M])
    requires below { All (λ i. i < code.split.total) wanted.now }
    requires count { code.split.total * code.split.width ≤ length cells.now }
    requires room { M.BYTES * length out.old ≡ length wanted.now * (8 * code.split.width) }
    requires size { M.BYTES * length out.old < 2 ^ 64 }
    ensures { AreRowsAt code.split code.mask (cells_at code.split.width cells.now) wanted.now
        (M.word out.new) }
{
    for t in 0..wanted.len() {
        write_row(cells, wanted[t], t, code, out);
    }
}

/// Writes the rows of the wanted indices among the cells over `out`, row after row, and says which
/// rows in hand are not those of their indices. If memory is refused, it writes nothing.
fn write_corrected<M: WordMemory>(
    alloc: Global,
    rows: &[Row<'_, M>],
    wanted: &[u32],
    cells: &[F],
    code: Code,
    out: &mut [M],
) -> Mem<Vec<usize>>
    requires below { All (λ row. row.index < code.split.total) rows.now }
    requires wanted { All (λ i. i < code.split.total) wanted.now }
    requires count { code.split.total * code.split.width ≤ length cells.now }
    requires room { M.BYTES * length out.old ≡ length wanted.now * (8 * code.split.width) }
    requires size { M.BYTES * length out.old < 2 ^ 64 }
    ensures ok { IfOk result (λ positions. ArePositionsWithout (λ row. IsRowOf code.split code.mask
        (cells_at code.split.width cells.now) row.index (M.word row.cells.now))
        rows.now positions.items) }
    ensures rows { OnOk result (AreRowsAt code.split code.mask
        (cells_at code.split.width cells.now) wanted.now (M.word out.new)) }
    ensures err { OnErr result (out.new ≡ out.old) }
{
    let positions = unlike_rows(alloc, rows, cells, code)?;
    write_rows(cells, wanted, code, out);
    Ok(positions)
}
