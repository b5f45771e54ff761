//! Rows of cells multiplied by factors, in place.

ghost use Rattle.std.specs.Prelude.{◌≡◌, ◌*◌, ◌<◌, ℕ, IsOk, IsTrue, OnOk, length, slice_index_or};
ghost use Rattle.math_theory.specs.Powers.{power};
ghost use Rattle.math_transforms.specs.RowProducts.{AreRowProducts};

use math_base::algebra::{Mem, Ring};
use std::alloc::Global;

/// Multiplies each cell by the factor.
pub fn multiply_row<F: Ring>(alloc: Global, cells: &mut [F], factor: &F) -> Mem<()>
    ensures products { OnOk result ((k : ℕ) → k < length cells.old
        → F.same (slice_index_or cells.new k F.zero)
        (F.product (slice_index_or cells.old k F.zero) factor.now)) }
    ensures never { IsTrue F.NEVER_REFUSES → IsOk result }
{
    for cell in cells.iter_mut() {
        cell.mul_assign(alloc, factor)?;
    }
    Ok(())
}

/// Multiplies each cell of row i by factor i.
pub fn multiply_rows<F: Ring>(alloc: Global, cells: &mut [F], cols: usize, factors: &[F]) -> Mem<()>
    requires { length cells.old ≡ length factors.now * cols }
    ensures products { OnOk result (AreRowProducts F.Ring (length factors.now) cols (λ i.
        slice_index_or factors.now i F.zero) cells.old cells.new) }
    ensures never { IsTrue F.NEVER_REFUSES → IsOk result }
{
    for i in 0..factors.len() {
        let from = i * cols;
        multiply_row(alloc, &mut cells[from..from + cols], &factors[i])?;
    }
    Ok(())
}

/// Multiplies each cell of row i by power i of `ratio`. Where the columns are polynomials, the
/// value at r becomes that at `ratio` times r.
pub fn dilate_rows<F: Ring>(
    alloc: Global,
    cells: &mut [F],
    cols: usize,
    rows: usize,
    ratio: &F,
) -> Mem<()>
    requires { length cells.old ≡ rows * cols }
    ensures { OnOk result (AreRowProducts F.Ring rows cols (λ i.
        power F.one F.product ratio.now i) cells.old cells.new) }
{
    let mut factor = F::one(alloc)?;
    for i in 0..rows {
        let from = i * cols;
        multiply_row(alloc, &mut cells[from..from + cols], &factor)?;
        factor.mul_assign(alloc, ratio)?;
    }
    Ok(())
}
