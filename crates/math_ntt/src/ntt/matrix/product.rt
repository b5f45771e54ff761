//! Products of matrices, a row at a time.

ghost use Rattle.std.specs.Prelude.{◌≡◌, ◌<◌, ℕ, IfOk, OnOk, length, get_or};
ghost use Rattle.math_theory.specs.Sums.{weighted_sum};
ghost use Rattle.math_transforms.specs.Matrices.{column_of};

use super::Matrix;
use math_base::algebra::{Mem, Ring};
use math_transforms::cells::filled_up;
use std::alloc::Global;

/// A row times a matrix: the sum of the rows of the matrix, row j scaled by cell j of the row.
pub(super) fn of_row<F: Ring>(alloc: Global, row: &[F], other: &Matrix<F>) -> Mem<Vec<F>>
    requires { length row.now ≡ other.now.rows }
    ensures count { IfOk result (λ v. length v.items ≡ other.now.cols) }
    ensures cells { IfOk result
        (λ v. (k : ℕ) → k < other.now.cols → F.same (get_or v.items k F.zero)
        (weighted_sum F.zero F.sum F.product row.now (column_of F.zero other.now k))) }
{
    let mut sums = filled_up(alloc, Vec::new(alloc), other.cols)?;
    for (j, factor) in row.iter().enumerate() {
        add_multiple(alloc, &mut sums, factor, other.row(j))?;
    }
    Ok(sums)
}

/// Adds `factor` times each cell of the row to the sum in its place. Where it is refused, some of
/// the sums may have changed.
fn add_multiple<F: Ring>(alloc: Global, sums: &mut [F], factor: &F, row: &[F]) -> Mem<()>
    requires { length row.now ≡ length sums.old }
    ensures sums { OnOk result ((k : ℕ) → k < length row.now → F.same (get_or sums.new k F.zero)
        (F.sum (get_or sums.old k F.zero) (F.product factor.now (get_or row.now k F.zero)))) }
{
    for (k, cell) in row.iter().enumerate() {
        let term = factor.clone(alloc)?.mul(alloc, cell)?;
        sums[k].add_assign(alloc, &term)?;
    }
    Ok(())
}
