//! Shards to coefficients, by weights or by transforms.
//!
//! Let k rows of distinct indices be there, as many as give the data back. The cells of a column
//! are the values of one polynomial of k coefficients at the points of these indices, and its
//! coefficients are written over them. There are two ways. By weights each coefficient takes k
//! products. By transforms (`math_restoring`) it takes some products for each row and level of the
//! domain, which is faster where k is large.
//!
//! In a domain of N = 2^lg points, let 2^l be the least power of two that is k or more. By
//! transforms a column takes N / 2 lg (N / 2) butterflies for both halves of the domain, or N / 2
//! lg N where k is more than N / 2, and 2^l l for its values at 2^l points and the way back. N / 2
//! lg N + 2^l l is a bound on both. A butterfly takes about the time of four products. So weights
//! are taken where k^2 products for a column are no more than four times that bound, and k is no
//! more than a row has cells, since the weights themselves take a recovery of k columns.

ghost use Rattle.std.specs.Prelude.{◌≡◌, ◌*◌, ◌<◌, length, map};
ghost use Rattle.std.specs.Prelude.{IfOk, IfSome, IfNone, OnOk};
ghost use Rattle.math_restoring.specs.Restored.{HaveCellsAsValues};
ghost use Rattle.math_shards.specs.Fitting.{AreCoefficientsOf, AreRowsOf, distinct_among};
ghost use Rattle.math_shards.specs.Weights.{AreIndicesOf};

use super::rows::Row;
use super::weighing::{choose_rows, put_weighed};
use math_base::algebra::Mem;
use math_fields::goldilocks::F;
use math_restoring::restoring::put_restored;
use math_splitting::shards::Layout;
use math_transforms::transform::size_of;
use std::alloc::Global;

/// Whether weights take less time: there are no more rows than a row has cells, and the products
/// that weights take, one for each pair of rows, are no more than some for each row and level of
/// the transforms, in a column.
fn are_weights_cheaper(layout: Layout) -> bool {
    let min = layout.min as usize;
    let part = layout.part();
    let whole = (size_of(layout.lg) / 2).saturating_mul(layout.lg as usize);
    let coset = size_of(part).saturating_mul(part as usize);
    min <= layout.width && min.saturating_mul(min) <= whole.saturating_add(coset).saturating_mul(4)
}

/// Writes the coefficients of all columns over their cells: row t of the cells has the values at
/// the power of the root that is index t.
fn put_coefficients(alloc: Global, indices: &[u32], cells: &mut [F], layout: Layout) -> Mem<()>
    requires indices { AreIndicesOf layout indices.now }
    requires size { length cells.old ≡ length indices.now * layout.width }
    ensures { OnOk result
        (HaveCellsAsValues layout.lg indices.now layout.width cells.old cells.new) }
{
    if are_weights_cheaper(layout) {
        put_weighed(alloc, indices, cells, layout)?;
    } else {
        put_restored(
            alloc,
            indices,
            cells,
            layout.width,
            layout.lg,
            layout.part(),
        )?;
    }
    Ok(())
}

/// The coefficients, row by row, of the polynomials of `min` coefficients that have the cells of
/// the first `min` rows of distinct indices as their values; `None` where there are fewer.
pub(super) fn coefficients<R: Row>(alloc: Global, rows: &[R], layout: Layout) -> Mem<Option<Vec<F>>>
    requires { AreRowsOf R.index R.cells layout rows.now }
    ensures some { IfOk result (λ answer. IfSome answer
        (λ v. AreCoefficientsOf R.index R.cells layout rows.now v.items)) }
    ensures few { IfOk result (λ answer. IfNone answer
        (distinct_among layout.total (map R.index rows.now) < layout.min)) }
{
    let (indices, mut cells) = choose_rows(alloc, rows, layout)?;
    if indices.len() < layout.min as usize {
        return Ok(None);
    }
    put_coefficients(alloc, &indices, &mut cells, layout)?;
    Ok(Some(cells))
}
