//! Butterflies: the cells of two rows combined, column by column.

ghost use Rattle.std.specs.Prelude.{◌≡◌, ◌+◌, ◌*◌, IsOk, IsTrue, OnOk, length};
ghost use Rattle.math_base.specs.Columns.{IsCombined};
ghost use Rattle.math_transforms.specs.CombinedCells.{AreCombined};

use math_base::algebra::{Additive, FieldNTT, Mem, Multiplicative, Object, Ring};
use std::alloc::Global;

/// Puts the sum and the difference of two cells in their places.
pub(crate) fn sum_and_difference<F: Additive>(alloc: Global, low: &mut F, high: &mut F) -> Mem<()>
    ensures sum { OnOk result (F.same low.new (F.sum low.old high.old)) }
    ensures difference { OnOk result (F.same high.new (F.sum low.old (F.negative high.old))) }
    ensures never { IsTrue F.NEVER_REFUSES → IsOk result }
{
    let mut difference = low.clone(alloc)?;
    difference.sub_assign(alloc, high)?;
    low.add_assign(alloc, high)?;
    *high = difference;
    Ok(())
}

/// Combines a pair of cells by a weight: forward to low + high w and low - high w, and on the way
/// back to low + high and (low - high) w. `AT_ONE` says that the weight is one: then no product is
/// taken.
pub(crate) fn combine<F: FieldNTT, const FORWARD: bool, const AT_ONE: bool>(
    alloc: Global,
    low: &mut F,
    high: &mut F,
    w: &F,
) -> Mem<()>
    requires one { IsTrue AT_ONE → F.same w.now F.one }
    ensures combined { OnOk result
        (IsCombined F.Ring FORWARD w.now low.old high.old low.new high.new) }
    ensures never { IsTrue F.NEVER_REFUSES → IsOk result }
{
    if AT_ONE {
        sum_and_difference(alloc, low, high)?;
        return Ok(());
    }
    if FORWARD {
        high.mul_assign(alloc, w)?;
        sum_and_difference(alloc, low, high)?;
    } else {
        sum_and_difference(alloc, low, high)?;
        high.mul_assign(alloc, w)?;
    }
    Ok(())
}

/// Combines two rows of `cols` cells: the columns that the type takes at once, and then the others
/// one by one.
fn combine_columns<F: FieldNTT, const FORWARD: bool, const AT_ONE: bool>(
    alloc: Global,
    rows: &mut [F],
    cols: usize,
    w: &F,
) -> Mem<()>
    requires size { length rows.old ≡ 2 * cols }
    requires one { IsTrue AT_ONE → F.same w.now F.one }
    ensures combined { OnOk result (AreCombined F.Ring FORWARD w.now cols rows.old rows.new) }
    ensures never { IsTrue F.NEVER_REFUSES → IsOk result }
{
    let done = F::combine_first_columns(alloc, rows, cols, w, FORWARD)?;
    for p in done..cols {
        let second = cols + p;
        let mut low = rows[p].clone(alloc)?;
        let mut high = rows[second].clone(alloc)?;
        combine::<F, FORWARD, AT_ONE>(alloc, &mut low, &mut high, w)?;
        rows[p] = low;
        rows[second] = high;
    }
    Ok(())
}

/// Combines two rows of `cols` cells, which follow one another, by one weight. Where it is one, no
/// product is taken.
pub(crate) fn combine_rows<F: FieldNTT, const FORWARD: bool>(
    alloc: Global,
    rows: &mut [F],
    cols: usize,
    w: &F,
) -> Mem<()>
    requires size { length rows.old ≡ 2 * cols }
    ensures combined { OnOk result (AreCombined F.Ring FORWARD w.now cols rows.old rows.new) }
    ensures never { IsTrue F.NEVER_REFUSES → IsOk result }
{
    let one = F::one(alloc)?;
    let at_one = w.equals(alloc, &one)?;
    if at_one {
        combine_columns::<F, FORWARD, true>(alloc, rows, cols, w)?;
        return Ok(());
    }
    combine_columns::<F, FORWARD, false>(alloc, rows, cols, w)?;
    Ok(())
}
