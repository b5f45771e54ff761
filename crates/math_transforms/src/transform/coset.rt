//! Values on a domain of 2^lg points, moved to the coset of the domain by the shift.
//!
//! The way back from the tree of the domain gives 2^lg times the coefficients, and the tree of the
//! coset leads from these to the values on it. The rows of values are in bit-reversed order in
//! both, so that no row changes its place.

ghost use Rattle.std.specs.Prelude.{◌≡◌, ◌+◌, ◌*◌, ◌<◌, ◌≤◌, ◌^◌, IsOk, IsTrue, OnOk, length};
ghost use Rattle.math_transforms.specs.Domains.{IsDomain};
ghost use Rattle.math_transforms.specs.CosetValues.{AreMovedValues};
ghost use Rattle.math_transforms.specs.CountedWork.{AddsAllOrSome};
ghost use Rattle.math_transforms.specs.RootTrees.{IsTreeOf};

use crate::points_below::{Points, evaluate_below, interpolate_below};
use crate::work::Work;
use math_base::algebra::{FieldNTT, Mem};
use std::alloc::Global;

/// Turns 2^lg rows of values at the powers of the root of order 2^lg into rows of 2^lg times the
/// values that the same polynomials have at the shift times these powers. Both are in bit-reversed
/// order.
///
/// Adds cols 2^lg lg butterflies. Where it is refused, the cells have some values, and one
/// butterfly or more is counted.
pub fn move_rows<F: FieldNTT>(
    alloc: Global,
    cells: &mut [F],
    cols: usize,
    lg: u8,
    interpolation: &[F],
    coset: &[F],
    work: &mut Work,
) -> Mem<()>
    requires domain { IsDomain F.MAX_LG_ROOT_ORDER lg }
    requires some { 0 < lg }
    requires size { length cells.old ≡ 2 ^ lg * cols }
    requires interpolation { IsTreeOf F.Ring
        (λ l. F.inverse (F.root l)) F.one lg interpolation.now }
    requires coset { IsTreeOf F.Ring F.root F.shift lg coset.now }
    requires room { 2 * work.old.butterflies + (cols + cols) * 2 ^ lg * lg < 2 ^ 129 }
    ensures size { length cells.new ≡ length cells.old }
    ensures moved { OnOk result
        (AreMovedValues F.Ring (F.root lg) F.shift lg cols cells.old cells.new) }
    ensures counted { AddsAllOrSome ((cols + cols) * 2 ^ lg * lg) result work.old work.new }
    ensures never { IsTrue F.NEVER_REFUSES → IsOk result }
{
    let inverses = Points {
        roots: interpolation,
        place: 1,
        lg,
    };
    interpolate_below(alloc, cells, cols, &inverses, work)?;
    let points = Points {
        roots: coset,
        place: 1,
        lg,
    };
    evaluate_below(alloc, cells, cols, &points, work)?;
    Ok(())
}
