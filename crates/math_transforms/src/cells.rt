//! Lists of cells.

ghost use Rattle.std.specs.Prelude.{
  ◌≡◌,
  ◌<◌,
  ◌≤◌,
  ℕ,
  IfOk,
  IsOk,
  IsTrue,
  OnOk,
  length,
  slice_index_or,
};
ghost use Rattle.std.specs.List.{AllZip};
ghost use Rattle.math_transforms.specs.Matrices.{AreFilledUp};

use math_base::algebra::{Additive, Mem, Object};
use std::alloc::Global;

/// Copies of the cells, in their order.
pub fn copies<F: Object>(alloc: Global, cells: &[F]) -> Mem<Vec<F>>
    ensures { IfOk result (λ v. AllZip F.same v.items cells.now) }
{
    let mut out = Vec::new(alloc);
    for cell in cells {
        out.push(cell.clone(alloc)?)?;
    }
    Ok(out)
}

/// Writes over the first `count` cells of `to` copies of those of `from`.
pub(crate) fn copy_cells<F: Additive>(
    alloc: Global,
    from: &[F],
    to: &mut [F],
    count: usize,
) -> Mem<()>
    requires from { count ≤ length from.now }
    requires to { count ≤ length to.old }
    ensures size { length to.new ≡ length to.old }
    ensures copied { OnOk result ((p : ℕ) → p < count
        → F.same (slice_index_or to.new p F.zero) (slice_index_or from.now p F.zero)) }
    ensures never { IsTrue F.NEVER_REFUSES → IsOk result }
{
    for p in 0..count {
        to[p] = from[p].clone(alloc)?;
    }
    Ok(())
}

/// The cells, and after them as many zeros as make their number `count`. Room for all is taken
/// before the first zero is written.
pub fn filled_up<F: Additive>(alloc: Global, cells: Vec<F>, count: usize) -> Mem<Vec<F>>
    requires { length cells.items ≤ count }
    ensures count { IfOk result (λ v. length v.items ≡ count) }
    ensures cells { IfOk result (λ v. AreFilledUp F.same F.zero cells.items v.items) }
{
    let mut out = cells;
    out.reserve(count - out.len())?;
    for _done in out.len()..count {
        out.push(F::zero(alloc)?)?;
    }
    Ok(out)
}
