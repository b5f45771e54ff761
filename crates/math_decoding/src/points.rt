//! Whether points are distinct.

ghost use Rattle.std.specs.Prelude.{◌<◌, ◌↔◌, IsTrue, IfOk, length};
ghost use Rattle.math_theory.specs.Interpolation.{AreApart};
ghost use Rattle.math_decoding.specs.Decodings.{StandsAgain};

use math_base::algebra::{Mem, Object};
use std::alloc::Global;

/// Returns whether no two of the points are the same, as `decode` asks of its points. It compares
/// each pair.
///
/// ```
/// use math_decoding::points::are_distinct;
/// are_distinct(alloc, &[F::from(1), F::from(2), F::from(1)])?; // false
/// ```
pub fn are_distinct<F: Object>(alloc: Global, points: &[F]) -> Mem<bool>
    ensures { IfOk result (λ answer. IsTrue answer ↔ AreApart F.same points.now) }
{
    for i in 0..points.len() {
        if stands_again(alloc, points, i)? {
            return Ok(false);
        }
    }
    Ok(true)
}

/// Whether a point after the one at index i is the same.
fn stands_again<F: Object>(alloc: Global, points: &[F], i: usize) -> Mem<bool>
    requires { i < length points.now }
    ensures { IfOk result (λ answer. IsTrue answer ↔ StandsAgain F.same points.now i) }
{
    for j in i + 1..points.len() {
        if points[i].equals(alloc, &points[j])? {
            return Ok(true);
        }
    }
    Ok(false)
}
