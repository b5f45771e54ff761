//! Weights at a point.

ghost use Rattle.std.specs.Prelude.{◌≤◌, List, length, map, IfOk};
ghost use Rattle.std.specs.List.{AllZip};
ghost use Rattle.math_theory.specs.Interpolation.{AreApart};
ghost use Rattle.math_base.specs.Polynomials.{value_in_ring};

use commonware_math::algebra::{Field, Mem, Space};
use commonware_math::poly::weights_at;
use std::alloc::Global;

/// The value at x, from the values at the points, no two of which are the same.
///
/// Each polynomial of at most as many coefficients as points that has these values there has this
/// value at x.
pub fn value_between<F: Field>(alloc: Global, points: &[F], values: &[F], x: &F) -> Mem<F>
    requires apart { AreApart F.same points.now }
    ensures { IfOk result (λ answer. (p : List F) → length p ≤ length points.now
        → AllZip F.same values.now (map (λ y. value_in_ring F.Ring p y) points.now)
        → F.same answer (value_in_ring F.Ring p x.now)) }
{
    let weights = weights_at(alloc, points, x)?;
    let answer = F::msm(alloc, values, &weights)?;
    Ok(answer)
}
