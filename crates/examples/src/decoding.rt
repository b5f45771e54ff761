//! Wrong values.

ghost use Rattle.std.specs.Prelude.{◌≡◌, ◌≤◌, List, length, IfOk, IfSome, IfNone};
ghost use Rattle.math_theory.specs.Interpolation.{AreApart};
ghost use Rattle.math_decoding.specs.Decodings.{IsDecoded, IsWithinRadius};

use commonware_math::algebra::{Field, Mem};
use math_decoding::decoding::{Decoded, decode};
use math_decoding::points::are_distinct;
use std::alloc::Global;

/// Finds the line that goes through all of the values but at most (m - 2) / 2 of m, and says which
/// ones it misses. There is one such line at most.
///
/// It answers `None` exactly where there is none, or where two points are the same, there are fewer
/// than two, or not as many values.
pub fn line_through<F: Field>(alloc: Global, points: &[F], values: &[F]) -> Mem<Option<Decoded<F>>>
    ensures found { IfOk result (λ answer. IfSome answer (λ line.
        IsDecoded F.Ring points.now values.now 2 line.coefficients.items line.wrong.items)) }
    ensures none { IfOk result (λ answer. IfNone answer (length values.now ≡ length points.now
        → 2 ≤ length points.now → AreApart F.same points.now → (line : List F)
        → ¬ (IsWithinRadius F.Ring points.now values.now 2 line))) }
{
    if values.len() != points.len() || points.len() < 2 || !are_distinct(alloc, points)? {
        return Ok(None);
    }
    let line = decode(alloc, points, values, 2)?;
    Ok(line)
}
