//! Interpolation after Newton.

ghost use Rattle.std.specs.Prelude.{◌≡◌, ◌+◌, ◌<◌, ℕ, IfOk, length, slice_index_or};
ghost use Rattle.math_theory.specs.Interpolation.{AreApart};
ghost use Rattle.math_base.specs.Polynomials.{value_in_ring};
ghost use Rattle.math_decoding.specs.Polynomials.{difference, moved_up, multiple, AreSame, HasExactDegree};

use super::coefficients::{padded_copy, subtract_multiple, value_at};
use math_base::algebra::{Additive, Field, Mem, Multiplicative, Ring};
use std::alloc::Global;

/// The product of X - x over the points, and the polynomial through the values.
///
/// Point after point: where z is the product of X - x over the points so far and f goes through
/// their values, f less c z goes through the value y at the next point x too, where c is (f(x) - y)
/// / z(x).
pub(super) fn interpolate_with_product<F: Field>(
    alloc: Global,
    points: &[F],
    values: &[F],
) -> Mem<(Vec<F>, Vec<F>)>
    requires apart { AreApart F.same points.now }
    requires lengths { length values.now ≡ length points.now }
    ensures product { IfOk result (λ both. (length both.0.items ≡ length points.now + 1)
        × HasExactDegree F.Ring both.0.items (length points.now)) }
    ensures zeros { IfOk result (λ both. (i : ℕ) → i < length points.now
        → F.same (value_in_ring F.Ring both.0.items (slice_index_or points.now i F.zero)) F.zero) }
    ensures count { IfOk result (λ both. length both.1.items ≡ length points.now) }
    ensures through { IfOk result (λ both. (i : ℕ) → i < length points.now
        → F.same (value_in_ring F.Ring both.1.items (slice_index_or points.now i F.zero))
        (slice_index_or values.now i F.zero)) }
{
    let mut product = Vec::new(alloc);
    product.push(F::one(alloc)?)?;
    let mut through = Vec::new(alloc);
    for i in 0..points.len() {
        let mut c = value_at(alloc, &through, &points[i])?;
        c.sub_assign(alloc, &values[i])?;
        let divisor = value_at(alloc, &product, &points[i])?;
        c.mul_assign(alloc, &divisor.inv(alloc)?)?;
        through.push(F::zero(alloc)?)?;
        subtract_multiple(alloc, &mut through, 0, &product, &c)?;
        product = times_difference(alloc, product, &points[i])?;
    }
    Ok((product, through))
}

/// The product of p and X - x: p moved up, less x times p.
fn times_difference<F: Ring>(alloc: Global, p: Vec<F>, x: &F) -> Mem<Vec<F>>
    ensures length { IfOk result (λ out. length out.items ≡ length p.items + 1) }
    ensures ok { IfOk result (λ out. AreSame F.Ring out.items
        (difference F.Ring (moved_up F.Ring 1 p.items) (multiple F.Ring p.items x.now))) }
{
    let mut out = Vec::new(alloc);
    out.push(F::zero(alloc)?)?;
    let mut copy = padded_copy(alloc, &p, 0)?;
    out.append(&mut copy)?;
    subtract_multiple(alloc, &mut out, 0, &p, x)?;
    Ok(out)
}
