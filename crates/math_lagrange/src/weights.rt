//! Interpolation weights at roots of unity.
//!
//! Let S be the points of the indices, N the number of points of the domain, and V a polynomial
//! that vanishes at exactly the other points of the domain. V is known up to a factor, which
//! cancels in all that follows. The product of X - s over the points s of S is (X^N - 1) / V, up to
//! that factor; and at x_i, one of them, the product of x_i - s over the others is
//! (N / x_i) / V(x_i), since N / x_i is the product of the differences of x_i from all other points
//! of the domain. So the weight of index i is
//!
//! - at zero: V(x_i) / (N V(0));
//! - at x outside the domain: (x^N - 1) / (V(x) N (x - x_i)) times x_i V(x_i), with V(x) by
//!   Horner's rule from the coefficients of V, and one inversion for all divisors;
//! - at a point of S: one there, and zero elsewhere.
//!
//! x is a point of the domain exactly where x^N is same as one. At a point y of the domain that is
//! missing in S, the first two would divide zero by zero. So y is set as well: with V' that
//! vanishes at the points that are still missing, the weight is -(x_i / y) V'(x_i) / V'(y).

ghost use Rattle.std.specs.Prelude.{
  ◌≡◌,
  ◌<◌,
  ◌≤◌,
  ◌^◌,
  ℕ,
  List,
  length,
  IfOk,
  All,
};
ghost use Rattle.std.specs.Iterator.{IsFiniteIterable, Drains};
ghost use Rattle.std.specs.Map.{keys_of};
ghost use Rattle.math_theory.specs.Powers.{power};
ghost use Rattle.math_theory.specs.Recovery.{filled_places};
ghost use Rattle.math_base.specs.Polynomials.{AreWeightsAt};
ghost use Rattle.math_transforms.specs.Domains.{IsDomain};
ghost use Rattle.math_transforms.specs.RootWeights.{
  HasDomainOf,
  AreIndicesBelow,
  AreRootWeightsAt,
  ArePointsAt,
  powers_at,
};

mod indices;
mod points;

use indices::{lg_of_domain, present_points, with_indices};
use math_base::algebra::{FieldNTT, Mem};
use math_base::weights::{first_place, one_at, quotients};
use math_transforms::columns::{EvaluationColumn, value_at};
use math_transforms::vanishing_points::VanishingPoints;
pub use points::domain_points;
use points::{copies_at, differences, power_minus_one, products, scale_each, size};
use std::alloc::Global;
use std::num::NonZeroU32;

/// Returns the weights that give the value at zero from values at powers of a root of unity, each
/// with the index of its power. They are those of `lagrange_coefficients_at` at zero.
///
/// ```
/// let Some(total) = NonZeroU32::new(4) else { return Ok(()) };
/// lagrange_coefficients::<F, _>(alloc, total, vec![in alloc; 2, 7]?)?; // [(2, 1)]
/// ```
pub fn lagrange_coefficients<F: FieldNTT, P: IntoIterator<Item = u32> + Drop>(
    alloc: Global,
    total: NonZeroU32,
    indices: P,
) -> Mem<Vec<(u32, F)>>
where
    P::IntoIter: Drop,
    requires finite { IsFiniteIterable P.into_iter_gives P.IntoIter.can_next P.IntoIter.remaining
        indices }
    requires domain { HasDomainOf F.MAX_LG_ROOT_ORDER total.value }
    ensures indices { IfOk result (λ weights. (it : P.IntoIter) × (xs : List ℕ)
        × P.into_iter_gives indices it × Drains P.IntoIter.next_gives it xs
        × AreIndicesBelow total.value xs (keys_of weights.items)) }
    ensures weights { IfOk result
        (λ weights. AreRootWeightsAt F.Ring F.root total.value F.zero weights.items) }
{
    let zero = F::zero(alloc)?;
    let out = lagrange_coefficients_at(alloc, total, indices, &zero)?;
    Ok(out)
}

/// Returns the weights that give the value at x from values at powers of a root of unity, each with
/// the index of its power. They hold for polynomials of at most as many coefficients as indices.
///
/// The root is of order N, which is `total` rounded up to a power of two. It ignores repeated
/// indices and those of `total` or more. The weights go by rising index; if no index is left, there
/// are none. x may be any element, also a point of the domain, whether its index is given or not.
///
/// lg N is at most `F::MAX_LG_ROOT_ORDER`.
///
/// ```
/// let Some(total) = NonZeroU32::new(2) else { return Ok(()) };
/// lagrange_coefficients_at(alloc, total, vec![in alloc; 1, 0]?, &F::from(1))?; // [(0, 1), (1, 0)]
/// ```
pub fn lagrange_coefficients_at<F: FieldNTT, P: IntoIterator<Item = u32> + Drop>(
    alloc: Global,
    total: NonZeroU32,
    indices: P,
    x: &F,
) -> Mem<Vec<(u32, F)>>
where
    P::IntoIter: Drop,
    requires finite { IsFiniteIterable P.into_iter_gives P.IntoIter.can_next P.IntoIter.remaining
        indices }
    requires domain { HasDomainOf F.MAX_LG_ROOT_ORDER total.value }
    ensures indices { IfOk result (λ weights. (it : P.IntoIter) × (xs : List ℕ)
        × P.into_iter_gives indices it × Drains P.IntoIter.next_gives it xs
        × AreIndicesBelow total.value xs (keys_of weights.items)) }
    ensures weights { IfOk result
        (λ weights. AreRootWeightsAt F.Ring F.root total.value x.now weights.items) }
{
    let lg = lg_of_domain(total);
    let points = present_points(alloc, lg, total.get(), indices)?;
    let places = points.non_vanishing_indices(alloc)?;
    let weights = weights_at(alloc, lg, points, &places, x)?;
    let out = with_indices(alloc, places, weights)?;
    Ok(out)
}

/// The weights for the value at x at the points of the domain whose truth values are true.
fn weights_at<F: FieldNTT>(
    alloc: Global,
    lg: u8,
    present: VanishingPoints,
    places: &[usize],
    x: &F,
) -> Mem<Vec<F>>
    requires domain { IsDomain F.MAX_LG_ROOT_ORDER lg }
    requires size { length present ≡ 2 ^ lg }
    requires places { places.now ≡ filled_places present }
    ensures { IfOk result
        (λ w. AreWeightsAt F.Ring x.now (powers_at F.Ring (F.root lg) places.now) w.items) }
{
    if places.is_empty() {
        return Ok(Vec::new(alloc));
    }
    let zero = F::zero(alloc)?;
    if x.equals(alloc, &zero)? {
        let out = weights_at_zero(alloc, lg, &present, places, x)?;
        return Ok(out);
    }
    let domain = domain_points(alloc, lg)?;
    let points = copies_at(alloc, &domain, places)?;
    if let Some(k) = first_place(alloc, &points, x)? {
        let out = one_at(alloc, k, points.len())?;
        return Ok(out);
    }
    if let Some(m) = first_place(alloc, &domain, x)? {
        let out = weights_at_missing(alloc, lg, present, places, &points, x, m)?;
        return Ok(out);
    }
    let out = weights_outside(alloc, lg, &present, places, &points, x)?;
    Ok(out)
}

/// The weights at x that is zero: the values at the points of a polynomial that vanishes at the
/// missing ones, divided by N times its value at zero.
fn weights_at_zero<F: FieldNTT>(
    alloc: Global,
    lg: u8,
    present: &VanishingPoints,
    places: &[usize],
    x: &F,
) -> Mem<Vec<F>>
    requires domain { IsDomain F.MAX_LG_ROOT_ORDER lg }
    requires size { length present.now ≡ 2 ^ lg }
    requires places { places.now ≡ filled_places present.now }
    requires some { 0 < length places.now }
    requires zero { F.same x.now F.zero }
    ensures { IfOk result
        (λ w. AreWeightsAt F.Ring x.now (powers_at F.Ring (F.root lg) places.now) w.items) }
{
    let (at_zero, column) = EvaluationColumn::vanishing(alloc, present)?;
    let mut divisor = size::<F>(alloc, lg)?;
    divisor.mul_assign(alloc, &at_zero)?;
    let factor = divisor.inv(alloc)?;
    let values = copies_at(alloc, column.values(), places)?;
    let out = scale_each(alloc, values, &factor)?;
    Ok(out)
}

/// The weights at x outside the domain.
fn weights_outside<F: FieldNTT>(
    alloc: Global,
    lg: u8,
    present: &VanishingPoints,
    places: &[usize],
    points: &[F],
    x: &F,
) -> Mem<Vec<F>>
    requires domain { IsDomain F.MAX_LG_ROOT_ORDER lg }
    requires size { length present.now ≡ 2 ^ lg }
    requires places { places.now ≡ filled_places present.now }
    requires some { 0 < length places.now }
    requires points { ArePointsAt F.Ring (F.root lg) places.now points.now }
    requires outside { (i : ℕ) → i < 2 ^ lg
        → ¬ (F.same (power F.one F.product (F.root lg) i) x.now) }
    ensures { IfOk result
        (λ w. AreWeightsAt F.Ring x.now (powers_at F.Ring (F.root lg) places.now) w.items) }
{
    let (_, column) = EvaluationColumn::vanishing(alloc, present)?;
    let values = copies_at(alloc, column.values(), places)?;
    let mut factor = value_at(alloc, column, x)?;
    let size = size(alloc, lg)?;
    factor.mul_assign(alloc, &size)?;
    let divisors = differences(alloc, &factor, x, points)?;
    let numerator = power_minus_one(alloc, x, lg)?;
    let quotients = quotients(alloc, numerator, &divisors)?;
    let multiples = products(alloc, quotients, points)?;
    let out = products(alloc, multiples, &values)?;
    Ok(out)
}

/// The weights at x that is point m of the domain, and missing.
fn weights_at_missing<F: FieldNTT>(
    alloc: Global,
    lg: u8,
    present: VanishingPoints,
    places: &[usize],
    points: &[F],
    x: &F,
    m: usize,
) -> Mem<Vec<F>>
    requires domain { IsDomain F.MAX_LG_ROOT_ORDER lg }
    requires size { length present ≡ 2 ^ lg }
    requires places { places.now ≡ filled_places present }
    requires some { 0 < length places.now }
    requires points { ArePointsAt F.Ring (F.root lg) places.now points.now }
    requires outside { All (λ p. ¬ (F.same p x.now)) points.now }
    requires inside { m < 2 ^ lg }
    requires missing { F.same (power F.one F.product (F.root lg) m) x.now }
    ensures { IfOk result
        (λ w. AreWeightsAt F.Ring x.now (powers_at F.Ring (F.root lg) places.now) w.items) }
{
    let mut present = present;
    present.set_non_vanishing(m as u64);
    let (_, column) = EvaluationColumn::vanishing(alloc, &present)?;
    let values = column.values();
    let mut divisor = x.clone(alloc)?;
    divisor.mul_assign(alloc, &values[m])?;
    let factor = divisor.neg(alloc)?.inv(alloc)?;
    let values = copies_at(alloc, values, places)?;
    let multiples = products(alloc, values, points)?;
    let out = scale_each(alloc, multiples, &factor)?;
    Ok(out)
}
