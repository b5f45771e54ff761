//! Weights by which values at given points give the value elsewhere.

ghost use Rattle.std.specs.Prelude.{◌≡◌, ◌<◌, ℕ, List, length, All, IfOk};
ghost use Rattle.std.specs.List.{AllZip};
ghost use Rattle.math_theory.specs.Interpolation.{AreApart, SomeAreSame, IsFirstPlace, IsOneAt, weight_divisor};
ghost use Rattle.math_theory.specs.RootProducts.{root_product};
ghost use Rattle.math_base.specs.Polynomials.{AreWeightsAt};

use math_base::algebra::{Field, Mem, Ring};
use math_base::weights::{first_place, one_at, quotients};
use std::alloc::Global;

/// Returns the weights by which the values at the points give the value at x, for polynomials of at
/// most as many coefficients as points.
///
/// The weight of p is the product of (x - y) / (p - y) over the other points y. If x is one of the
/// points, that is one there and zero elsewhere. Otherwise it is the product of x - y over all
/// points y, divided by x - p times the product of p - y over the others. If two points are the
/// same, such a divisor is zero, and all weights are zero.
///
/// ```
/// weights_at(alloc, &[F::from(1), F::from(2)], &F::from(3))?; // [18446744069414584320, 2]
/// ```
pub fn weights_at<F: Field>(alloc: Global, points: &[F], x: &F) -> Mem<Vec<F>>
    ensures count { IfOk result (λ w. length w.items ≡ length points.now) }
    ensures at_point { IfOk result (λ w. (k : ℕ) → IsFirstPlace F.same x.now points.now k
        → IsOneAt F.same F.zero F.one k w.items) }
    ensures repeated { IfOk result
        (λ w. All (λ p. ¬ (F.same p x.now)) points.now → SomeAreSame F.same points.now
        → All (λ v. F.same v F.zero) w.items) }
    ensures weights { IfOk result
        (λ w. AreApart F.same points.now → AreWeightsAt F.Ring x.now points.now w.items) }
    ensures only { IfOk result (λ w. AreApart F.same points.now → (others : List F)
        → AreWeightsAt F.Ring x.now points.now others → AllZip F.same others w.items) }
{
    if let Some(k) = first_place(alloc, points, x)? {
        let out = one_at(alloc, k, points.len())?;
        return Ok(out);
    }
    let one = F::one(alloc)?;
    let numerator = times_differences(alloc, one, x, points)?;
    let mut divisors = Vec::with_capacity(alloc, points.len())?;
    for i in 0..points.len() {
        divisors.push(divisor(alloc, points, x, i)?)?;
    }
    let out = quotients(alloc, numerator, &divisors)?;
    Ok(out)
}

/// The product of `start` and of r - x over the roots x.
///
/// The differences from four roots are multiplied with each other first, so that for each four
/// roots one product waits for those of the roots before.
fn times_differences<R: Ring>(alloc: Global, start: R, r: &R, roots: &[R]) -> Mem<R>
    ensures { IfOk result (λ answer. R.same answer
        (R.product start (root_product R.sum R.negative R.product R.one r.now roots.now))) }
{
    let mut out = start;
    let mut left = roots;
    while let [a, b, c, d, after @ ..] = left {
        let mut four = difference_product(alloc, r, a, b)?;
        let others = difference_product(alloc, r, c, d)?;
        four.mul_assign(alloc, &others)?;
        out.mul_assign(alloc, &four)?;
        left = after;
    }
    for x in left {
        let difference = difference(alloc, r, x)?;
        out.mul_assign(alloc, &difference)?;
    }
    Ok(out)
}

/// The product of r - x and r - y.
fn difference_product<R: Ring>(alloc: Global, r: &R, x: &R, y: &R) -> Mem<R>
    ensures { IfOk result (λ answer. R.same answer
        (R.product (R.sum r.now (R.negative x.now)) (R.sum r.now (R.negative y.now)))) }
{
    let mut out = difference(alloc, r, x)?;
    let other = difference(alloc, r, y)?;
    out.mul_assign(alloc, &other)?;
    Ok(out)
}

/// r - x.
fn difference<R: Ring>(alloc: Global, r: &R, x: &R) -> Mem<R>
    ensures { IfOk result (λ answer. R.same answer (R.sum r.now (R.negative x.now))) }
{
    let mut out = r.clone(alloc)?;
    out.sub_assign(alloc, x)?;
    Ok(out)
}

/// x - p times the product of p - y over the other points y, where p is point i.
fn divisor<R: Ring>(alloc: Global, points: &[R], x: &R, i: usize) -> Mem<R>
    requires { i < length points.now }
    ensures { IfOk result (λ answer. R.same answer
        (weight_divisor R.zero R.sum R.negative R.product R.one x.now points.now i)) }
{
    let p = &points[i];
    let difference = difference(alloc, x, p)?;
    let front = times_differences(alloc, difference, p, &points[..i])?;
    let out = times_differences(alloc, front, p, &points[i + 1..])?;
    Ok(out)
}
