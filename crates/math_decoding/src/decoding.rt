//! The polynomial, however some values are wrong.
//!
//! There are values at m distinct points. A polynomial of at most k coefficients is wanted that
//! agrees with all but at most (m - k) / 2 of them. Two such agree with each other at k points or
//! more, so there is one at most. Euclid's algorithm is run on the product of X - x over the points
//! and the polynomial through the values, up to the first remainder r of degree below (m + k) / 2.
//! It has a factor v such that r(x) is v(x) y at each point x with value y, and v has at most (m -
//! k) / 2 zeros. Where there is such a polynomial f, r is f v (Gao, A new algorithm for decoding
//! Reed-Solomon codes, 2003).
//!
//! Any distinct points of any field serve, so no domain is needed. Interpolation takes some 2 m^2
//! products of elements, and Euclid's algorithm at most as many. The answer has exactly as many
//! coefficients as the caller asks for, with zeros at the end, and may have none: so it is a list,
//! and no `Poly`.

ghost use Rattle.std.specs.Prelude.{◌≡◌, ◌<◌, ◌≤◌, ℕ, List, IfOk, IfSome, IfNone, length};
ghost use Rattle.math_theory.specs.Interpolation.{AreApart};
ghost use Rattle.math_decoding.specs.Decodings.{AreWrongPlaces, IsDecoded, IsWithinRadius};
ghost use Rattle.math_decoding.specs.Polynomials.{coefficient, product, AreSame, IsZero};

use super::coefficients::{count_before_zeros, padded_copy, value_at};
use super::division::divide;
use super::euclid::first_short_remainder;
use math_base::algebra::{Field, Mem, Object, Ring};
use std::alloc::Global;

/// A polynomial, and the places at which it differs from the values given, in rising order.
#[derive(Debug, Drop)]
pub struct Decoded<F: Drop> {
    pub coefficients: Vec<F>,
    pub wrong: Vec<usize>,
}

/// Finds the polynomial that agrees with all but a few of the values, and the places at which it
/// differs.
///
/// There are m distinct points and as many values. The polynomial has `count` coefficients, at most
/// m, and differs from at most (m - count) / 2 values. There is at most one such polynomial. It
/// answers `None` exactly if there is none.
///
/// ```
/// use math_decoding::decoding::decode;
/// let points = [F::from(1), F::from(2), F::from(3), F::from(4)];
/// let values = [F::from(3), F::from(5), F::from(8), F::from(9)];
/// decode(alloc, &points, &values, 2)?; // Some(Decoded { coefficients: [1, 2], wrong: [2] })
/// ```
pub fn decode<F: Field>(
    alloc: Global,
    points: &[F],
    values: &[F],
    count: usize,
) -> Mem<Option<Decoded<F>>>
    requires apart { AreApart F.same points.now }
    requires lengths { length values.now ≡ length points.now }
    requires count { count ≤ length points.now }
    ensures found { IfOk result (λ answer. IfSome answer (λ d.
        IsDecoded F.Ring points.now values.now count d.coefficients.items d.wrong.items)) }
    ensures none { IfOk result (λ answer. IfNone answer ((a : List F)
        → ¬ (IsWithinRadius F.Ring points.now values.now count a))) }
{
    let last = first_short_remainder(alloc, points, values, count)?;
    let Some(coefficients) = exact_quotient(alloc, &last.coefficients, &last.factor, count)? else {
        return Ok(None);
    };
    let wrong = wrong_places(alloc, points, values, &coefficients)?;
    Ok(Some(Decoded {
        coefficients,
        wrong,
    }))
}

/// The quotient, with `count` coefficients, of p by d, which is not zero; `None` where there is a
/// remainder, or where the quotient has a coefficient other than zero from `count` on.
fn exact_quotient<F: Field>(alloc: Global, p: &[F], d: &[F], count: usize) -> Mem<Option<Vec<F>>>
    requires { ¬ (IsZero F.Ring d.now) }
    ensures some { IfOk result (λ answer. IfSome answer (λ q.
        (length q.items ≡ count) × AreSame F.Ring p.now (product F.Ring q.items d.now))) }
    ensures none { IfOk result (λ answer. IfNone answer ((q : List F) → length q ≤ count
        → ¬ (AreSame F.Ring p.now (product F.Ring q d.now)))) }
{
    let (quotient, remainder) = divide(alloc, p, d)?;
    if count_before_zeros(alloc, &remainder)? > 0 {
        return Ok(None);
    }
    let Some(coefficients) = with_count(alloc, &quotient, count)? else {
        return Ok(None);
    };
    Ok(Some(coefficients))
}

/// The polynomial with exactly `count` coefficients; `None` where one from `count` on is not zero.
fn with_count<F: Ring>(alloc: Global, p: &[F], count: usize) -> Mem<Option<Vec<F>>>
    ensures some { IfOk result (λ answer. IfSome answer (λ q.
        (length q.items ≡ count) × AreSame F.Ring q.items p.now)) }
    ensures none { IfOk result (λ answer. IfNone answer
        (¬ ((i : ℕ) → count ≤ i → F.same (coefficient F.Ring p.now i) F.zero))) }
{
    if count_before_zeros(alloc, p)? > count {
        return Ok(None);
    }
    let mut out = padded_copy(alloc, p, count)?;
    out.truncate(count);
    Ok(Some(out))
}

/// By rising number, the places at which the value of the polynomial is not the value given.
fn wrong_places<F: Ring>(
    alloc: Global,
    points: &[F],
    values: &[F],
    coefficients: &[F],
) -> Mem<Vec<usize>>
    requires { length values.now ≡ length points.now }
    ensures { IfOk result
        (λ wrong. AreWrongPlaces F.Ring points.now values.now coefficients.now wrong.items) }
{
    let mut wrong = Vec::new(alloc);
    for i in 0..points.len() {
        let value = value_at(alloc, coefficients, &points[i])?;
        if !value.equals(alloc, &values[i])? {
            wrong.push(i)?;
        }
    }
    Ok(wrong)
}
