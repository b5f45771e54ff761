//! Euclid's algorithm, as far as the first remainder of small degree.

ghost use Rattle.std.specs.Prelude.{◌≡◌, ◌+◌, ◌<◌, ◌≤◌, ◌↔◌, ◌-◌, suc, List, IsTrue, IfOk, length};
ghost use Rattle.math_theory.specs.Interpolation.{AreApart};
ghost use Rattle.math_decoding.specs.Polynomials.{difference, product, AreSame, HasExactDegree};
ghost use Rattle.math_decoding.specs.Remainders.{AreInTurn};
ghost use Rattle.math_decoding.specs.Decodings.{IsKept};

use super::coefficients::{padded_copy, subtract_multiple, trim};
use super::division::divide;
use super::interpolation::interpolate_with_product;
use math_base::algebra::{Additive, Field, Mem, Ring};
use std::alloc::Global;

/// A remainder, and its factor: at each point the value of the remainder is that of the factor
/// times the value given there.
#[derive(Drop)]
pub(super) struct Remainder<F: Drop> {
    pub(super) coefficients: Vec<F>,
    pub(super) factor: Vec<F>,
}

/// Of the product of X - x over m points and the polynomial through the values there: the first
/// remainder of degree below (m + count) / 2.
pub(super) fn first_short_remainder<F: Field>(
    alloc: Global,
    points: &[F],
    values: &[F],
    count: usize,
) -> Mem<Remainder<F>>
    requires apart { AreApart F.same points.now }
    requires lengths { length values.now ≡ length points.now }
    requires count { count ≤ length points.now }
    ensures kept { IfOk result (λ last.
        IsKept F.Ring points.now values.now last.coefficients.items last.factor.items) }
    ensures short { IfOk result
        (λ last. length last.coefficients.items + length last.coefficients.items
        ≤ suc (length points.now + count)) }
    ensures factor { IfOk result
        (λ last. HasExactDegree F.Ring last.factor.items (length last.factor.items - 1)) }
    ensures small { IfOk result (λ last. length last.factor.items + length last.factor.items + count
        ≤ suc (suc (length points.now))) }
{
    let (product, through) = interpolate_with_product(alloc, points, values)?;
    let mut one = Vec::new(alloc);
    one.push(F::one(alloc)?)?;
    let mut before = Remainder {
        coefficients: product,
        factor: Vec::new(alloc),
    };
    let mut last = Remainder {
        coefficients: trim(alloc, through)?,
        factor: one,
    };
    while is_long(last.coefficients.len(), points.len(), count) {
        let next = next_remainder(alloc, &before, &last)?;
        before = last;
        last = next;
    }
    Ok(last)
}

/// Whether a polynomial of so many coefficients, the last not zero, has degree (m + count) / 2 or
/// more.
fn is_long(length: usize, m: usize, count: usize) -> bool
    requires within { length ≤ m }
    requires count { count ≤ m }
    ensures { IsTrue result ↔ (m + count + 2 ≤ length + length) }
{
    length > count && length - 1 - count >= m - (length - 1)
}

/// The remainder of the one before by the last. Its factor is that of the one before, less the
/// quotient times that of the last.
fn next_remainder<F: Field>(
    alloc: Global,
    before: &Remainder<F>,
    last: &Remainder<F>,
) -> Mem<Remainder<F>>
    requires some { 0 < length last.now.coefficients.items }
    requires turn { (points : List F) × (values : List F)
        × AreInTurn F.Ring points values before.now last.now }
    ensures { IfOk result (λ next. (points values : List F)
        → AreInTurn F.Ring points values before.now last.now
        → AreInTurn F.Ring points values last.now next) }
{
    let (quotient, remainder) = divide(alloc, &before.coefficients, &last.coefficients)?;
    let factor = less_product(alloc, &before.factor, &quotient, &last.factor)?;
    let coefficients = trim(alloc, remainder)?;
    Ok(Remainder {
        coefficients,
        factor,
    })
}

/// p less the product of q and d, where p has fewer coefficients than d, and q has some.
fn less_product<F: Ring>(alloc: Global, p: &[F], q: &[F], d: &[F]) -> Mem<Vec<F>>
    requires shorter { length p.now < length d.now }
    requires some { 0 < length q.now }
    ensures length { IfOk result (λ out. suc (length out.items) ≡ length q.now + length d.now) }
    ensures ok { IfOk result (λ out. AreSame F.Ring out.items
        (difference F.Ring p.now (product F.Ring q.now d.now))) }
{
    let mut out = padded_copy(alloc, p, d.len() - 1)?;
    for j in 0..q.len() {
        out.push(F::zero(alloc)?)?;
        subtract_multiple(alloc, &mut out, j, d, &q[j])?;
    }
    Ok(out)
}
