//! Division of polynomials with remainder.
//!
//! By a polynomial d of degree n, every polynomial p is q d + r with one q and one r of at most n
//! coefficients. From the last coefficient down, c is what is left of coefficient i + n over the
//! last of d, and becomes coefficient i of q; c X^i d is taken from what is left.

ghost use Rattle.std.specs.Prelude.{◌≡◌, ◌-◌, ◌<◌, ◌≤◌, ℕ, IfOk, IfSome, IfNone, OnOk, reverse, length};
ghost use Rattle.math_decoding.specs.Divisions.{IsDivided, IsDividedDownTo};
ghost use Rattle.math_decoding.specs.Polynomials.{coefficient, HasExactDegree, IsZero};

use super::coefficients::{count_before_zeros, padded_copy, subtract_multiple};
use math_base::algebra::{Field, Mem, Multiplicative, Ring};
use std::alloc::Global;

/// Returns the degree, which is the greatest index of a coefficient that is not zero. If all are
/// zero, it answers `None`.
pub fn degree<F: Ring>(alloc: Global, p: &[F]) -> Mem<Option<usize>>
    ensures some { IfOk result (λ answer. IfSome answer (λ n. HasExactDegree F.Ring p.now n)) }
    ensures not_zero { IfOk result (λ answer. IfSome answer (λ _. ¬ (IsZero F.Ring p.now))) }
    ensures none { IfOk result (λ answer. IfNone answer (IsZero F.Ring p.now)) }
{
    let count = count_before_zeros(alloc, p)?;
    if count == 0 {
        return Ok(None);
    }
    Ok(Some(count - 1))
}

/// Divides p by d, which is not zero, and returns the quotient and the remainder.
///
/// Let n be the degree of d. The quotient has n coefficients less than p, or none if p has at most
/// n. The remainder has n coefficients.
pub fn divide<F: Field>(alloc: Global, p: &[F], d: &[F]) -> Mem<(Vec<F>, Vec<F>)>
    requires { ¬ (IsZero F.Ring d.now) }
    ensures { IfOk result
        (λ answer. (n : ℕ) × IsDivided F.Ring p.now d.now answer.0.items answer.1.items n) }
{
    let count = count_before_zeros(alloc, d)?;
    let n = count - 1;
    let inverse = d[n].inv(alloc)?;
    let mut left = padded_copy(alloc, p, n)?;
    let quotient = divide_down(alloc, &mut left, d, n, &inverse)?;
    Ok((quotient, left))
}

/// The quotient by d of degree n, where `inverse` is that of coefficient n. The remainder is left.
fn divide_down<F: Field>(
    alloc: Global,
    left: &mut Vec<F>,
    d: &[F],
    n: usize,
    inverse: &F,
) -> Mem<Vec<F>>
    requires degree { HasExactDegree F.Ring d.now n }
    requires inverse { F.same (F.product (coefficient F.Ring d.now n) inverse.now) F.one }
    requires within { n < length d.now }
    requires long { n ≤ length left.old.items }
    ensures quotient { IfOk result (λ q. length q.items ≡ length left.old.items - n) }
    ensures remainder { OnOk result (length left.new.items ≡ n) }
    ensures divided { IfOk result
        (λ q. IsDividedDownTo F.Ring 0 left.old.items d.now q.items left.new.items) }
{
    let count = left.len() - n;
    let mut quotient = Vec::with_capacity(alloc, count)?;
    for i in (0..count).rev() {
        let Some(mut c) = left.pop() else {
            unreachable!()
        };
        c.mul_assign(alloc, inverse)?;
        subtract_multiple(alloc, left, i, &d[..n], &c)?;
        quotient.push(c)?;
    }
    quotient.reverse();
    Ok(quotient)
}
