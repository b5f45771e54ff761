//! Steps in the making of weights: the place of a point, and quotients by one inversion.

ghost use Rattle.std.specs.Prelude.{
  ◌≡◌,
  ◌<◌,
  ℕ,
  suc,
  None,
  length,
  take,
  drop,
  slice_index_or,
  All,
  IfOk,
  IfSome,
  OnOk,
};
ghost use Rattle.math_theory.specs.Interpolation.{IsFirstPlace, IsOneAt};
ghost use Rattle.math_theory.specs.Sums.{total};
ghost use Rattle.math_base.specs.Quotients.{AreQuotients, AreZerosForZero};

use crate::algebra::{Field, Mem, Object, Ring};
use std::alloc::Global;

/// The first place of what is same as x.
pub fn first_place<T: Object>(alloc: Global, items: &[T], x: &T) -> Mem<Option<usize>>
    ensures some { IfOk result
        (λ answer. IfSome answer (λ k. IsFirstPlace T.same x.now items.now k)) }
    ensures none { IfOk result
        (λ answer. answer ≡ None → All (λ item. ¬ (T.same item x.now)) items.now) }
{
    for (i, item) in items.iter().enumerate() {
        if item.equals(alloc, x)? {
            return Ok(Some(i));
        }
    }
    Ok(None)
}

/// n items: one in place k, and zero in every other place.
pub fn one_at<R: Ring>(alloc: Global, k: usize, n: usize) -> Mem<Vec<R>>
    requires { k < n }
    ensures count { IfOk result (λ v. length v.items ≡ n) }
    ensures items { IfOk result (λ v. IsOneAt R.same R.zero R.one k v.items) }
{
    let mut out = Vec::with_capacity(alloc, n)?;
    for i in 0..n {
        let item = if i == k {
            R::one(alloc)?
        } else {
            R::zero(alloc)?
        };
        out.push(item)?;
    }
    Ok(out)
}

/// The numerator divided by each divisor; all zeros where some divisor is zero.
///
/// One inversion serves all: the inverse of divisor i is that of the product of all divisors, times
/// the divisors before it and those after it.
pub fn quotients<F: Field>(alloc: Global, numerator: F, divisors: &[F]) -> Mem<Vec<F>>
    ensures count { IfOk result (λ v. length v.items ≡ length divisors.now) }
    ensures each { IfOk result
        (λ v. AreQuotients F.same F.zero F.product numerator divisors.now v.items) }
    ensures zeros { IfOk result (λ v. AreZerosForZero F.same F.zero divisors.now v.items) }
{
    let (mut out, whole) = products_before(alloc, divisors)?;
    let mut factor = whole.inv(alloc)?;
    factor.mul_assign(alloc, &numerator)?;
    times_after(alloc, &mut out, factor, divisors)?;
    Ok(out)
}

/// For each place the product of the factors before it, and then the product of all.
fn products_before<R: Ring>(alloc: Global, factors: &[R]) -> Mem<(Vec<R>, R)>
    ensures count { IfOk result (λ answer. length answer.0.items ≡ length factors.now) }
    ensures before { IfOk result (λ answer. (k : ℕ) → k < length factors.now
        → R.same (slice_index_or answer.0.items k R.zero)
        (total R.one R.product (take k factors.now))) }
    ensures all { IfOk result (λ answer. R.same answer.1 (total R.one R.product factors.now)) }
{
    let mut out = Vec::with_capacity(alloc, factors.len())?;
    let mut all = R::one(alloc)?;
    for factor in factors {
        let before = all.clone(alloc)?;
        out.push(before)?;
        all.mul_assign(alloc, factor)?;
    }
    Ok((out, all))
}

/// Multiplies each item by `start` and by the factors after its place.
fn times_after<R: Ring>(alloc: Global, items: &mut [R], start: R, factors: &[R]) -> Mem<()>
    requires { length items.old ≡ length factors.now }
    ensures { OnOk result ((k : ℕ) → k < length factors.now
        → R.same (slice_index_or items.new k R.zero) (R.product (slice_index_or items.old k R.zero)
        (R.product start (total R.one R.product (drop (suc k) factors.now))))) }
{
    let mut after = start;
    for i in (0..items.len()).rev() {
        items[i].mul_assign(alloc, &after)?;
        after.mul_assign(alloc, &factors[i])?;
    }
    Ok(())
}
