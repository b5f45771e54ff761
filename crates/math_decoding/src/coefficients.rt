//! Lists of coefficients.

ghost use Rattle.std.specs.Prelude.{◌≡◌, ◌+◌, ◌-◌, ◌<◌, ◌≤◌, ℕ, max, IfOk, OnOk, length};
ghost use Rattle.math_base.specs.Polynomials.{value_in_ring};
ghost use Rattle.math_decoding.specs.Polynomials.{
  coefficient,
  difference,
  moved_up,
  multiple,
  AreSame,
  IsTrimmed,
};

use math_base::algebra::{Additive, Mem, Multiplicative, Object, Ring};
use std::alloc::Global;

/// Copies of the coefficients, and after them as many zeros as make their number at least `count`.
pub(super) fn padded_copy<F: Ring>(alloc: Global, p: &[F], count: usize) -> Mem<Vec<F>>
    ensures length { IfOk result (λ out. length out.items ≡ max (length p.now) count) }
    ensures same { IfOk result (λ out. AreSame F.Ring out.items p.now) }
{
    let mut out = Vec::with_capacity(alloc, count)?;
    for item in p {
        out.push(item.clone(alloc)?)?;
    }
    for _missing in 0..count.saturating_sub(p.len()) {
        out.push(F::zero(alloc)?)?;
    }
    Ok(out)
}

/// How many coefficients there are before the zeros at the end.
pub(super) fn count_before_zeros<F: Ring>(alloc: Global, p: &[F]) -> Mem<usize>
    ensures within { IfOk result (λ n. n ≤ length p.now) }
    ensures zeros { IfOk result
        (λ n. (i : ℕ) → n ≤ i → F.same (coefficient F.Ring p.now i) F.zero) }
    ensures last { IfOk result
        (λ n. 0 < n → ¬ (F.same (coefficient F.Ring p.now (n - 1)) F.zero)) }
{
    let zero = F::zero(alloc)?;
    for i in (0..p.len()).rev() {
        if !p[i].equals(alloc, &zero)? {
            return Ok(i + 1);
        }
    }
    Ok(0)
}

/// The coefficients without the zeros at the end.
pub(super) fn trim<F: Ring>(alloc: Global, p: Vec<F>) -> Mem<Vec<F>>
    ensures length { IfOk result (λ out. length out.items ≤ length p.items) }
    ensures same { IfOk result (λ out. AreSame F.Ring out.items p.items) }
    ensures trimmed { IfOk result (λ out. IsTrimmed F.Ring out.items) }
{
    let count = count_before_zeros(alloc, &p)?;
    let mut out = p;
    out.truncate(count);
    Ok(out)
}

/// x less a times b.
fn subtract_product<F: Ring>(alloc: Global, x: &mut F, a: &F, b: &F) -> Mem<()>
    ensures { OnOk result (F.same x.new (F.sum x.old (F.negative (F.product a.now b.now)))) }
{
    let mut product = a.clone(alloc)?;
    product.mul_assign(alloc, b)?;
    x.sub_assign(alloc, &product)?;
    Ok(())
}

/// The coefficients less those of `by`, each times c and moved up by `from` places.
pub(super) fn subtract_multiple<F: Ring>(
    alloc: Global,
    p: &mut [F],
    from: usize,
    by: &[F],
    c: &F,
) -> Mem<()>
    requires { from + length by.now ≤ length p.old }
    ensures length { length p.new ≡ length p.old }
    ensures ok { OnOk result (AreSame F.Ring p.new
        (difference F.Ring p.old (moved_up F.Ring from (multiple F.Ring by.now c.now)))) }
{
    for j in 0..by.len() {
        subtract_product(alloc, &mut p[from + j], &by[j], c)?;
    }
    Ok(())
}

/// The value at r, by Horner's rule: the value of a + X p is a plus r times that of p.
pub(super) fn value_at<F: Ring>(alloc: Global, p: &[F], r: &F) -> Mem<F>
    ensures { IfOk result (λ value. F.same value (value_in_ring F.Ring p.now r.now)) }
{
    let mut value = F::zero(alloc)?;
    for i in (0..p.len()).rev() {
        value.mul_assign(alloc, r)?;
        value.add_assign(alloc, &p[i])?;
    }
    Ok(value)
}
