//! Points of a domain, and what is computed at them.

ghost use Rattle.std.specs.Prelude.{◌≡◌, ◌<◌, ◌≤◌, ◌^◌, ℕ, length, slice_index_or, IfOk, All};
ghost use Rattle.math_theory.specs.Powers.{power};
ghost use Rattle.math_transforms.specs.Domains.{IsDomain};

use math_base::algebra::{Additive, FieldNTT, Mem, Multiplicative, Object, Ring};
use math_transforms::row_products::{multiply_row, multiply_rows};
use math_transforms::transform::size_of;
use std::alloc::Global;

/// n factors: factor i is `start` times power i of the ratio.
fn geometric<F: Ring>(alloc: Global, start: F, ratio: &F, n: usize) -> Mem<Vec<F>>
    ensures count { IfOk result (λ v. length v.items ≡ n) }
    ensures factors { IfOk result (λ v. (i : ℕ) → i < n → F.same (slice_index_or v.items i F.zero)
        (F.product start (power F.one F.product ratio.now i))) }
{
    let mut out = Vec::with_capacity(alloc, n)?;
    let mut factor = start;
    for _done in 0..n {
        let next = factor.clone(alloc)?;
        out.push(next)?;
        factor.mul_assign(alloc, ratio)?;
    }
    Ok(out)
}

/// The 2^lg points of the domain: the powers of the root of order 2^lg, from the power 0 on.
///
/// lg is at most `F::MAX_LG_ROOT_ORDER`.
pub fn domain_points<F: FieldNTT>(alloc: Global, lg: u8) -> Mem<Vec<F>>
    requires domain { IsDomain F.MAX_LG_ROOT_ORDER lg }
    ensures count { IfOk result (λ v. length v.items ≡ 2 ^ lg) }
    ensures powers { IfOk result (λ v. (i : ℕ) → i < 2 ^ lg
        → F.same (slice_index_or v.items i F.zero) (power F.one F.product (F.root lg) i)) }
{
    let Some(root) = F::root_of_unity(alloc, lg)? else {
        unreachable!()
    };
    let one = F::one(alloc)?;
    let out = geometric(alloc, one, &root, size_of(lg))?;
    Ok(out)
}

/// Copies of the items at the places.
pub(super) fn copies_at<F: Additive>(alloc: Global, items: &[F], places: &[usize]) -> Mem<Vec<F>>
    requires { All (λ place. place < length items.now) places.now }
    ensures count { IfOk result (λ v. length v.items ≡ length places.now) }
    ensures items { IfOk result (λ v. (k : ℕ) → k < length places.now
        → F.same (slice_index_or v.items k F.zero)
        (slice_index_or items.now (slice_index_or places.now k 0) F.zero)) }
{
    let mut out = Vec::new(alloc);
    for place in places {
        let item = items[*place].clone(alloc)?;
        out.push(item)?;
    }
    Ok(out)
}

/// For each point p, the factor times x - p.
pub(super) fn differences<F: Ring>(alloc: Global, factor: &F, x: &F, points: &[F]) -> Mem<Vec<F>>
    ensures count { IfOk result (λ v. length v.items ≡ length points.now) }
    ensures each { IfOk result (λ v. (k : ℕ) → k < length points.now
        → F.same (slice_index_or v.items k F.zero)
        (F.product factor.now (F.sum x.now (F.negative (slice_index_or points.now k F.zero))))) }
{
    let mut out = Vec::new(alloc);
    for point in points {
        let difference = x.clone(alloc)?.sub(alloc, point)?;
        let mut item = factor.clone(alloc)?;
        item.mul_assign(alloc, &difference)?;
        out.push(item)?;
    }
    Ok(out)
}

/// Each item times the factor.
pub(super) fn scale_each<F: Ring>(alloc: Global, items: Vec<F>, factor: &F) -> Mem<Vec<F>>
    ensures count { IfOk result (λ v. length v.items ≡ length items.items) }
    ensures each { IfOk result (λ v. (k : ℕ) → k < length items.items
        → F.same (slice_index_or v.items k F.zero)
        (F.product (slice_index_or items.items k F.zero) factor.now)) }
{
    let mut out = items;
    multiply_row(alloc, &mut out, factor)?;
    Ok(out)
}

/// Each item times the factor in its place.
pub(super) fn products<F: Ring>(alloc: Global, items: Vec<F>, factors: &[F]) -> Mem<Vec<F>>
    requires { length items.items ≡ length factors.now }
    ensures count { IfOk result (λ v. length v.items ≡ length items.items) }
    ensures each { IfOk result (λ v. (k : ℕ) → k < length items.items
        → F.same (slice_index_or v.items k F.zero)
        (F.product (slice_index_or items.items k F.zero) (slice_index_or factors.now k F.zero))) }
{
    let mut out = items;
    multiply_rows(alloc, &mut out, 1, factors)?;
    Ok(out)
}

/// The number of points, as an element: 2^lg.
pub(super) fn size<F: Ring>(alloc: Global, lg: u8) -> Mem<F>
    ensures { IfOk result (λ n. F.same n (power F.one F.product (F.sum F.one F.one) lg)) }
{
    let mut out = F::one(alloc)?;
    for _done in 0..lg {
        out.double(alloc)?;
    }
    Ok(out)
}

/// x to the power 2^lg, by squaring, minus one.
pub(super) fn power_minus_one<F: Ring>(alloc: Global, x: &F, lg: u8) -> Mem<F>
    ensures { IfOk result (λ answer.
        F.same answer (F.sum (power F.one F.product x.now (2 ^ lg)) (F.negative F.one))) }
{
    let mut out = x.clone(alloc)?;
    for _done in 0..lg {
        out.square(alloc)?;
    }
    let one = F::one(alloc)?;
    out.sub_assign(alloc, &one)?;
    Ok(out)
}
