//! Combining of shares.
//!
//! All shares that are given are taken, with one weight each: of one deal any t give the same, and
//! `verify` says which to trust.

ghost use Rattle.std.specs.Prelude.{◌≡◌, ◌↔◌, ◌<◌, ◌≤◌, List, length, All, IfOk, IfErr};
ghost use Rattle.std.specs.List.{AllZip};
ghost use Rattle.math_theory.specs.Interpolation.{AreApart};
ghost use Rattle.math_base.specs.Polynomials.{AreWeightsAt, value_in_ring};
ghost use Rattle.shared_secret.specs.Shares.{AreCombinable, AreSharesOf, IsCombined, IsRepeatedFirst, IsZeroFirst, point};
ghost use Rattle.shared_secret.specs.declared.error.CombineError.TheVariants.{TooFewShares, ZeroIndex, RepeatedIndex};

use crate::error::CombineError;
use crate::shares::{Share, point};
use math_base::algebra::{Field, Mem, Object, Space};
use math_base::weights::first_place;
use math_poly::weights::weights_at;
use std::alloc::Global;

/// Combines the shares, in any order, to the secret: the sum of their values, each times the weight
/// of its point for the value at zero.
///
/// If they are values of one polynomial of at most as many coefficients as shares, it is the
/// constant of that polynomial; so any t shares of a deal combine to its secret. A share with
/// another value than it was dealt gives another secret, unnoticed; `verify` finds such a share.
///
/// It refuses with `TooFewShares` exactly if there are fewer than t. Otherwise it refuses at the
/// first share whose index it can't take: with `ZeroIndex` if the point of the index is zero, and
/// with `RepeatedIndex` if an index before it has the same point. It refuses with `Memory` if
/// memory runs out. By `laws::refusals_exclude` no two of the others are due.
///
/// ```
/// use shared_secret::{combine, deal};
/// let mut shares = deal(alloc, F::from(4), 2, 3, rng)?;
/// shares.truncate(2);
/// combine(alloc, 2, &shares)?; // 4
/// combine(alloc, 3, &shares); // Err(TooFewShares)
/// ```
pub fn combine<F: Field>(alloc: Global, t: u32, shares: &[Share<F>]) -> Result<F, CombineError>
    ensures combinable { IfOk result (λ _. AreCombinable F.Ring t shares.now) }
    ensures combined { IfOk result (λ secret. IsCombined F.Ring shares.now secret) }
    ensures constant { IfOk result (λ secret. (p : List F) → length p ≤ length shares.now
        → AreSharesOf F.Ring p shares.now → F.same secret (value_in_ring F.Ring p F.zero)) }
    ensures few { IfErr result (λ error. error ≡ TooFewShares ↔ length shares.now < t) }
    ensures zero { IfErr result (λ error. error ≡ ZeroIndex → IsZeroFirst F.Ring shares.now) }
    ensures repeated { IfErr result (λ error. error ≡ RepeatedIndex
        → IsRepeatedFirst F.Ring shares.now) }
{
    if shares.len() < t as usize {
        return Err(CombineError::TooFewShares);
    }
    let points = distinct_points(alloc, shares)?;
    let weights = weights_at_zero(alloc, &points)?;
    let values = copied_values(alloc, shares)?;
    let secret = F::msm(alloc, &values, &weights)?;
    Ok(secret)
}

/// The point of an index, which is refused if it is zero.
fn nonzero_point<F: Field>(alloc: Global, index: u32, zero: &F) -> Result<F, CombineError>
    requires { F.same zero.now F.zero }
    ensures point { IfOk result (λ x. F.same x (point F.Ring index)) }
    ensures nonzero { IfOk result (λ x. ¬ (F.same x F.zero)) }
    ensures zero { IfErr result (λ error. error ≡ ZeroIndex
        → F.same (point F.Ring index) F.zero) }
    ensures few { IfErr result (λ error. ¬ (error ≡ TooFewShares)) }
    ensures repeated { IfErr result (λ error. ¬ (error ≡ RepeatedIndex)) }
{
    let x: F = point(alloc, index)?;
    if x.equals(alloc, zero)? {
        return Err(CombineError::ZeroIndex);
    }
    Ok(x)
}

/// The points of the indices, in order; none is zero, and no two are the same.
pub(super) fn distinct_points<F: Field>(
    alloc: Global,
    shares: &[Share<F>],
) -> Result<Vec<F>, CombineError>
    ensures points { IfOk result (λ xs. AllZip (λ share x. F.same x (point F.Ring share.index))
        shares.now xs.items) }
    ensures nonzero { IfOk result (λ xs. All (λ x. ¬ (F.same x F.zero)) xs.items) }
    ensures apart { IfOk result (λ xs. AreApart F.same xs.items) }
    ensures few { IfErr result (λ error. ¬ (error ≡ TooFewShares)) }
    ensures zero { IfErr result (λ error. error ≡ ZeroIndex → IsZeroFirst F.Ring shares.now) }
    ensures repeated { IfErr result (λ error. error ≡ RepeatedIndex
        → IsRepeatedFirst F.Ring shares.now) }
{
    let zero = F::zero(alloc)?;
    let mut out: Vec<F> = Vec::with_capacity(alloc, shares.len())?;
    for share in shares {
        let x: F = nonzero_point(alloc, share.index, &zero)?;
        if first_place(alloc, &out, &x)?.is_some() {
            return Err(CombineError::RepeatedIndex);
        }
        out.push(x)?;
    }
    Ok(out)
}

/// The weights of the points for the value at zero.
pub(super) fn weights_at_zero<F: Field>(alloc: Global, points: &[F]) -> Mem<Vec<F>>
    ensures { IfOk result (λ weights. AreApart F.same points.now
        → AreWeightsAt F.Ring F.zero points.now weights.items) }
{
    let zero = F::zero(alloc)?;
    let weights = weights_at(alloc, points, &zero)?;
    Ok(weights)
}

/// Copies of the values, in order.
pub(super) fn copied_values<T: Object>(alloc: Global, shares: &[Share<T>]) -> Mem<Vec<T>>
    ensures { IfOk result (λ copies. AllZip (λ share copy. T.same copy share.value)
        shares.now copies.items) }
{
    let mut out = Vec::with_capacity(alloc, shares.len())?;
    for share in shares {
        let copy = share.value.clone(alloc)?;
        out.push(copy)?;
    }
    Ok(out)
}
