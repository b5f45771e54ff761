//! Weights that are made once for shares of some indices, and serve every list of their values.

ghost use Rattle.std.specs.Prelude.{◌≡◌, ◌↔◌, ◌<◌, ◌≤◌, [], length, IfOk, IfErr, IfSome, IfNone};
ghost use Rattle.math_theory.specs.Interpolation.{AreApart};
ghost use Rattle.math_theory.specs.Sums.{weighted_sum};
ghost use Rattle.shared_secret.specs.CorrectedShares.{IsCorrectedSecret};
ghost use Rattle.shared_secret.specs.Shares.{IsRepeatedFirst, IsZeroFirst};
ghost use Rattle.shared_secret.specs.Weights.{AreWeightsAtPoints, AreWeightsOfShares};
ghost use Rattle.shared_secret.specs.Weights.{HoldsOfWeighed};
ghost use Rattle.shared_secret.specs.declared.error.CombineError.TheVariants.{TooFewShares, ZeroIndex, RepeatedIndex};
ghost use Rattle.shared_secret.specs.declared.shares.Share.{Share};

use crate::combining::{distinct_points, weights_at_zero};
use crate::error::CombineError;
use crate::shares::Share;
use math_base::algebra::{Field, Mem, Object};
use math_poly::weights::weights_at;
use std::alloc::Global;

/// Weights by which the values of the first t shares give the secret, and the value of each further
/// share.
#[derive(Debug, Drop)]
pub struct Weights<F: Drop> {
    /// Those for the secret.
    pub secret: Vec<F>,
    /// Those for each further share, in order.
    pub further: Vec<Vec<F>>,
}

/// Returns the weights of the shares, of which the indices alone count.
///
/// It refuses as `combine` does.
///
/// ```
/// use shared_secret::{deal, weigh};
/// let shares = deal(alloc, F::from(4), 2, 3, rng)?;
/// let weights = weigh(alloc, 2, &shares)?;
/// weights.secret; // [2, 18446744069414584320]
/// weights.further; // [[18446744069414584320, 2]]
/// ```
pub fn weigh<F: Field>(
    alloc: Global,
    t: u32,
    shares: &[Share<F>],
) -> Result<Weights<F>, CombineError>
    ensures weights { IfOk result (λ w. AreWeightsOfShares F.Ring t shares.now w) }
    ensures few { IfErr result (λ error. error ≡ TooFewShares ↔ length shares.now < t) }
    ensures zero { IfErr result (λ error. error ≡ ZeroIndex → IsZeroFirst F.Ring shares.now) }
    ensures repeated { IfErr result (λ error. error ≡ RepeatedIndex
        → IsRepeatedFirst F.Ring shares.now) }
{
    if shares.len() < t as usize {
        return Err(CombineError::TooFewShares);
    }
    let points = distinct_points(alloc, shares)?;
    let out = weigh_points(alloc, t as usize, &points)?;
    Ok(out)
}

/// Does what `weigh` does, for a caller who has the points of the shares. They are distinct, and
/// there are at least t of them.
///
/// ```
/// use shared_secret::weigh_points;
/// let weights = weigh_points(alloc, 2, &[F::from(1), F::from(2), F::from(3)])?;
/// weights.secret; // [2, 18446744069414584320]
/// weights.further; // [[18446744069414584320, 2]]
/// ```
pub fn weigh_points<F: Field>(alloc: Global, t: usize, points: &[F]) -> Mem<Weights<F>>
    requires enough { t ≤ length points.now }
    requires apart { AreApart F.same points.now }
    ensures { IfOk result (AreWeightsAtPoints F.Ring t points.now) }
{
    let (first, others) = points.split_at(t);
    let secret = weights_at_zero(alloc, first)?;
    let mut further = Vec::with_capacity(alloc, others.len())?;
    for x in others {
        further.push(weights_at(alloc, first, x)?)?;
    }
    Ok(Weights { secret, further })
}

/// Returns the secret of shares with these weights and values, if none of them is wrong. The values
/// are then those of one polynomial of t coefficients, and the secret is its constant. It answers
/// `None` exactly if there is no such polynomial.
///
/// The caller hands in the sum of products: `msm` serves every field, and a field with a cheaper
/// way takes that.
///
/// ```
/// use shared_secret::{deal, secret_of, weigh};
/// let shares = deal(alloc, F::from(4), 2, 3, rng)?;
/// let weights = weigh(alloc, 2, &shares)?;
/// let values = [F::from(5), F::from(6), F::from(7)];
/// secret_of(alloc, &weights, &values, |xs: &[F], ys: &[F]| F::msm(alloc, xs, ys))?; // Some(4)
/// ```
pub fn secret_of<F: Field, S: Fn(&[F], &[F]) -> Mem<F>>(
    alloc: Global,
    weights: &Weights<F>,
    given: &[F],
    sum_of_products: S,
) -> Mem<Option<F>>
    requires callable { S.IsAlwaysCallable sum_of_products }
    requires sums { (xs : _) (ys : _) (sum : _) → S.post sum_of_products xs ys sum
        → IfOk sum (λ x. F.same x (weighted_sum F.zero F.sum F.product xs.now ys.now)) }
    ensures found { HoldsOfWeighed F.Ring weights.now given.now (λ t shares. IfOk result
        (λ answer. IfSome answer (λ secret. IsCorrectedSecret F.Ring t shares secret []))) }
    ensures none { HoldsOfWeighed F.Ring weights.now given.now (λ t shares. IfOk result
        (λ answer. IfNone answer
        ((secret : F) → ¬ (IsCorrectedSecret F.Ring t shares secret [])))) }
{
    let t = weights.secret.len();
    if given.len() < t || given.len() - t != weights.further.len() {
        return Ok(None);
    }
    let (first, others) = given.split_at(t);
    for i in 0..others.len() {
        let value = sum_of_products(first, &weights.further[i])?;
        if !value.equals(alloc, &others[i])? {
            return Ok(None);
        }
    }
    let secret = sum_of_products(first, &weights.secret)?;
    Ok(Some(secret))
}
