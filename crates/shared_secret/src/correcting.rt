//! Combining of shares of which some are wrong.
//!
//! That too many shares are wrong is an answer, `None`, as of a decoding, and no fault of the call.

ghost use Rattle.std.specs.Prelude.{◌≡◌, ◌↔◌, ◌<◌, List, length, IfOk, IfErr, IfSome, IfNone};
ghost use Rattle.math_base.specs.Polynomials.{value_in_ring};
ghost use Rattle.shared_secret.specs.CorrectedShares.{AreSharesWithinRadius, IsCorrectedSecret};
ghost use Rattle.shared_secret.specs.Shares.{AreCombinable, IsRepeatedFirst, IsZeroFirst};
ghost use Rattle.shared_secret.specs.declared.error.CombineError.TheVariants.{TooFewShares, ZeroIndex, RepeatedIndex};

use crate::combining::{copied_values, distinct_points};
use crate::error::CombineError;
use crate::shares::Share;
use math_base::algebra::{Field, Mem, Ring};
use math_decoding::decoding::{Decoded, decode};
use std::alloc::Global;

/// A secret, and by rising number the places of the shares that were wrong.
#[derive(Debug, Drop)]
pub struct Corrected<F: Drop> {
    pub secret: F,
    pub wrong: Vec<usize>,
}

/// Combines n shares, in any order, to the secret, though at most (n - t) / 2 of them are wrong,
/// and says which are.
///
/// The secret is the constant of the polynomial of t coefficients that has all but at most
/// (n - t) / 2 of the shares. There is one at most, and it answers `None` exactly if there is none.
/// If more shares are wrong, that may be so, or they may fit another polynomial, whose constant it
/// then answers.
///
/// It refuses as `combine` does.
///
/// ```
/// use shared_secret::{combine_corrected, deal};
/// let mut shares = deal(alloc, F::from(4), 2, 4, rng)?;
/// shares[1].value = F::from(0);
/// combine_corrected(alloc, 2, &shares)?; // Some(Corrected { secret: 4, wrong: [1] })
/// ```
pub fn combine_corrected<F: Field>(
    alloc: Global,
    t: u32,
    shares: &[Share<F>],
) -> Result<Option<Corrected<F>>, CombineError>
    ensures combinable { IfOk result (λ _. AreCombinable F.Ring t shares.now) }
    ensures found { IfOk result (λ answer. IfSome answer (λ c.
        IsCorrectedSecret F.Ring t shares.now c.secret c.wrong.items)) }
    ensures none { IfOk result (λ answer. IfNone answer
        ((p : List F) → ¬ (AreSharesWithinRadius F.Ring t p shares.now))) }
    ensures few { IfErr result (λ error. error ≡ TooFewShares ↔ length shares.now < t) }
    ensures zero { IfErr result (λ error. error ≡ ZeroIndex → IsZeroFirst F.Ring shares.now) }
    ensures repeated { IfErr result (λ error. error ≡ RepeatedIndex
        → IsRepeatedFirst F.Ring shares.now) }
{
    if shares.len() < t as usize {
        return Err(CombineError::TooFewShares);
    }
    let points = distinct_points(alloc, shares)?;
    let values = copied_values(alloc, shares)?;
    let Some(found) = decode(alloc, &points, &values, t as usize)? else {
        return Ok(None);
    };
    let secret = constant(alloc, &found.coefficients)?;
    Ok(Some(Corrected {
        secret,
        wrong: found.wrong,
    }))
}

/// The value at zero.
fn constant<F: Ring>(alloc: Global, p: &[F]) -> Mem<F>
    ensures { IfOk result (λ c. F.same c (value_in_ring F.Ring p.now F.zero)) }
{
    if p.len() == 0 {
        let zero = F::zero(alloc)?;
        return Ok(zero);
    }
    let constant = p[0].clone(alloc)?;
    Ok(constant)
}
