//! Dealing of shares.
//!
//! If memory runs out, the source may have refused too: no clause says what a caller's own source
//! does then.

ghost use Rattle.std.specs.Prelude.{◌≡◌, ◌-◌, ◌<◌, ◌≤◌, List, None, IfOk, IfErr};
ghost use Rattle.std.specs.List.{AllZip};
ghost use Rattle.math_base.specs.Samples.{samples};
ghost use Rattle.shared_secret.specs.Shares.{IsSampled, AreDealt, HasZeroPoint};
ghost use Rattle.shared_secret.specs.declared.error.DealError.TheVariants.{TooManyWords, TooManyShares};

use crate::error::DealError;
use crate::shares::Share;
use math_base::algebra::{CryptoGroup, Field, Random};
use math_poly::poly::Poly;
use rand_core::{CryptoRng, Rng};
use std::alloc::Global;

/// Deals the shares of the indices 1 to n, of which any t combine to the secret.
///
/// They are the values of the polynomial whose constant is the secret and whose t - 1 other
/// coefficients are the next samples of the source. t is at least 1, and at most n.
///
/// It refuses with `TooManyWords` if one of these samples is refused, and with `TooManyShares` if
/// the point of one of the indices is zero; only a field of characteristic at most n has such a
/// point. It refuses with `Memory` if memory runs out.
///
/// ```
/// use shared_secret::{combine, deal};
/// let mut shares = deal(alloc, F::from(4), 2, 3, rng)?;
/// shares[0].value; // 5
/// shares.swap_remove(0);
/// combine(alloc, 2, &shares)?; // 4
/// ```
pub fn deal<F: Field + Random, G: Rng + CryptoRng>(
    alloc: Global,
    secret: F,
    t: u32,
    n: u32,
    rng: &mut G,
) -> Result<Vec<Share<F>>, DealError>
    requires some { 0 < t }
    requires enough { t ≤ n }
    ensures dealt { IfOk result (λ shares. (p : List F)
        × IsSampled F.sample secret t (G.stream rng.old) (G.stream rng.new) p
        × AreDealt F.Ring n p shares.items) }
    ensures words { IfErr result (λ error. error ≡ TooManyWords
        → samples F.sample (t - 1) (G.stream rng.old) ≡ (None, G.stream rng.new)) }
    ensures points { IfErr result (λ error. error ≡ TooManyShares → HasZeroPoint F.Ring n) }
{
    let p = sample_polynomial(alloc, secret, t, rng)?;
    let shares = shares_of(alloc, &p, n)?;
    Ok(shares)
}

/// Deals shares as `deal` does, and a commitment to their polynomial, by which each share can be
/// verified.
///
/// The commitment is public: it is the generator scaled by each coefficient, the secret being the
/// first. The conditions and the refusals are those of `deal`.
///
/// ```
/// use math_samples::quotients::Quotient;
/// use shared_secret::{deal_committed, verify};
/// let (shares, commitment) = deal_committed::<Quotient, _>(alloc, Quotient::new(5, 7), 2, 3, rng)?;
/// commitment.degree(); // 1
/// verify(alloc, &shares[2], &commitment)?; // true
/// ```
pub fn deal_committed<K: CryptoGroup, G: Rng + CryptoRng>(
    alloc: Global,
    secret: K::Scalar,
    t: u32,
    n: u32,
    rng: &mut G,
) -> Result<(Vec<Share<K::Scalar>>, Poly<K>), DealError>
where
    <K as CryptoGroup>::Scalar: Random,
    requires some { 0 < t }
    requires enough { t ≤ n }
    ensures dealt { IfOk result (λ answer. (p : List K.Scalar)
        × IsSampled K.Scalar.sample secret t (G.stream rng.old) (G.stream rng.new) p
        × AreDealt K.Scalar.Ring n p answer.0.items
        × AllZip (λ scalar element. K.same element (K.scaling K.generator scalar)) p answer.1) }
    ensures words { IfErr result (λ error. error ≡ TooManyWords
        → samples K.Scalar.sample (t - 1) (G.stream rng.old) ≡ (None, G.stream rng.new)) }
    ensures points { IfErr result (λ error. error ≡ TooManyShares → HasZeroPoint K.Scalar.Ring n) }
{
    let p = sample_polynomial(alloc, secret, t, rng)?;
    let shares = shares_of(alloc, &p, n)?;
    let commitment = Poly::commit(alloc, p)?;
    Ok((shares, commitment))
}

/// The polynomial of t coefficients whose constant is the secret.
fn sample_polynomial<F: Field + Random, G: Rng + CryptoRng>(
    alloc: Global,
    secret: F,
    t: u32,
    rng: &mut G,
) -> Result<Poly<F>, DealError>
    requires { 0 < t }
    ensures sampled { IfOk result (λ p.
        IsSampled F.sample secret t (G.stream rng.old) (G.stream rng.new) p) }
    ensures words { IfErr result (λ error. error ≡ TooManyWords
        → samples F.sample (t - 1) (G.stream rng.old) ≡ (None, G.stream rng.new)) }
    ensures shares { IfErr result (λ error. ¬ (error ≡ TooManyShares)) }
{
    let p = Poly::new_with_constant(alloc, rng, t - 1, secret)?;
    Ok(p)
}

/// Makes the shares of the indices 1 to n of a polynomial: its values at their points.
///
/// It refuses with `TooManyShares` if the point of one of the indices is zero, or with `Memory`.
///
/// ```
/// use shared_secret::shares_of;
/// let p = Poly::from_coefficients(vec![in alloc; F::from(4), F::from(6)]?);
/// let shares = shares_of(alloc, &p, 3)?;
/// shares[2].index; // 3
/// shares[2].value; // 22
/// ```
pub fn shares_of<F: Field>(alloc: Global, p: &Poly<F>, n: u32) -> Result<Vec<Share<F>>, DealError>
    ensures dealt { IfOk result (λ shares. AreDealt F.Ring n p.now shares.items) }
    ensures points { IfErr result (λ error. error ≡ TooManyShares → HasZeroPoint F.Ring n) }
    ensures words { IfErr result (λ error. ¬ (error ≡ TooManyWords)) }
{
    let zero = F::zero(alloc)?;
    let one = F::one(alloc)?;
    let mut point = F::zero(alloc)?;
    let mut shares = Vec::with_capacity(alloc, n as usize)?;
    for i in 0..n {
        point.add_assign(alloc, &one)?;
        if point.equals(alloc, &zero)? {
            return Err(DealError::TooManyShares);
        }
        let value = p.eval(alloc, &point)?;
        shares.push(Share {
            index: i + 1,
            value,
        })?;
    }
    Ok(shares)
}
