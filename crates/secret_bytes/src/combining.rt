//! Combining of shares of bytes.
//!
//! All elements have the same indices. Points, their comparison and Euclid's steps would be
//! repeated for each element; if no share is wrong, only sums of products are left, each reduced
//! once.

ghost use Rattle.std.specs.Prelude.{◌≡◌, ◌<◌, ◌≤◌, ◌++◌, [], length, map, All};
ghost use Rattle.std.specs.Prelude.{IfOk, IfErr, IfSome, IfNone};
ghost use Rattle.math_fields.specs.declared.goldilocks.F.{F};
ghost use Rattle.shared_secret.specs.CorrectedShares.{IsCorrectedSecret};
ghost use Rattle.shared_secret.specs.Shares.{points, values};
ghost use Rattle.math_theory.specs.Interpolation.{AreApart};
ghost use Rattle.shared_secret.specs.Weights.{AreWeightsOfShares};
ghost use Rattle.math_fields.specs.Elements.{goldilocks, product, residue, same, sum};
ghost use Rattle.math_theory.specs.Sums.{weighted_sum};
ghost use Rattle.secret_bytes.specs.Columns.{column};
ghost use Rattle.secret_bytes.specs.Combined.{AreCombined, AreElementsOfShares, IsDueCombining, others};
ghost use Rattle.secret_bytes.specs.Passes.{AreFirstElements, AreReady, IsDecodedAt, IsDueRecovering, IsPass, indices_at};

use crate::error::CombineError;
use crate::keyed::bytes_under_key;
use crate::one_deal::{Deal, firsts, require_one_deal};
use crate::share::SecretShare;
use math_base::algebra::Mem;
use math_decoding::decoding::decode;
use math_fields::goldilocks::F;
use math_values::sums::sum_of_products;
use shared_secret::{Weights, secret_of, weigh_points};
use std::alloc::Global;

/// The bytes, and the indices of the shares that were wrong, rising.
#[derive(Debug, Drop)]
pub struct Combined {
    pub bytes: Vec<u8>,
    pub wrong: Vec<u32>,
}

/// The elements that shares give, and the indices of the shares that were wrong, rising.
#[derive(Drop)]
struct Recovered {
    elements: Vec<F>,
    wrong: Vec<u32>,
}

/// What one look at the elements finds.
#[derive(Drop)]
enum Pass {
    /// At all elements the shares fit each other.
    Fit,
    /// At some element the shares at these places are wrong.
    Wrong(Vec<usize>),
    /// At some element so many are wrong that it is not found.
    TooManyWrong,
}

/// Combines the shares, in any order, to the bytes, and says which shares are wrong.
///
/// Of m distinct shares at most (m - t) / 2 may be wrong. A share is wrong if any of its values is.
/// It answers bytes only if they fit their check.
///
/// It refuses the first share that is not of one deal with those before it; then fewer shares than
/// the threshold; and then shares of which too many are wrong, and a secret that does not fit its
/// check. A share that stands twice counts once. Of N shares it finds these in the order of N log N
/// steps, beside the time that distinct shares take.
///
/// ```
/// use secret_bytes::{combine, deal};
/// let mut shares = deal(alloc, b"key", 2, 4, rng)?;
/// shares[0].values[0] = F::from(0);
/// combine(alloc, shares)?; // Combined { bytes: [107, 101, 121], wrong: [1] }
/// ```
pub fn combine(alloc: Global, shares: Vec<SecretShare>) -> Result<Combined, CombineError>
    ensures combined { IfOk result (λ c. AreCombined shares.items c.bytes.items c.wrong.items) }
    ensures due { IfErr result (λ error. IsDueCombining shares.items error) }
{
    let Some(first) = shares.first() else {
        return Err(CombineError::NoShare);
    };
    let t = first.threshold;
    let of = Deal {
        threshold: t,
        deal: first.deal,
        width: first.values.len(),
    };
    require_one_deal(alloc, &of, &shares)?;
    let kept = firsts(alloc, shares)?;
    if kept.len() < t as usize {
        return Err(CombineError::TooFew(kept.len(), t));
    }
    let found = recover(alloc, t, of.width, kept)?;
    let Some(bytes) = bytes_under_key(alloc, &found.elements)? else {
        return Err(CombineError::Changed);
    };
    Ok(Combined {
        bytes,
        wrong: found.wrong,
    })
}

/// The elements of at least t shares of distinct indices, each with so many values.
fn recover(
    alloc: Global,
    t: u32,
    width: usize,
    shares: Vec<SecretShare>,
) -> Result<Recovered, CombineError>
    requires { AreReady t width shares.items }
    ensures recovered { IfOk result
        (λ r. AreElementsOfShares t width shares.items r.elements.items r.wrong.items) }
    ensures due { IfErr result (λ error. IsDueRecovering t width shares.items error) }
{
    let most = (shares.len() - t as usize) / 2;
    let mut kept = shares;
    let mut wrong = Vec::new(alloc);
    let mut elements = Vec::with_capacity(alloc, width)?;
    loop {
        match look(alloc, t, width, &kept, &mut elements)? {
            Pass::Fit => {
                wrong.sort_unstable();
                return Ok(Recovered { elements, wrong });
            }
            Pass::TooManyWrong => return Err(CombineError::TooManyWrong),
            Pass::Wrong(places) => {
                push_indices(&kept, &places, &mut wrong)?;
                if wrong.len() > most {
                    return Err(CombineError::TooManyWrong);
                }
                leave_out(&mut kept, &wrong);
            }
        }
    }
}

/// Looks at the elements of the shares that come after those given, up to the first at which some
/// are wrong, and appends those before it.
///
/// What depends on the indices alone is made once: weights by which the first t shares give the
/// secret and the value of each further share. An element is decoded only where a share differs
/// from what these say.
fn look(
    alloc: Global,
    t: u32,
    width: usize,
    shares: &[SecretShare],
    elements: &mut Vec<F>,
) -> Mem<Pass>
    requires ready { AreReady t width shares.now }
    requires before { AreFirstElements t width shares.now elements.now.items }
    ensures elements { IfOk result (λ _. AreFirstElements t width shares.now elements.new.items) }
    ensures pass { IfOk result (λ pass.
        IsPass t width shares.now (length elements.new.items) pass) }
{
    if elements.len() == width {
        return Ok(Pass::Fit);
    }
    let points = points_of(alloc, shares)?;
    let weights = weigh_points(alloc, t as usize, &points)?;
    for j in elements.len()..width {
        let Some(element) = element_at(alloc, t, shares, &weights, j)? else {
            return wrong_at(alloc, t, &points, shares, j);
        };
        elements.push(element)?;
    }
    Ok(Pass::Fit)
}

/// The points of the shares, which are the same at each element.
fn points_of(alloc: Global, shares: &[SecretShare]) -> Mem<Vec<F>>
    ensures { IfOk result (λ xs. xs.items ≡ map (λ s. residue s.index) shares.now) }
{
    let mut out = Vec::with_capacity(alloc, shares.len())?;
    for share in shares {
        out.push(F::from(u64::from(share.index)))?;
    }
    Ok(out)
}

/// Element j of the shares, where none of its values is wrong; `None` exactly where one is.
fn element_at(
    alloc: Global,
    t: u32,
    shares: &[SecretShare],
    weights: &Weights<F>,
    j: usize,
) -> Mem<Option<F>>
    requires within { All (λ s. j < length s.values.items) shares.now }
    requires weights { AreWeightsOfShares goldilocks t (column j shares.now) weights.now }
    ensures found { IfOk result (λ answer. IfSome answer (λ a.
        IsCorrectedSecret goldilocks t (column j shares.now) a [])) }
    ensures none { IfOk result (λ answer. IfNone answer ((a : F)
        → ¬ (IsCorrectedSecret goldilocks t (column j shares.now) a []))) }
{
    let values = values_of(alloc, shares, j)?;
    secret_of(
        alloc,
        weights,
        &values,
        |xs: &[F], ys: &[F]| Ok(shorter_sum(xs, ys)),
    )
}

/// The sum of products over the shorter of both, reduced once.
fn shorter_sum(xs: &[F], ys: &[F]) -> F
    ensures { result ≡ weighted_sum (residue 0) sum product xs.now ys.now }
{
    if xs.len() <= ys.len() {
        return sum_of_products(xs, ys);
    }
    sum_of_products(&xs[..ys.len()], ys)
}

/// Which shares are wrong at element j, or that too many are.
fn wrong_at(alloc: Global, t: u32, xs: &[F], shares: &[SecretShare], j: usize) -> Mem<Pass>
    requires points { xs.now ≡ points goldilocks (column j shares.now) }
    requires apart { AreApart same xs.now }
    requires enough { t ≤ length shares.now }
    requires within { All (λ s. j < length s.values.items) shares.now }
    ensures { IfOk result (IsDecodedAt t j shares.now) }
{
    let ys = values_of(alloc, shares, j)?;
    match decode(alloc, xs, &ys, t as usize)? {
        Some(found) => Ok(Pass::Wrong(found.wrong)),
        None => Ok(Pass::TooManyWrong),
    }
}

/// The values of element j of the shares.
fn values_of(alloc: Global, shares: &[SecretShare], j: usize) -> Mem<Vec<F>>
    requires { All (λ s. j < length s.values.items) shares.now }
    ensures { IfOk result (λ out. out.items ≡ values (column j shares.now)) }
{
    let mut out = Vec::with_capacity(alloc, shares.len())?;
    for share in shares {
        out.push(share.values[j])?;
    }
    Ok(out)
}

/// Appends the indices of the shares at these places.
fn push_indices(shares: &[SecretShare], places: &[usize], out: &mut Vec<u32>) -> Mem<()>
    requires { All (λ place. place < length shares.now) places.now }
    ensures { IfOk result (λ _. out.new.items ≡ out.old.items ++ indices_at shares.now places.now) }
{
    for place in places {
        out.push(shares[*place].index)?;
    }
    Ok(())
}

/// Leaves out the shares of these indices.
fn leave_out(shares: &mut Vec<SecretShare>, wrong: &[u32])
    ensures { shares.new.items ≡ others wrong.now shares.old.items }
{
    shares.retain(|share| !wrong.contains(&share.index));
}
