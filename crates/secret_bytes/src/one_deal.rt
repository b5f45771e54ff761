//! Shares that are of one deal, each once.

ghost use Rattle.std.specs.Prelude.{◌≡◌, ◌↔◌, ◌<◌, ◌^◌, length, take, All};
ghost use Rattle.std.specs.Prelude.{IsTrue, IfOk, IfErr, IfSome, IfNone, IsSomeAnd};
ghost use Rattle.secret_bytes.specs.Settled.{HasValuesAt, IsDueSettling, IsFault, IsPlaceOf};
ghost use Rattle.secret_bytes.specs.Settled.{Stands, StandBelow, firsts};

use crate::error::CombineError;
use crate::share::SecretShare;
use math_base::algebra::Mem;
use math_fields::goldilocks::F;
use std::alloc::{AllocError, Global};
use std::collections::BTreeMap;

/// What all shares of a deal have in common.
#[derive(Drop)]
pub(crate) struct Deal {
    pub threshold: u32,
    pub deal: F,
    /// The number of values.
    pub width: usize,
}

/// Whether both are the same elements in the same order.
fn are_same(a: &[F], b: &[F]) -> bool
    ensures { IsTrue result ↔ (a.now ≡ b.now) }
{
    a == b
}

/// Whether the share at this place, where there is one, has other values.
fn is_contradicted(shares: &[SecretShare], first: Option<usize>, share: &SecretShare) -> bool
    requires { IfSome first (λ place. place < length shares.now) }
    ensures yes { IsTrue result → IsSomeAnd first (λ p. ¬ (HasValuesAt shares.now share.now p)) }
    ensures no { ¬ (IsTrue result) → IfSome first (λ p. HasValuesAt shares.now share.now p) }
{
    match first {
        Some(place) => !are_same(&shares[place].values, &share.values),
        None => false,
    }
}

/// Why the share at this place does not stand with those before it, where it does not. The first of
/// these that has its index is given, where there is one.
fn fault_of(
    of: &Deal,
    shares: &[SecretShare],
    first: Option<usize>,
    place: usize,
    share: &SecretShare,
) -> Option<CombineError>
    requires within { place < length shares.now }
    requires before { StandBelow of.now.threshold of.now.deal of.now.width shares.now place }
    requires first { IsPlaceOf shares.now place share.now.index first }
    ensures some { IfSome result (λ error. IsFault of.now.threshold of.now.deal of.now.width
        (take place shares.now) share.now place error) }
    ensures none { IfNone result
        (Stands of.now.threshold of.now.deal of.now.width (take place shares.now) share.now) }
    ensures small { IfNone result (share.now.index < 2 ^ 32) }
{
    if share.threshold == 0 || share.index == 0 {
        return Some(CombineError::Unsound(place));
    }
    if share.deal != of.deal {
        return Some(CombineError::AnotherDeal(place));
    }
    if share.threshold != of.threshold {
        return Some(CombineError::AnotherThreshold(place));
    }
    if share.values.len() != of.width {
        return Some(CombineError::AnotherLength(place));
    }
    if is_contradicted(shares, first, share) {
        return Some(CombineError::Repeated(place));
    }
    None
}

/// Whether all shares are of the deal, those of one index with the same values.
///
/// It refuses at the first share that does not stand with those before it. Each share is compared
/// with the first of its index alone, which a map finds.
pub(crate) fn require_one_deal(
    alloc: Global,
    of: &Deal,
    shares: &[SecretShare],
) -> Result<(), CombineError>
    ensures stand { IfOk result (λ _. StandBelow of.now.threshold of.now.deal of.now.width
        shares.now (length shares.now)) }
    ensures small { IfOk result (λ _. All (λ s. s.index < 2 ^ 32) shares.now) }
    ensures due { IfErr result (λ error. IsDueSettling of.now.threshold of.now.deal of.now.width
        shares.now error) }
{
    let mut places: BTreeMap<u32, usize> = BTreeMap::new(alloc);
    for (place, share) in shares.iter().enumerate() {
        let first = places.get(&share.index).copied();
        if let Some(fault) = fault_of(of, shares, first, place, share) {
            return Err(fault);
        }
        if first.is_none() && places.insert(share.index, place).is_err() {
            return Err(CombineError::Memory(AllocError));
        }
    }
    Ok(())
}

/// The shares, of each index the first.
pub(crate) fn firsts(alloc: Global, shares: Vec<SecretShare>) -> Mem<Vec<SecretShare>>
    ensures { IfOk result (λ kept. kept.items ≡ firsts shares.items) }
{
    let mut kept: Vec<SecretShare> = Vec::with_capacity(alloc, shares.len())?;
    let mut seen: BTreeMap<u32, ()> = BTreeMap::new(alloc);
    for share in shares {
        if !seen.contains_key(&share.index) {
            seen.insert(share.index, ())?;
            kept.push(share)?;
        }
    }
    Ok(kept)
}
