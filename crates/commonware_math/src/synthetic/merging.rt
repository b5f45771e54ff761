//! Free terms of two combinations, joined by rising index.

ghost use Rattle.std.specs.Prelude.{◌≡◌, ◌++◌, ◌∷◌, ◌⊎◌, [], IfOk, IfSome, IfNone, Some, None};
ghost use Rattle.commonware_math.specs.Synthetics.{HasTerm, IsRising, HasIndices, HaveSameWeights};
ghost use Rattle.commonware_math.specs.SyntheticTerms.{IsIndexEnd, IsPopped};

use math_base::algebra::{Additive, Mem};
use std::alloc::Global;

/// The terms of both lists by rising index. Where both have a term at an index, it gets the sum of
/// the two weights.
///
/// The lists are taken apart from their ends, always at the greater of the two last indices, so
/// each term is moved once, and none is cloned.
pub(super) fn merge<F: Additive>(
    alloc: Global,
    a: Vec<(u32, F)>,
    b: Vec<(u32, F)>,
) -> Mem<Vec<(u32, F)>>
    requires first { IsRising a.items }
    requires second { IsRising b.items }
    ensures indices { IfOk result
        (λ terms. HasIndices terms.items (λ i. HasTerm a.items i ⊎ HasTerm b.items i)) }
    ensures weights { IfOk result
        (λ terms. HaveSameWeights F.same F.zero F.sum terms.items (a.items ++ b.items)) }
{
    let mut left = a;
    let mut right = b;
    let mut out = Vec::new(alloc);
    while let Some(term) = pop_greatest(alloc, &mut left, &mut right)? {
        out.push(term)?;
    }
    out.reverse();
    Ok(out)
}

/// Takes the term of the greatest index from the ends of the lists; where both have one there,
/// their weights are added.
fn pop_greatest<F: Additive>(
    alloc: Global,
    a: &mut Vec<(u32, F)>,
    b: &mut Vec<(u32, F)>,
) -> Mem<Option<(u32, F)>>
    requires first { IsRising a.old.items }
    requires second { IsRising b.old.items }
    ensures none { IfOk result (λ popped. IfNone popped ((a.old.items ≡ []) × (b.old.items ≡ []))) }
    ensures some { IfOk result (λ popped.
        IfSome popped (λ term.
        IsPopped F.same F.sum a.old.items b.old.items term a.new.items b.new.items)) }
{
    let end = index_end(a);
    let other_end = index_end(b);
    if other_end < end {
        return Ok(a.pop());
    }
    if end < other_end {
        return Ok(b.pop());
    }
    match (a.pop(), b.pop()) {
        (Some((index, mut weight)), Some((_, other))) => {
            weight.add_assign(alloc, &other)?;
            Ok(Some((index, weight)))
        }
        _ => Ok(None),
    }
}

/// The last index, where there is a term.
pub(super) fn last_index<F: Drop>(terms: &[(u32, F)]) -> Option<u32>
    ensures none { terms.now ≡ [] → result ≡ None }
    ensures last { (before : _) (term : _) → terms.now ≡ before ++ term ∷ []
        → result ≡ Some term.0 }
{
    terms.last().map(|term| term.0)
}

/// One more than the last index; 0 where there is no term.
fn index_end<F: Drop>(terms: &[(u32, F)]) -> u64
    ensures { IsIndexEnd terms.now result }
{
    match last_index(terms) {
        Some(last) => u64::from(last) + 1,
        None => 0,
    }
}
