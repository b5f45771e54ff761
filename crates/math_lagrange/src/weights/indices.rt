//! The indices of points, as truth values and as a rising list.

ghost use Rattle.std.specs.Prelude.{◌≡◌, ◌<◌, ◌≤◌, ◌^◌, ℕ, List, length, IfOk, All};
ghost use Rattle.std.specs.Int.{IsNextPowerOfTwo};
ghost use Rattle.std.specs.Iterator.{IsFiniteIterable, Drains};
ghost use Rattle.std.specs.Map.{keys_of, values_of};
ghost use Rattle.math_transforms.specs.RootWeights.{AreTrueAt};

use math_base::algebra::Mem;
use math_transforms::vanishing_points::VanishingPoints;
use std::alloc::Global;
use std::num::NonZeroU32;

/// The lg of `total` rounded up to a power of two.
pub(super) fn lg_of_domain(total: NonZeroU32) -> u8
    ensures value { IsNextPowerOfTwo total.value (2 ^ result) }
    ensures small { result ≤ 32 }
{
    (32 - (total.get() - 1).leading_zeros()) as u8
}

/// 2^lg truth values, which are true at the indices below `total`.
pub(super) fn present_points<P: IntoIterator<Item = u32> + Drop>(
    alloc: Global,
    lg: u8,
    total: u32,
    indices: P,
) -> Mem<VanishingPoints>
where
    P::IntoIter: Drop,
    requires finite { IsFiniteIterable P.into_iter_gives P.IntoIter.can_next P.IntoIter.remaining
        indices }
    requires small { lg < 64 }
    requires covers { total ≤ 2 ^ lg }
    ensures size { IfOk result (λ points. length points ≡ 2 ^ lg) }
    ensures present { IfOk result (λ points. (it : P.IntoIter) × (xs : List ℕ)
        × P.into_iter_gives indices it × Drains P.IntoIter.next_gives it xs
        × AreTrueAt total xs points) }
{
    let mut points = VanishingPoints::new(alloc, u32::from(lg))?;
    for index in indices {
        if index < total {
            points.set_non_vanishing(u64::from(index));
        }
    }
    Ok(points)
}

/// Each weight with its index.
pub(super) fn with_indices<F: Drop>(
    alloc: Global,
    indices: Vec<usize>,
    weights: Vec<F>,
) -> Mem<Vec<(u32, F)>>
    requires count { length weights.items ≡ length indices.items }
    requires below { All (λ index. index < 2 ^ 32) indices.items }
    ensures indices { IfOk result (λ out. keys_of out.items ≡ indices.items) }
    ensures weights { IfOk result (λ out. values_of out.items ≡ weights.items) }
{
    let mut out = Vec::new(alloc);
    for (index, weight) in indices.into_iter().zip(weights) {
        out.push((index as u32, weight))?;
    }
    Ok(out)
}
