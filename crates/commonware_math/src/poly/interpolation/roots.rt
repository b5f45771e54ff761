//! Interpolation of values at roots of unity.

ghost use Rattle.std.specs.Prelude.{◌≡◌, ◌^◌, ℕ, length, IfOk};
ghost use Rattle.std.specs.Int.{IsNextPowerOfTwo};
ghost use Rattle.std.specs.Map.{keys_of, values_of};
ghost use Rattle.std.specs.List.{AllZip, zip};
ghost use Rattle.math_transforms.specs.RootWeights.{HasDomainOf};
ghost use Rattle.commonware_math.specs.RootInterpolators.{pairs_below, weighted_pairs, weight_at, InterpolatesAtPowers};

use super::Interpolator;
use math_base::algebra::{Additive, FieldNTT, Mem, Object};
use math_codec::ordered::{BiMap, Map};
use math_ntt::ntt::lagrange_coefficients_at;
use std::alloc::Global;
use std::num::NonZeroU32;

impl<I: Ord + Drop, F: FieldNTT> Interpolator<I, F> {
    /// Makes the interpolator for the value at zero over roots of unity. It is the one that
    /// `roots_of_unity_at` makes with zero as x.
    ///
    /// ```
    /// let indices = BiMap::try_from_iter(alloc, vec![in alloc; ('a', 1), ('b', 4)]?)?;
    /// let Some(total) = NonZeroU32::new(4) else { return Ok(()) };
    /// let interpolator = Interpolator::<char, F>::roots_of_unity(alloc, total, indices)?;
    /// interpolator.weights().keys(); // ['a']
    /// interpolator.weights().values(); // [1]
    /// ```
    pub fn roots_of_unity(alloc: Global, total: NonZeroU32, points: BiMap<I, u32>) -> Mem<Self>
        requires { HasDomainOf F.MAX_LG_ROOT_ORDER total.value }
        ensures keys { IfOk result (λ m. keys_of m ≡ keys_of (pairs_below total.value points)) }
        ensures weights { IfOk result (λ m. (lg : ℕ) → IsNextPowerOfTwo total.value (2 ^ lg)
            → InterpolatesAtPowers I.cmp F.Ring (F.root lg) F.zero
            (pairs_below total.value points) m) }
    {
        let zero = F::zero(alloc)?;
        let out = Self::roots_of_unity_at(alloc, total, points, &zero)?;
        Ok(out)
    }

    /// Makes the interpolator for the value at x over roots of unity. Each pair is a key and the
    /// index of its point.
    ///
    /// Point i is power i of the root of order N, which is `total` rounded up to a power of two; lg
    /// N is at most `F::MAX_LG_ROOT_ORDER`. Keys whose index is `total` or more are dropped. The
    /// points of the others differ, so their weights are the only ones for the value at x. It takes
    /// time in O(N log N).
    ///
    /// ```
    /// let indices = BiMap::try_from_iter(alloc, vec![in alloc; ('a', 1), ('b', 0)]?)?;
    /// let Some(total) = NonZeroU32::new(2) else { return Ok(()) };
    /// let interpolator = Interpolator::roots_of_unity_at(alloc, total, indices, &F::from(1))?;
    /// interpolator.weights().values(); // [0, 1]
    /// ```
    pub fn roots_of_unity_at(
        alloc: Global,
        total: NonZeroU32,
        points: BiMap<I, u32>,
        x: &F,
    ) -> Mem<Self>
        requires { HasDomainOf F.MAX_LG_ROOT_ORDER total.value }
        ensures keys { IfOk result (λ m. keys_of m ≡ keys_of (pairs_below total.value points)) }
        ensures weights { IfOk result (λ m. (lg : ℕ) → IsNextPowerOfTwo total.value (2 ^ lg)
            → InterpolatesAtPowers I.cmp F.Ring (F.root lg) x.now
            (pairs_below total.value points) m) }
    {
        let (keys, indices) = points.into_map().into_parts();
        let mut copy = Vec::new(alloc);
        copy.extend_from_slice(&indices)?;
        let weights = lagrange_coefficients_at(alloc, total, copy, x)?;
        let weights = Map::from_iter_dedup(alloc, weights)?;
        let (keys, values) = weights_of_keys(alloc, keys, indices, &weights)?;
        let weights = Map::from_parts(keys, values);
        Ok(Interpolator { weights })
    }
}

/// The keys whose index has a weight, and copies of these weights.
fn weights_of_keys<I: Ord + Drop, F: Additive>(
    alloc: Global,
    keys: Vec<I>,
    indices: Vec<u32>,
    weights: &Map<u32, F>,
) -> Mem<(Vec<I>, Vec<F>)>
    requires { length indices.items ≡ length keys.items }
    ensures keys { IfOk result (λ out. out.0.items
        ≡ keys_of (weighted_pairs weights.now (zip keys.items indices.items))) }
    ensures weights { IfOk result
        (λ out. AllZip (λ v i. F.same v (weight_at F.zero weights.now i)) out.1.items
        (values_of (weighted_pairs weights.now (zip keys.items indices.items)))) }
{
    let mut kept = Vec::new(alloc);
    let mut values = Vec::new(alloc);
    for (key, index) in keys.into_iter().zip(indices) {
        if let Some(weight) = weights.get(&index) {
            values.push(weight.clone(alloc)?)?;
            kept.push(key)?;
        }
    }
    Ok((kept, values))
}
