//! Weights by which values at some points give the value elsewhere, as words.
//!
//! They are those of `poly::weights_at`: an `Interpolator` would make a map of the points.

ghost use Rattle.std.specs.Prelude.{◌≡◌, ◌↔◌, ◌<◌, ◌≤◌, IsTrue, IfOk, OnOk, OnErr, length};
ghost use Rattle.math_numbers.specs.Goldilocks.{P};
ghost use Rattle.math_transforms.specs.RootWeights.{AreRising};
ghost use Rattle.c_calls.specs.WordElements.{AreElements, numbers};
ghost use Rattle.c_calls.specs.WordWeights.{AreWordWeights, AreWordWeightsAtRoots};

use crate::elements::{elements, write_numbers};
use commonware_math::algebra::Mem;
use commonware_math::fields::goldilocks::F;
use commonware_math::ntt::lagrange_coefficients_at;
use commonware_math::poly::weights_at;
use row_interpolation::{lg_above, points_of, weights_of_pairs};
use std::alloc::Global;
use std::num::NonZeroU32;

/// Writes the weights for the value at x over the points.
pub fn write_weights(alloc: Global, points: &[u64], x: u64, weights: &mut [u64]) -> Mem<()>
    requires count { length weights.old ≡ length points.now }
    requires below { AreElements points.now × (x < P) }
    ensures ok { OnOk result (AreWordWeights x points.now weights.new) }
    ensures err { OnErr result (weights.new ≡ weights.old) }
{
    let points = elements(alloc, points)?;
    let found = weights_at(alloc, &points, &F::from(x))?;
    write_numbers(weights, &found);
    Ok(())
}

/// Whether the indices rise, and are below the total.
pub fn are_rising(total: u32, indices: &[u32]) -> bool
    ensures { IsTrue result ↔ AreRising total indices.now }
{
    let mut least = 0;
    for index in indices {
        if *index < least || *index >= total {
            return false;
        }
        least = *index + 1;
    }
    true
}

/// Whether so few points take less time by themselves than among all of a domain of 2^lg points: a
/// product for each pair of them, or one for each point of the domain and level of a transform.
fn are_few(count: usize, lg: u8) -> bool
    requires { lg ≤ 32 }
{
    count.saturating_mul(count) <= (lg as usize) << lg
}

/// The weights for the value at x over the powers, with these exponents, of the root whose order is
/// `total` rounded up to a power of two: from these powers alone.
fn weights_at_powers(alloc: Global, total: NonZeroU32, indices: &[u32], x: u64) -> Mem<Vec<F>>
    requires rising { AreRising total.value indices.now }
    requires x_below { x < P }
    ensures { IfOk result
        (λ v. AreWordWeightsAtRoots x total.value indices.now (numbers v.items)) }
{
    let powers = points_of(alloc, lg_above(total.get()), indices)?;
    let weights = weights_at(alloc, &powers, &F::from(x))?;
    Ok(weights)
}

/// The same weights, from all points of the domain.
fn weights_in_domain(alloc: Global, total: NonZeroU32, indices: &[u32], x: u64) -> Mem<Vec<F>>
    requires rising { AreRising total.value indices.now }
    requires x_below { x < P }
    ensures { IfOk result
        (λ v. AreWordWeightsAtRoots x total.value indices.now (numbers v.items)) }
{
    let mut copy = Vec::new(alloc);
    copy.extend_from_slice(indices)?;
    let found = lagrange_coefficients_at(alloc, total, copy, &F::from(x))?;
    let weights = weights_of_pairs(alloc, found)?;
    Ok(weights)
}

/// The same weights, by whichever way takes less time: so it does not grow with `total` where few
/// points of a large domain are taken, and memory does not either.
fn weights_at_roots(alloc: Global, total: NonZeroU32, indices: &[u32], x: u64) -> Mem<Vec<F>>
    requires rising { AreRising total.value indices.now }
    requires x_below { x < P }
    ensures { IfOk result
        (λ v. AreWordWeightsAtRoots x total.value indices.now (numbers v.items)) }
{
    if are_few(indices.len(), lg_above(total.get())) {
        weights_at_powers(alloc, total, indices, x)
    } else {
        weights_in_domain(alloc, total, indices, x)
    }
}

/// Writes the weights for the value at x over the powers, with these exponents, of the root whose
/// order is `total` rounded up to a power of two.
pub fn write_weights_at_roots(
    alloc: Global,
    total: NonZeroU32,
    indices: &[u32],
    x: u64,
    weights: &mut [u64],
) -> Mem<()>
    requires count { length weights.old ≡ length indices.now }
    requires rising { AreRising total.value indices.now }
    requires x_below { x < P }
    ensures ok { OnOk result (AreWordWeightsAtRoots x total.value indices.now weights.new) }
    ensures err { OnErr result (weights.new ≡ weights.old) }
{
    let found = weights_at_roots(alloc, total, indices, x)?;
    write_numbers(weights, &found);
    Ok(())
}
