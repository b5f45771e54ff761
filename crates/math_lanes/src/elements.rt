//! Lanes that are elements of the Goldilocks field: numbers below P.

ghost use Rattle.std.specs.Prelude.{◌≡◌, ◌*◌, ◌^◌, ◌%◌, map};
ghost use Rattle.std.specs.Simd.Lanes.{zip2};
ghost use Rattle.math_numbers.specs.Goldilocks.{P};
ghost use Rattle.math_lanes.specs.Elements.{AreElements, difference, product, reduced, sum};

use crate::words::{
    LOWER_HALF, differences_of_words, lower_halves, raised_halves, sums_of_words, upper_halves,
};
use std::simd::prelude::*;

/// Returns the remainder of a + b by P in each lane.
#[inline(always)]
pub fn sums<const N: usize>(a: Simd<u64, N>, b: Simd<u64, N>) -> Simd<u64, N>
    requires first { AreElements a }
    requires second { AreElements b }
    ensures lanes { result ≡ zip2 sum a.entry b.entry }
    ensures elements { AreElements result }
{
    sums_of_words(a, b)
}

/// Returns the remainder of P + a - b by P in each lane.
#[inline(always)]
pub fn differences<const N: usize>(a: Simd<u64, N>, b: Simd<u64, N>) -> Simd<u64, N>
    requires first { AreElements a }
    requires second { AreElements b }
    ensures lanes { result ≡ zip2 difference a.entry b.entry }
    ensures elements { AreElements result }
{
    differences_of_words(a, b)
}

/// Returns the remainder of low + 2^64 high by P in each lane, of any words.
///
/// Write high = c 2^32 + b with b and c below 2^32. Modulo P, 2^64 is 2^32 - 1 and 2^96 is -1. So
/// the number is congruent to (low - c) + b (2^32 - 1), and these two parts add up to less than
/// 2 P.
#[inline(always)]
pub fn reductions<const N: usize>(low: Simd<u64, N>, high: Simd<u64, N>) -> Simd<u64, N>
    ensures lanes { result ≡ zip2 reduced low.entry high.entry }
    ensures elements { AreElements result }
{
    sums_of_words(
        differences_of_words(low, upper_halves(high)),
        lower_halves(high) * Simd::splat(LOWER_HALF),
    )
}

/// Returns the remainder of a b by P in each lane, of any words.
///
/// The lower and the upper word of the product are made of the four products of halves.
#[inline(always)]
pub fn products<const N: usize>(a: Simd<u64, N>, b: Simd<u64, N>) -> Simd<u64, N>
    ensures lanes { result ≡ zip2 product a.entry b.entry }
    ensures elements { AreElements result }
{
    let a_low = lower_halves(a);
    let a_high = upper_halves(a);
    let b_low = lower_halves(b);
    let b_high = upper_halves(b);
    let lowest = a_low * b_low;
    let crossed = a_high * b_low + upper_halves(lowest);
    let middle = a_low * b_high + lower_halves(crossed);
    let high = a_high * b_high + upper_halves(crossed) + upper_halves(middle);
    let low = lower_halves(lowest) + raised_halves(middle);
    reductions(low, high)
}

/// Returns the remainder of 2^48 a by P in each lane, of any words. 2^48 is a root of unity of
/// order four.
#[inline(always)]
pub fn times_two_to_the_48<const N: usize>(a: Simd<u64, N>) -> Simd<u64, N>
    ensures lanes { result ≡ map (λ x. x * 2 ^ 48 % P) a.entry }
    ensures elements { AreElements result }
{
    reductions(a << 48, a >> 16)
}
