//! Lanes that are any words: their halves, and their sums and differences modulo P.

ghost use Rattle.std.specs.Prelude.{◌≡◌, ◌*◌, ◌^◌, ◌%◌, ◌/◌, map};
ghost use Rattle.std.specs.Simd.Lanes.{zip2};
ghost use Rattle.math_lanes.specs.Words.{difference_of_words, sum_of_words};

use std::simd::prelude::*;

/// P, the modulus.
pub(crate) const MODULUS: u64 = 0xffff_ffff_0000_0001;

/// 2^32 - 1: the lower half of a word, and the remainder of 2^64 by P.
pub(crate) const LOWER_HALF: u64 = 0xffff_ffff;

/// Returns the lower half of each lane.
#[inline(always)]
pub fn lower_halves<const N: usize>(a: Simd<u64, N>) -> Simd<u64, N>
    ensures { result ≡ map (λ x. x % 2 ^ 32) a.entry }
{
    a & Simd::splat(LOWER_HALF)
}

/// Returns the upper half of each lane, in place of the lower one.
#[inline(always)]
pub fn upper_halves<const N: usize>(a: Simd<u64, N>) -> Simd<u64, N>
    ensures { result ≡ map (λ x. x / 2 ^ 32) a.entry }
{
    a >> 32
}

/// Returns the lower half of each lane, in place of the upper one.
#[inline(always)]
pub fn raised_halves<const N: usize>(a: Simd<u64, N>) -> Simd<u64, N>
    ensures { result ≡ map (λ x. x * 2 ^ 32 % 2 ^ 64) a.entry }
{
    a << 32
}

/// Returns a - b modulo 2^64 in each lane, with P added where that is below zero. Where b is no
/// more than P, the lane is congruent to a - b modulo P, but it may be P or more.
#[inline(always)]
pub fn differences_of_words<const N: usize>(a: Simd<u64, N>, b: Simd<u64, N>) -> Simd<u64, N>
    ensures { result ≡ zip2 difference_of_words a.entry b.entry }
{
    let difference = a - b;
    difference - a.simd_lt(b).select(Simd::splat(LOWER_HALF), Simd::splat(0))
}

/// Returns a - (P - b) in each lane, as `differences_of_words` does. Where a + b is below 2 P and b
/// is no more than P, the lane is the remainder of a + b by P.
#[inline(always)]
pub fn sums_of_words<const N: usize>(a: Simd<u64, N>, b: Simd<u64, N>) -> Simd<u64, N>
    ensures { result ≡ zip2 sum_of_words a.entry b.entry }
{
    differences_of_words(a, Simd::splat(MODULUS) - b)
}
