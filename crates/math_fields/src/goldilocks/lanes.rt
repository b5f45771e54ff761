//! Eight elements at once, or four, as the lanes of a vector.

ghost use Rattle.std.specs.Prelude.{◌≡◌, ◌≢◌, ℕ, ◌<◌, ◌≤◌, ◌+◌, ◌*◌, ◌^◌, length, slice_index_or};
ghost use Rattle.math_lanes.specs.Elements.{AreElements};
ghost use Rattle.math_fields.specs.Elements.{residue, sum, negative, product};
ghost use Rattle.math_fields.specs.Lanes.{IsLane};

use super::F;
use math_lanes::elements;
use std::simd::prelude::*;

/// How many columns are taken at once.
pub(super) const LANES: usize = 8;

/// The numbers of eight cells from place i on.
#[inline(always)]
pub(super) fn load(cells: &[F], i: usize) -> u64x8
    requires within { i + 8 ≤ length cells.now }
    ensures elements { AreElements result }
    ensures lanes { (d : F) (j : ℕ) → j < 8 → IsLane result j (slice_index_or cells.now (i + j) d) }
{
    u64x8::from_array([
        cells[i].value,
        cells[i + 1].value,
        cells[i + 2].value,
        cells[i + 3].value,
        cells[i + 4].value,
        cells[i + 5].value,
        cells[i + 6].value,
        cells[i + 7].value,
    ])
}

/// Writes eight cells from place i on.
#[inline(always)]
pub(super) fn store(lanes: u64x8, cells: &mut [F], i: usize)
    requires within { i + 8 ≤ length cells.old }
    requires elements { AreElements lanes }
    ensures stored { (d : F) (j : ℕ) → j < 8 → IsLane lanes j (slice_index_or cells.new (i + j) d) }
    ensures before { (d : F) (p : ℕ) → p < i
        → slice_index_or cells.new p d ≡ slice_index_or cells.old p d }
    ensures behind { (d : F) (p : ℕ) → i + 8 ≤ p
        → slice_index_or cells.new p d ≡ slice_index_or cells.old p d }
{
    let [a, b, c, d, e, f, g, h] = lanes.to_array();
    cells[i] = F { value: a };
    cells[i + 1] = F { value: b };
    cells[i + 2] = F { value: c };
    cells[i + 3] = F { value: d };
    cells[i + 4] = F { value: e };
    cells[i + 5] = F { value: f };
    cells[i + 6] = F { value: g };
    cells[i + 7] = F { value: h };
}

/// The numbers of four cells from place i on.
#[inline(always)]
pub(super) fn load_four(cells: &[F], i: usize) -> u64x4
    requires within { i + 4 ≤ length cells.now }
    ensures elements { AreElements result }
    ensures lanes { (d : F) (j : ℕ) → j < 4 → IsLane result j (slice_index_or cells.now (i + j) d) }
{
    u64x4::from_array([
        cells[i].value,
        cells[i + 1].value,
        cells[i + 2].value,
        cells[i + 3].value,
    ])
}

/// The numbers of every second cell of eight from place i on.
#[inline(always)]
pub(super) fn load_seconds(cells: &[F], i: usize) -> u64x4
    requires within { i + 8 ≤ length cells.now }
    ensures elements { AreElements result }
    ensures lanes { (d : F) (j : ℕ) → j < 4
        → IsLane result j (slice_index_or cells.now (i + 2 * j) d) }
{
    u64x4::from_array([
        cells[i].value,
        cells[i + 2].value,
        cells[i + 4].value,
        cells[i + 6].value,
    ])
}

/// The numbers of every fourth cell from place i on, four of them.
#[inline(always)]
pub(super) fn load_fourths(cells: &[F], i: usize) -> u64x4
    requires within { i + 12 < length cells.now }
    ensures elements { AreElements result }
    ensures lanes { (d : F) (j : ℕ) → j < 4
        → IsLane result j (slice_index_or cells.now (i + 4 * j) d) }
{
    u64x4::from_array([
        cells[i].value,
        cells[i + 4].value,
        cells[i + 8].value,
        cells[i + 12].value,
    ])
}

/// Writes four cells from place i on.
#[inline(always)]
pub(super) fn store_four(lanes: u64x4, cells: &mut [F], i: usize)
    requires within { i + 4 ≤ length cells.old }
    requires elements { AreElements lanes }
    ensures stored { (d : F) (j : ℕ) → j < 4 → IsLane lanes j (slice_index_or cells.new (i + j) d) }
    ensures before { (d : F) (p : ℕ) → p < i
        → slice_index_or cells.new p d ≡ slice_index_or cells.old p d }
    ensures behind { (d : F) (p : ℕ) → i + 4 ≤ p
        → slice_index_or cells.new p d ≡ slice_index_or cells.old p d }
{
    let [a, b, c, d] = lanes.to_array();
    cells[i] = F { value: a };
    cells[i + 1] = F { value: b };
    cells[i + 2] = F { value: c };
    cells[i + 3] = F { value: d };
}

/// Writes every fourth cell from place i on, four of them.
#[inline(always)]
pub(super) fn store_fourths(lanes: u64x4, cells: &mut [F], i: usize)
    requires within { i + 12 < length cells.old }
    requires elements { AreElements lanes }
    ensures stored { (d : F) (j : ℕ) → j < 4
        → IsLane lanes j (slice_index_or cells.new (i + 4 * j) d) }
    ensures kept { (d : F) (p : ℕ) → p ≢ i → p ≢ i + 4 → p ≢ i + 8 → p ≢ i + 12
        → slice_index_or cells.new p d ≡ slice_index_or cells.old p d }
{
    let [a, b, c, d] = lanes.to_array();
    cells[i] = F { value: a };
    cells[i + 4] = F { value: b };
    cells[i + 8] = F { value: c };
    cells[i + 12] = F { value: d };
}

/// The element in each lane.
#[inline(always)]
pub(super) fn splat<const N: usize>(x: F) -> Simd<u64, N>
    ensures elements { AreElements result }
    ensures lanes { (j : ℕ) → j < N → IsLane result j x }
{
    Simd::splat(x.value)
}

/// The sum of the elements of each lane.
#[inline(always)]
pub(super) fn plus<const N: usize>(a: Simd<u64, N>, b: Simd<u64, N>) -> Simd<u64, N>
    requires first { AreElements a }
    requires second { AreElements b }
    ensures elements { AreElements result }
    ensures lanes { (j : ℕ) (x y : F) → j < N → IsLane a.entry j x → IsLane b.entry j y
        → IsLane result j (sum x y) }
{
    elements::sums(a, b)
}

/// The difference of the elements of each lane.
#[inline(always)]
pub(super) fn minus<const N: usize>(a: Simd<u64, N>, b: Simd<u64, N>) -> Simd<u64, N>
    requires first { AreElements a }
    requires second { AreElements b }
    ensures elements { AreElements result }
    ensures lanes { (j : ℕ) (x y : F) → j < N → IsLane a.entry j x → IsLane b.entry j y
        → IsLane result j (sum x (negative y)) }
{
    elements::differences(a, b)
}

/// The product of the elements of each lane.
#[inline(always)]
pub(super) fn times<const N: usize>(a: Simd<u64, N>, b: Simd<u64, N>) -> Simd<u64, N>
    ensures elements { AreElements result }
    ensures lanes { (j : ℕ) (x y : F) → j < N → IsLane a.entry j x → IsLane b.entry j y
        → IsLane result j (product x y) }
{
    elements::products(a, b)
}

/// The product of the element of each lane and 2^48, the root of order four.
#[inline(always)]
pub(super) fn times_root<const N: usize>(a: Simd<u64, N>) -> Simd<u64, N>
    ensures elements { AreElements result }
    ensures lanes { (j : ℕ) (x : F) → j < N → IsLane a.entry j x
        → IsLane result j (product x (residue (2 ^ 48))) }
{
    elements::times_two_to_the_48(a)
}
