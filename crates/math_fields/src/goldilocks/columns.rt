//! Columns of cells that are combined and turned eight at once.
//!
//! Two rows are combined by one weight. Four rows are turned by two levels: f is e times 2^48, the
//! root of order four, and on the way back e times its inverse, which is -2^48. So three products
//! are enough, and a product with 2^48 is shifts and sums. Forward (b + d g) e is b e + d (e g), and
//! (b - d g) f is (b e - d (e g)) 2^48. On the way back (a - b) e + (c - d) f is
//! ((a - b) - (c - d) 2^48) e.

ghost use Rattle.std.specs.Prelude.{◌≡◌, ℕ, ◌<◌, ◌≤◌, ◌+◌, ◌*◌, IsTrue, length, if◌then◌else◌};
ghost use Rattle.math_lanes.specs.Elements.{AreElements};
ghost use Rattle.math_fields.specs.Elements.{goldilocks, inverse, product, residue, root_of, same};
ghost use Rattle.math_fields.specs.Lanes.{IsLane};
ghost use Rattle.math_base.specs.Columns.{
  AreColumnsCombined,
  AreColumnsTurned,
  AreCombinedBelow,
  AreTurnedBelow,
  IsCombined,
  IsTurned,
};

use super::F;
use super::lanes::{LANES, load, minus, plus, splat, store, times, times_root};
use std::simd::prelude::*;

/// The weights of two levels, e and g, and their product.
#[derive(Clone, Copy)]
struct Weights {
    e: F,
    g: F,
    eg: F,
}

/// The products of the lanes of both. `AT_ONE` says that the weights are one: then no product is
/// taken.
#[inline(always)]
fn scale_lanes<const N: usize, const AT_ONE: bool>(
    lanes: Simd<u64, N>,
    weights: Simd<u64, N>,
) -> Simd<u64, N>
    requires elements { AreElements lanes }
    requires one { IsTrue AT_ONE → (j : ℕ) → j < N → IsLane weights j (residue 1) }
    ensures elements { AreElements result }
    ensures lanes { (j : ℕ) (x w : F) → j < N → IsLane lanes.entry j x → IsLane weights.entry j w
        → IsLane result j (product x w) }
{
    if AT_ONE { lanes } else { times(lanes, weights) }
}

/// Eight columns of two rows, combined.
#[inline(always)]
fn combine_lanes<const FORWARD: bool, const AT_ONE: bool>(
    low: u64x8,
    high: u64x8,
    w: F,
) -> (u64x8, u64x8)
    requires first { AreElements low }
    requires second { AreElements high }
    requires one { IsTrue AT_ONE → same w (residue 1) }
    ensures first { AreElements result.0 }
    ensures second { AreElements result.1 }
    ensures combined { (j : ℕ) (a b x y : F) → j < 8 → IsLane low j a → IsLane high j b
        → IsLane result.0 j x → IsLane result.1 j y → IsCombined goldilocks FORWARD w a b x y }
{
    let weights: u64x8 = splat(w);
    if FORWARD {
        let product = scale_lanes::<8, AT_ONE>(high, weights);
        (plus(low, product), minus(low, product))
    } else {
        let sum = plus(low, high);
        let difference = minus(low, high);
        (sum, scale_lanes::<8, AT_ONE>(difference, weights))
    }
}

/// Combines the eight columns from column i on.
#[inline(always)]
fn combine_eight<const FORWARD: bool, const AT_ONE: bool>(
    rows: &mut [F],
    cols: usize,
    i: usize,
    w: F,
)
    requires size { length rows.old ≡ 2 * cols }
    requires within { i + 8 ≤ cols }
    requires one { IsTrue AT_ONE → same w (residue 1) }
    ensures { AreColumnsCombined goldilocks FORWARD w cols i 8 rows.old rows.new }
{
    let low = load(rows, i);
    let high = load(rows, cols + i);
    let (first, second) = combine_lanes::<FORWARD, AT_ONE>(low, high, w);
    store(first, rows, i);
    store(second, rows, cols + i);
}

/// Combines columns eight at once while eight are left, and returns how many these are.
fn combine_eights<const FORWARD: bool, const AT_ONE: bool>(
    rows: &mut [F],
    cols: usize,
    w: F,
) -> usize
    requires size { length rows.old ≡ 2 * cols }
    requires one { IsTrue AT_ONE → same w (residue 1) }
    ensures within { result ≤ cols }
    ensures combined { AreCombinedBelow goldilocks FORWARD w cols result rows.old rows.new }
{
    let eights = cols / LANES;
    for k in 0..eights {
        combine_eight::<FORWARD, AT_ONE>(rows, cols, LANES * k, w);
    }
    LANES * eights
}

/// Combines columns eight at once while eight are left, and returns how many these are.
pub(super) fn combine_columns<const FORWARD: bool>(rows: &mut [F], cols: usize, w: F) -> usize
    requires size { length rows.old ≡ 2 * cols }
    ensures within { result ≤ cols }
    ensures combined { AreCombinedBelow goldilocks FORWARD w cols result rows.old rows.new }
{
    if w.value == 1 {
        combine_eights::<FORWARD, true>(rows, cols, w)
    } else {
        combine_eights::<FORWARD, false>(rows, cols, w)
    }
}

/// Turns columns of four rows, each lane by its own weights. The product e g is handed in.
#[inline(always)]
pub(super) fn turn_lanes<const N: usize, const FORWARD: bool, const AT_ONE: bool>(
    a: &mut Simd<u64, N>,
    b: &mut Simd<u64, N>,
    c: &mut Simd<u64, N>,
    d: &mut Simd<u64, N>,
    e: Simd<u64, N>,
    g: Simd<u64, N>,
    eg: Simd<u64, N>,
)
    requires first { AreElements a.old }
    requires second { AreElements b.old }
    requires third { AreElements c.old }
    requires fourth { AreElements d.old }
    requires one { IsTrue AT_ONE → (j : ℕ) → j < N
        → IsLane e j (residue 1) × IsLane g j (residue 1) × IsLane eg j (residue 1) }
    ensures first { AreElements a.new }
    ensures second { AreElements b.new }
    ensures third { AreElements c.new }
    ensures fourth { AreElements d.new }
    ensures turned { (j : ℕ) (p q k l m n w x y z f : F) → j < N
        → IsLane e.entry j p → IsLane g.entry j q → IsLane eg.entry j (product p q)
        → IsLane a.old j k → IsLane b.old j l → IsLane c.old j m → IsLane d.old j n
        → IsLane a.new j w → IsLane b.new j x → IsLane c.new j y → IsLane d.new j z
        → same f (product p (if FORWARD then root_of 2 else inverse (root_of 2)))
        → IsTurned goldilocks FORWARD p f q k l m n w x y z }
{
    if FORWARD {
        let third = scale_lanes::<N, AT_ONE>(*c, g);
        let more = plus(*a, third);
        let less = minus(*a, third);
        let second = scale_lanes::<N, AT_ONE>(*b, e);
        let fourth = scale_lanes::<N, AT_ONE>(*d, eg);
        let first = plus(second, fourth);
        let change = minus(second, fourth);
        let turn = times_root(change);
        let first_sum = plus(more, first);
        let first_difference = minus(more, first);
        let second_sum = plus(less, turn);
        let second_difference = minus(less, turn);
        *a = first_sum;
        *b = first_difference;
        *c = second_sum;
        *d = second_difference;
    } else {
        let front = plus(*a, *b);
        let lower = minus(*a, *b);
        let behind = plus(*c, *d);
        let upper = minus(*c, *d);
        let back = times_root(upper);
        let x = minus(lower, back);
        let y = minus(front, behind);
        let z = plus(lower, back);
        let whole = plus(front, behind);
        let by_e = scale_lanes::<N, AT_ONE>(x, e);
        let by_g = scale_lanes::<N, AT_ONE>(y, g);
        let by_eg = scale_lanes::<N, AT_ONE>(z, eg);
        *a = whole;
        *b = by_e;
        *c = by_g;
        *d = by_eg;
    }
}

/// Turns the eight columns from column i on.
#[inline(always)]
fn turn_eight<const FORWARD: bool, const AT_ONE: bool>(
    rows: &mut [F],
    cols: usize,
    i: usize,
    weights: Weights,
)
    requires size { length rows.old ≡ 4 * cols }
    requires within { i + 8 ≤ cols }
    requires product { same weights.eg (product weights.e weights.g) }
    requires one { IsTrue AT_ONE → same weights.e (residue 1) × same weights.g (residue 1) }
    ensures { (f : F)
        → same f (product weights.e (if FORWARD then root_of 2 else inverse (root_of 2)))
        → AreColumnsTurned goldilocks FORWARD weights.e f weights.g cols i 8 rows.old rows.new }
{
    let e: u64x8 = splat(weights.e);
    let g: u64x8 = splat(weights.g);
    let eg: u64x8 = splat(weights.eg);
    let mut a = load(rows, i);
    let mut b = load(rows, cols + i);
    let mut c = load(rows, 2 * cols + i);
    let mut d = load(rows, 3 * cols + i);
    turn_lanes::<8, FORWARD, AT_ONE>(&mut a, &mut b, &mut c, &mut d, e, g, eg);
    store(a, rows, i);
    store(b, rows, cols + i);
    store(c, rows, 2 * cols + i);
    store(d, rows, 3 * cols + i);
}

/// Turns columns eight at once while eight are left, and returns how many these are.
fn turn_eights<const FORWARD: bool, const AT_ONE: bool>(
    rows: &mut [F],
    cols: usize,
    weights: Weights,
) -> usize
    requires size { length rows.old ≡ 4 * cols }
    requires product { same weights.eg (product weights.e weights.g) }
    requires one { IsTrue AT_ONE → same weights.e (residue 1) × same weights.g (residue 1) }
    ensures within { result ≤ cols }
    ensures turned { (f : F)
        → same f (product weights.e (if FORWARD then root_of 2 else inverse (root_of 2)))
        → AreTurnedBelow goldilocks FORWARD weights.e f weights.g cols result
        rows.old rows.new }
{
    let eights = cols / LANES;
    for k in 0..eights {
        turn_eight::<FORWARD, AT_ONE>(rows, cols, LANES * k, weights);
    }
    LANES * eights
}

/// Turns columns eight at once while eight are left, and returns how many these are.
pub(super) fn turn_columns<const FORWARD: bool>(rows: &mut [F], cols: usize, e: F, g: F) -> usize
    requires size { length rows.old ≡ 4 * cols }
    ensures within { result ≤ cols }
    ensures turned { (f : F)
        → same f (product e (if FORWARD then root_of 2 else inverse (root_of 2)))
        → AreTurnedBelow goldilocks FORWARD e f g cols result rows.old rows.new }
{
    let eg = e * g;
    let weights = Weights { e, g, eg };
    if e.value == 1 && g.value == 1 {
        turn_eights::<FORWARD, true>(rows, cols, weights)
    } else {
        turn_eights::<FORWARD, false>(rows, cols, weights)
    }
}
