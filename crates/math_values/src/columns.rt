//! Sums of products in eight columns at once, by vectors.
//!
//! Rows of cells follow one another, and each row has a weight. The cells of a column are summed,
//! each times the weight of its row. The halves of a cell and of its weight have four products.
//! Their lower and upper halves are summed in four words, as multiples of 1, 2^32, 2^64 and 2^96,
//! without a carry: each product adds less than 2^34 to a word. Only these sums are reduced, once
//! for all rows.

ghost use Rattle.std.specs.Prelude.{◌≡◌, ℕ, ◌<◌, ◌≤◌, ◌+◌, ◌*◌, ◌/◌, ◌%◌, ◌^◌, IsTrue, List, length, slice_index, slice_index_or};
ghost use Rattle.math_numbers.specs.Goldilocks.{P};
ghost use Rattle.math_theory.specs.Sums.{weighted_sum};
ghost use Rattle.math_lanes.specs.Elements.{AreElements};
ghost use Rattle.math_values.specs.ColumnSums.{AreColumnSums, ArePartsOf, IsColumnAt, from_parts};
ghost use Rattle.math_fields.specs.Elements.{number, product, residue, sum};
ghost use Rattle.math_fields.specs.Lanes.{IsLane};

use crate::words::Word;
use math_fields::goldilocks::F;
use math_lanes::elements::{reductions, sums};
use math_lanes::words::{differences_of_words, lower_halves, raised_halves, upper_halves};
use std::simd::prelude::*;
use wide_machine::is_wide;

/// How many elements a vector has.
const LANES: usize = 8;

/// How many weights there are at most.
const MOST: usize = 0x100_0000;

/// The words of eight cells from place i on.
#[inline(always)]
fn load(cells: &[F], i: usize) -> u64x8
    requires within { i + 8 ≤ length cells.now }
    ensures elements { AreElements result }
    ensures lanes { (d : F) (j : ℕ) → j < 8 → IsLane result j (slice_index_or cells.now (i + j) d) }
{
    u64x8::from_array([
        cells[i].word(),
        cells[i + 1].word(),
        cells[i + 2].word(),
        cells[i + 3].word(),
        cells[i + 4].word(),
        cells[i + 5].word(),
        cells[i + 6].word(),
        cells[i + 7].word(),
    ])
}

/// The element that is this word.
#[inline(always)]
fn element(word: u64) -> F
    requires { word < P }
    ensures { number result ≡ word }
{
    F::from(word)
}

/// Writes eight cells from place i on.
#[inline(always)]
fn store(lanes: u64x8, cells: &mut [F], i: usize)
    requires within { i + 8 ≤ length cells.old }
    requires elements { AreElements lanes }
    ensures stored { (d : F) (j : ℕ) → j < 8 → IsLane lanes j (slice_index_or cells.new (i + j) d) }
    ensures before { (d : F) (p : ℕ) → p < i
        → slice_index_or cells.new p d ≡ slice_index_or cells.old p d }
    ensures behind { (d : F) (p : ℕ) → i + 8 ≤ p
        → slice_index_or cells.new p d ≡ slice_index_or cells.old p d }
{
    let [a, b, c, d, e, f, g, h] = lanes.to_array();
    cells[i] = element(a);
    cells[i + 1] = element(b);
    cells[i + 2] = element(c);
    cells[i + 3] = element(d);
    cells[i + 4] = element(e);
    cells[i + 5] = element(f);
    cells[i + 6] = element(g);
    cells[i + 7] = element(h);
}

/// The lower and the upper halves of the lanes.
#[inline(always)]
fn halves(a: u64x8) -> (u64x8, u64x8)
    ensures lower { (j : ℕ) → j < 8 → slice_index result.0 j ≡ slice_index a j % 2 ^ 32 }
    ensures upper { (j : ℕ) → j < 8 → slice_index result.1 j ≡ slice_index a j / 2 ^ 32 }
{
    (lower_halves(a), upper_halves(a))
}

/// The sum of the lanes, where that is a word.
#[inline(always)]
fn plus(a: u64x8, b: u64x8) -> u64x8
    ensures { (j : ℕ) → j < 8 → slice_index a j + slice_index b j < 2 ^ 64
        → slice_index result j ≡ slice_index a j + slice_index b j }
{
    a + b
}

/// The product of the lanes, where these are below 2^32.
#[inline(always)]
fn times(a: u64x8, b: u64x8) -> u64x8
    ensures { (j : ℕ) → j < 8 → slice_index a j < 2 ^ 32 → slice_index b j < 2 ^ 32
        → slice_index result j ≡ slice_index a j * slice_index b j }
{
    a * b
}

/// The product of each lane and the weight, in four parts.
#[inline(always)]
fn parts(cells: u64x8, w: F) -> (u64x8, u64x8, u64x8, u64x8)
    requires { AreElements cells }
    ensures product { (j : ℕ) → j < 8 → from_parts (slice_index result.0 j)
        (slice_index result.1 j) (slice_index result.2 j) (slice_index result.3 j)
        ≡ slice_index cells j * number w }
    ensures few { (j : ℕ) → j < 8 → ArePartsOf 1 (slice_index result.0 j)
        (slice_index result.1 j) (slice_index result.2 j) (slice_index result.3 j) }
{
    let (low, high) = halves(cells);
    let (lower, upper) = halves(u64x8::splat(w.word()));
    let (p, p_above) = halves(times(low, lower));
    let (q, q_above) = halves(times(low, upper));
    let (r, r_above) = halves(times(high, lower));
    let (s, s_above) = halves(times(high, upper));
    let second = plus(p_above, plus(q, r));
    let third = plus(s, plus(q_above, r_above));
    (p, second, third, s_above)
}

/// The remainder of a + 2^32 b + 2^64 c + 2^96 d by P in each lane. Modulo P this is a - (c + d) and
/// 2^32 (b + c).
#[inline(always)]
fn join_parts(a: u64x8, b: u64x8, c: u64x8, d: u64x8) -> u64x8
    requires { (j : ℕ) → j < 8 → ArePartsOf (2 ^ 24) (slice_index a j) (slice_index b j)
        (slice_index c j) (slice_index d j) }
    ensures elements { AreElements result }
    ensures lanes { (j : ℕ) → j < 8 → slice_index result j ≡ from_parts (slice_index a j)
        (slice_index b j) (slice_index c j) (slice_index d j) % P }
{
    let raised = b + c;
    let rest = differences_of_words(a, c + d);
    sums(
        rest,
        reductions(raised_halves(raised), upper_halves(raised)),
    )
}

/// The sums of the eight columns from column i on.
#[inline(always)]
fn eight_sums(rows: &[F], cols: usize, i: usize, weights: &[F]) -> u64x8
    requires few { length weights.now ≤ 2 ^ 24 }
    requires rows { length weights.now * cols ≤ length rows.now }
    requires within { i + 8 ≤ cols }
    ensures elements { AreElements result }
    ensures lanes { (column : List F) (j : ℕ) → j < 8 → length column ≡ length weights.now
        → IsColumnAt rows.now cols (i + j) column
        → IsLane result j (weighted_sum (residue 0) sum product column weights.now) }
{
    let mut a = u64x8::splat(0);
    let mut b = u64x8::splat(0);
    let mut c = u64x8::splat(0);
    let mut d = u64x8::splat(0);
    for r in 0..weights.len() {
        let (p, q, s, t) = parts(load(rows, r * cols + i), weights[r]);
        a = plus(a, p);
        b = plus(b, q);
        c = plus(c, s);
        d = plus(d, t);
    }
    join_parts(a, b, c, d)
}

/// Returns whether sums of so many products in so many columns take less time by `sum_columns`,
/// eight columns at once, than one column after the other.
///
/// That depends on the processors that this is built for, so nothing is promised of where it is so.
pub fn sums_columns_at_once(products: usize, cols: usize) -> bool
    ensures few { IsTrue result → products ≤ 2 ^ 24 }
    ensures eights { IsTrue result → cols % 8 ≡ 0 }
{
    is_wide() && products <= MOST && cols % LANES == 0
}

/// Writes over each item of `out` the sum of the cells in its column of the rows, each times the
/// weight of its row.
///
/// There are at most 2^24 weights, and a row of cells for each. The rows follow one another, and have
/// as many cells as `out` has items: a multiple of eight.
///
/// ```
/// use math_values::columns::sum_columns;
/// let mut rows = [F::from(4); 16];
/// rows[8] = F::from(5);
/// let mut out = [F::from(0); 8];
/// sum_columns(&rows, &[F::from(2), F::from(3)], &mut out);
/// out[0]; // 23
/// out[1]; // 20
/// ```
pub fn sum_columns(rows: &[F], weights: &[F], out: &mut [F])
    requires few { length weights.now ≤ 2 ^ 24 }
    requires eights { length out.old % 8 ≡ 0 }
    requires rows { length weights.now * length out.old ≤ length rows.now }
    ensures { AreColumnSums rows.now (length out.old) weights.now (length out.old) out.new }
{
    let cols = out.len();
    for k in 0..cols / LANES {
        let lanes = eight_sums(rows, cols, LANES * k, weights);
        store(lanes, out, LANES * k);
    }
}
