//! Rows in bit-reversed order.

ghost use Rattle.std.specs.Prelude.{◌≡◌, ◌≢◌, ◌+◌, ◌*◌, ◌/◌, ◌%◌, ◌<◌, ◌≤◌, ◌^◌, ℕ, length};
ghost use Rattle.math_theory.specs.BitReversal.{bit_reversed};
ghost use Rattle.math_transforms.specs.CombinedCells.{AreRowsReversed};
ghost use Rattle.math_transforms.specs.DomainValues.{matrix_of};
ghost use Rattle.math_transforms.specs.Matrices.{cell_of, row_of};

use super::size_of;
use math_base::algebra::Additive;

/// The number whose lg bits are those of i + 1 in the opposite order, where those of j are the bits
/// of i.
///
/// Counting up by one turns the ones below the lowest zero bit to zeros, and that zero to a one. In
/// the opposite order these are the highest bits: on the average two of them are looked at.
fn next_reversed(j: usize, lg: u8) -> usize
    requires small { lg < 64 }
    requires below { j < 2 ^ lg }
    ensures below { result < 2 ^ lg }
    ensures next { (i : ℕ) → i + 1 < 2 ^ lg → j ≡ bit_reversed lg i
        → result ≡ bit_reversed lg (i + 1) }
{
    if lg == 0 {
        return 0;
    }
    let half = size_of(lg - 1);
    if j < half {
        j + half
    } else {
        next_reversed(j - half, lg - 1)
    }
}

/// The number whose lg bits are those of i in the opposite order.
pub fn reverse_bits(i: usize, lg: u8) -> usize
    requires small { lg < 64 }
    requires below { i < 2 ^ lg }
    ensures { result ≡ bit_reversed lg i }
{
    (i.reverse_bits() >> 1) >> (63 - lg)
}

/// The row whose number has the lg bits of i in the opposite order, of 2^lg rows of `cols` cells:
/// that of power i, where rows of values are in the order of the tree.
pub fn reversed_row<F>(cells: &[F], cols: usize, lg: u8, i: usize) -> &[F]
    requires small { lg < 64 }
    requires below { i < 2 ^ lg }
    requires size { length cells.now ≡ 2 ^ lg * cols }
    ensures row { result.now ≡ row_of (matrix_of (2 ^ lg) cols cells.now) (bit_reversed lg i) }
    ensures count { length result.now ≡ cols }
{
    let at = reverse_bits(i, lg) * cols;
    &cells[at..at + cols]
}

/// Exchanges two rows of `cols` cells.
fn swap_rows<F: Additive>(cells: &mut [F], rows: usize, cols: usize, i: usize, j: usize)
    requires size { length cells.old ≡ rows * cols }
    requires first { i < rows }
    requires second { j < rows }
    requires apart { i ≢ j }
    ensures first { (k : ℕ) → k < cols
        → cell_of F.zero (matrix_of rows cols cells.new) i k
        ≡ cell_of F.zero (matrix_of rows cols cells.old) j k }
    ensures second { (k : ℕ) → k < cols
        → cell_of F.zero (matrix_of rows cols cells.new) j k
        ≡ cell_of F.zero (matrix_of rows cols cells.old) i k }
    ensures others { (r k : ℕ) → r ≢ i → r ≢ j → k < cols
        → cell_of F.zero (matrix_of rows cols cells.new) r k
        ≡ cell_of F.zero (matrix_of rows cols cells.old) r k }
{
    if cols == 1 {
        cells.swap(i, j);
        return;
    }
    for k in 0..cols {
        cells.swap(i * cols + k, j * cols + k);
    }
}

/// Puts 2^lg rows in bit-reversed order, from the first to the last: each pair of rows whose
/// numbers have each other's bits in the opposite order is exchanged once.
fn reverse_one_by_one<F: Additive>(cells: &mut [F], cols: usize, lg: u8)
    requires small { lg < 64 }
    requires size { length cells.old ≡ 2 ^ lg * cols }
    ensures { AreRowsReversed F.zero lg (matrix_of (2 ^ lg) cols cells.old)
        (matrix_of (2 ^ lg) cols cells.new) }
{
    let rows = size_of(lg);
    let mut j = 0;
    for i in 0..rows {
        if i < j {
            swap_rows(cells, rows, cols, i, j);
        }
        j = next_reversed(j, lg);
    }
}

/// Four bits in the opposite order.
fn opposite_of_four(t: usize) -> usize
    requires { t < 16 }
    ensures { result ≡ bit_reversed 4 t }
{
    t % 2 * 8 + t / 2 % 2 * 4 + t / 4 % 2 * 2 + t / 8
}

/// The row whose number has the bits of `middle`, before them the two higher bits of t, and after
/// them its two lower bits.
fn row_around(quarter: usize, middle: usize, t: usize) -> usize
    requires four { t < 16 }
    requires middle { 4 * middle + 3 < quarter }
    requires fits { 4 * quarter < 2 ^ 64 }
    ensures { result ≡ t / 4 * quarter + (4 * middle + t % 4) }
{
    t / 4 * quarter + (4 * middle + t % 4)
}

/// Puts 16 rows or more in bit-reversed order, sixteen at a time: those whose numbers have the same
/// bits, but for the two highest and the two lowest. They lie in four places by four, and so do the
/// rows with which they are exchanged, so that few pieces of memory are used at a time.
fn reverse_by_sixteens<F: Additive>(cells: &mut [F], cols: usize, lg: u8)
    requires many { 4 ≤ lg }
    requires small { lg < 64 }
    requires size { length cells.old ≡ 2 ^ lg * cols }
    ensures { AreRowsReversed F.zero lg (matrix_of (2 ^ lg) cols cells.old)
        (matrix_of (2 ^ lg) cols cells.new) }
{
    let rows = size_of(lg);
    let quarter = size_of(lg - 2);
    let middles = size_of(lg - 4);
    let mut other = 0;
    for middle in 0..middles {
        if middle <= other {
            for t in 0..16 {
                let u = opposite_of_four(t);
                if 16 * middle + t < 16 * other + u {
                    let i = row_around(quarter, middle, t);
                    let j = row_around(quarter, other, u);
                    swap_rows(cells, rows, cols, i, j);
                }
            }
        }
        other = next_reversed(other, lg - 4);
    }
}

/// Puts 2^lg rows in bit-reversed order.
pub fn reverse_rows<F: Additive>(cells: &mut [F], cols: usize, lg: u8)
    requires small { lg < 64 }
    requires size { length cells.old ≡ 2 ^ lg * cols }
    ensures { AreRowsReversed F.zero lg (matrix_of (2 ^ lg) cols cells.old)
        (matrix_of (2 ^ lg) cols cells.new) }
{
    if lg < 4 {
        reverse_one_by_one(cells, cols, lg);
    } else {
        reverse_by_sixteens(cells, cols, lg);
    }
}
