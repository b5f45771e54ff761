//! Distinct indices, in memory for as many as are handed in, however large they are.

ghost use Rattle.std.specs.Prelude.{◌≡◌, ◌↔◌, ◌<◌, ℕ, All, Contains, length, map, slice_index};
ghost use Rattle.std.specs.Prelude.{IsTrue, IfOk};
ghost use Rattle.std.specs.List.Sorted.{IsStrictlyIncreasing};
ghost use Rattle.math_shards.specs.Fitting.{distinct_among};

use super::rows::Row;
use math_base::algebra::Mem;
use std::alloc::Global;

/// The numbers by rising value, each once.
pub(super) fn distinct(numbers: Vec<u32>) -> Vec<u32>
    ensures rising { IsStrictlyIncreasing result.items }
    ensures exactly { (i : ℕ) → Contains result.items i ↔ Contains numbers.items i }
{
    let mut out = numbers;
    out.sort_unstable();
    out.dedup();
    out
}

/// The indices of the rows by rising value, each once.
pub(super) fn distinct_indices<R: Row>(alloc: Global, rows: &[R]) -> Mem<Vec<u32>>
    ensures rising { IfOk result (λ v. IsStrictlyIncreasing v.items) }
    ensures exactly { IfOk result
        (λ v. (i : ℕ) → Contains v.items i ↔ Contains (map R.index rows.now) i) }
{
    let mut indices = Vec::with_capacity(alloc, rows.len())?;
    for row in rows {
        indices.push(row.index())?;
    }
    Ok(distinct(indices))
}

/// The place of the index among indices that rise, one of which it is.
pub(super) fn place_of(indices: &[u32], index: u32) -> usize
    requires rising { IsStrictlyIncreasing indices.now }
    requires there { Contains indices.now index }
    ensures inside { result < length indices.now }
    ensures index { slice_index indices.now result ≡ index }
{
    let Ok(place) = indices.binary_search(&index) else {
        unreachable!()
    };
    place
}

/// Whether it is found that the rows have fewer than `min` distinct indices, where they are so few
/// that a bit for each of `total` indices would take more memory than a word for each row.
pub(super) fn are_too_few<R: Row>(alloc: Global, rows: &[R], min: u32, total: u32) -> Mem<bool>
    requires { All (λ row. R.index row < total) rows.now }
    ensures { IfOk result (λ answer. IsTrue answer
        → distinct_among total (map R.index rows.now) < min) }
{
    if total as usize / 64 <= rows.len() {
        return Ok(false);
    }
    let indices = distinct_indices(alloc, rows)?;
    Ok(indices.len() < min as usize)
}
