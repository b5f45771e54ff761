//! The most work that counted calls do, done or refused.

use math_ntt::ntt::Work;
use rows_base::refusals::{Breach, tell};
use std::alloc::Global;

/// Tells where more butterflies, or more root products, were counted than at most.
pub fn keep_counts(alloc: Global, counted: (u128, u128), most: (u64, u64)) {
    if counted.0 > u128::from(most.0) || counted.1 > u128::from(most.1) {
        tell(alloc, Breach::BeyondBound);
    }
}

/// Tells where more was counted than half of so many butterflies and so many root products.
fn keep(alloc: Global, work: &Work, twice_butterflies: u64, root_products: u64) {
    let counted = (work.butterflies(), work.root_products());
    keep_counts(alloc, counted, (twice_butterflies / 2, root_products));
}

/// The N lg N of N rows, which are a power of two.
fn rows_by_lg(rows: usize) -> u64 {
    (rows as u64).saturating_mul(u64::from(rows.trailing_zeros()))
}

/// Tells where an evaluation of so many rows and columns counted more than c N lg N / 2
/// butterflies, or a root product.
pub fn keep_evaluation(alloc: Global, work: &Work, rows: usize, cols: usize) {
    keep(alloc, work, rows_by_lg(rows).saturating_mul(cols as u64), 0);
}

/// Tells where so many recoveries counted more than N lg N (3 lg N + 3 c + 2) / 2 butterflies and
/// 128 N root products each.
pub fn keep_recoveries(alloc: Global, work: &Work, rows: usize, cols: usize, count: u64) {
    let lg = u64::from(rows.trailing_zeros());
    let transforms = (cols as u64)
        .saturating_add(lg)
        .saturating_mul(3)
        .saturating_add(2);
    let twice_butterflies = rows_by_lg(rows).saturating_mul(transforms);
    let root_products = (rows as u64).saturating_mul(128);
    keep(
        alloc,
        work,
        twice_butterflies.saturating_mul(count),
        root_products.saturating_mul(count),
    );
}
