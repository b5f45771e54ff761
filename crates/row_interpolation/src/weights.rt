//! Weights by which rows of given indices give the rows of others.
//!
//! The weight of index t for the value at x is A(x) / ((x - x_t) D_t), where x_t is its point, A
//! the product of X minus each point, and D_t the product of the differences of x_t from the other
//! points. The products D_t serve all rows that are wanted, and one inversion serves all weights of
//! a row. Of many points a transform gives the weights of a row in less time.

ghost use Rattle.std.specs.Prelude.{◌≡◌, ◌<◌, ◌≤◌, ◌^◌, ℕ, IfOk, List, length};
ghost use Rattle.std.specs.Int.{IsNextPowerOfTwo};
ghost use Rattle.std.specs.Map.{values_of};
ghost use Rattle.math_fields.specs.Elements.{goldilocks, negative, product, same, sum};
ghost use Rattle.math_base.specs.Polynomials.{AreWeightsAt};
ghost use Rattle.math_restoring.specs.Restored.{item};
ghost use Rattle.math_transforms.specs.RootWeights.{AreRising};
ghost use Rattle.row_interpolation.specs.Weights.{AreOutside, AreOwnProducts, ArePointsOf};
ghost use Rattle.row_interpolation.specs.Weights.{AreWanted, AreWeightRows, AreWeightsFor};
ghost use Rattle.row_interpolation.specs.Weights.{differences};

use crate::points::{lg_above, points_of};
use math_base::algebra::Mem;
use math_base::weights::quotients;
use math_fields::goldilocks::F;
use math_lagrange::weights::lagrange_coefficients_at;
use math_values::points::point_of;
use std::alloc::Global;
use std::num::NonZeroU32;

/// x - y.
fn difference(x: F, y: F) -> F
    ensures { same result (sum x (negative y)) }
{
    x - y
}

/// The product of x - p over the points p.
fn product_of_differences(x: F, points: &[F]) -> F
    ensures { result ≡ differences x points.now }
{
    let mut out = F::from(1);
    for p in points {
        out = out * difference(x, *p);
    }
    out
}

/// For each point the product of its differences from the other ones.
fn own_products(alloc: Global, points: &[F]) -> Mem<Vec<F>>
    ensures { IfOk result (λ own. AreOwnProducts points.now (length points.now) own.items) }
{
    let mut out = Vec::with_capacity(alloc, points.len())?;
    for i in 0..points.len() {
        let before = product_of_differences(points[i], &points[..i]);
        let after = product_of_differences(points[i], &points[i + 1..]);
        out.push(before * after)?;
    }
    Ok(out)
}

/// For each point p its product, times x - p.
fn divisors(alloc: Global, x: F, points: &[F], own: &[F]) -> Mem<Vec<F>>
    requires { length own.now ≡ length points.now }
    ensures count { IfOk result (λ v. length v.items ≡ length points.now) }
    ensures each { IfOk result (λ v. (k : ℕ) → k < length points.now → item v.items k
        ≡ product (sum x (negative (item points.now k))) (item own.now k)) }
{
    let mut out = Vec::with_capacity(alloc, points.len())?;
    for i in 0..points.len() {
        out.push(difference(x, points[i]) * own[i])?;
    }
    Ok(out)
}

/// The weights for the value at x over points with their products.
fn weights_at(alloc: Global, x: F, points: &[F], own: &[F]) -> Mem<Vec<F>>
    requires { length own.now ≡ length points.now }
    ensures { IfOk result (λ weights. AreOwnProducts points.now (length points.now) own.now
        → AreOutside x points.now → AreWeightsAt goldilocks x points.now weights.items) }
{
    let numerator = product_of_differences(x, points);
    let divisors = divisors(alloc, x, points, own)?;
    let out = quotients(alloc, numerator, &divisors)?;
    Ok(out)
}

/// How many products take as long as what a transform takes for each point and level of its domain.
const TRANSFORM: usize = 8;

/// Whether weights for so many rows take less time from the points alone than by a transform for
/// each row: a product for each pair of points serves all rows.
fn are_few(points: usize, rows: usize, lg: u8) -> bool
    requires { lg ≤ 32 }
{
    let transform = TRANSFORM.saturating_mul((lg as usize) << lg);
    points.saturating_mul(points) <= rows.saturating_mul(transform)
}

/// The weights for the values at the points of the wanted indices, row after row.
fn weights_at_all(alloc: Global, lg: u8, points: &[F], own: &[F], wanted: &[u32]) -> Mem<Vec<F>>
    requires small { lg ≤ 32 }
    requires count { length own.now ≡ length points.now }
    ensures { IfOk result (λ weights. (total : ℕ) (indices : List ℕ)
        → ArePointsOf total lg indices points.now own.now → AreWanted total indices wanted.now
        → AreWeightRows total indices wanted.now (length wanted.now) weights.items) }
{
    let mut out = Vec::new(alloc);
    for j in 0..wanted.len() {
        let row = weights_at(alloc, point_of(alloc, lg, wanted[j]), points, own)?;
        out.extend_from_slice(&row)?;
    }
    Ok(out)
}

/// The weights by which rows of these rising indices give the rows that are wanted, row after row,
/// from the points of the indices alone.
fn weights_by_points(alloc: Global, total: u32, indices: &[u32], wanted: &[u32]) -> Mem<Vec<F>>
    requires { AreWanted total indices.now wanted.now }
    ensures { IfOk result (λ weights. AreWeightRows total indices.now wanted.now
        (length wanted.now) weights.items) }
{
    let lg = lg_above(total);
    let points = points_of(alloc, lg, indices)?;
    let own = own_products(alloc, &points)?;
    let rows = weights_at_all(alloc, lg, &points, &own, wanted)?;
    Ok(rows)
}

/// Returns the weights of pairs of an index and a weight.
pub fn weights_of_pairs(alloc: Global, pairs: Vec<(u32, F)>) -> Mem<Vec<F>>
    ensures { IfOk result (λ v. v.items ≡ values_of pairs.items) }
{
    let mut out = Vec::new(alloc);
    for pair in pairs {
        out.push(pair.1)?;
    }
    Ok(out)
}

/// The weights by which rows of these rising indices give the row of another index, by a transform.
fn weights_for(alloc: Global, total: u32, indices: &[u32], index: u32) -> Mem<Vec<F>>
    requires some { 1 ≤ total }
    requires rising { AreRising total indices.now }
    ensures { IfOk result (λ weights. (lg : ℕ) → IsNextPowerOfTwo total (2 ^ lg)
        → AreWeightsFor lg indices.now index weights.items) }
{
    let x = point_of(alloc, lg_above(total), index);
    let Some(total) = NonZeroU32::new(total) else {
        unreachable!()
    };
    let given = Vec::from_slice(alloc, indices)?;
    let found = lagrange_coefficients_at(alloc, total, given, &x)?;
    let found = weights_of_pairs(alloc, found)?;
    Ok(found)
}

/// The weights by which rows of these rising indices give the rows that are wanted, row after row,
/// by a transform for each.
fn weights_by_transforms(alloc: Global, total: u32, indices: &[u32], wanted: &[u32]) -> Mem<Vec<F>>
    requires some { 1 ≤ total }
    requires rising { AreRising total indices.now }
    ensures { IfOk result (λ weights. AreWeightRows total indices.now wanted.now
        (length wanted.now) weights.items) }
{
    let mut out = Vec::new(alloc);
    for j in 0..wanted.len() {
        let row = weights_for(alloc, total, indices, wanted[j])?;
        out.extend_from_slice(&row)?;
    }
    Ok(out)
}

/// The weights by which rows of these rising indices give the rows that are wanted, row after row.
pub(crate) fn weight_rows(alloc: Global, total: u32, indices: &[u32], wanted: &[u32]) -> Mem<Vec<F>>
    requires { AreWanted total indices.now wanted.now }
    ensures { IfOk result (λ weights. AreWeightRows total indices.now wanted.now
        (length wanted.now) weights.items) }
{
    if are_few(indices.len(), wanted.len(), lg_above(total)) {
        return weights_by_points(alloc, total, indices, wanted);
    }
    weights_by_transforms(alloc, total, indices, wanted)
}
