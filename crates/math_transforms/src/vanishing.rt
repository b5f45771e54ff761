//! Polynomials that vanish at the missing points of a domain.
//!
//! The domain is that of the powers of the root w of order N = 2^lg, and a point is missing where
//! the bitmap has `false`. The points of even index are the powers of w², the root of order N / 2,
//! and those of odd index are w times these. So two polynomials for half as many points give that
//! for all missing points: p for those of even index, and q for those of odd index. q is taken at
//! X / w, which moves its roots from the powers of w² to w times these. The product p(X) q(X / w)
//! vanishes at exactly the missing points.
//!
//! Few points make a base chunk, whose polynomial is built factor by factor, one for each missing
//! point.
//!
//! A piece has few coefficients more than missing points. So a product is computed by its values on
//! the smallest domain that has a point for each of its coefficients: where a third of the points
//! are missing, on half of the domain.

ghost use Rattle.std.specs.Prelude.{
  ◌≡◌,
  ◌+◌,
  ◌-◌,
  ◌*◌,
  ◌<◌,
  ◌≤◌,
  ◌^◌,
  ℕ,
  IfOk,
  OnOk,
  length,
  slice_index_or,
  vec_len,
};
ghost use Rattle.std.specs.List.{AllWithin};
ghost use Rattle.math_theory.specs.Powers.{power};
ghost use Rattle.math_theory.specs.Recovery.{count_true};
ghost use Rattle.math_base.specs.Polynomials.{value_in_ring};
ghost use Rattle.math_transforms.specs.Domains.{IsDomain};
ghost use Rattle.math_transforms.specs.CountedWork.{AddsAtMost, AddsWithin};
ghost use Rattle.math_transforms.specs.MissingPoints.{
  count_false,
  missing_product,
  piece_value,
  places,
  AreTrees,
  HasAtMost,
  IsEverywhere,
  IsMerged,
  IsSpaced,
  IsVanishing,
  VanishesAtFalse,
};
ghost use Rattle.math_transforms.specs.RootTrees.{IsTreeOf};

use super::cells::{copies, filled_up};
use super::row_products::{dilate_rows, multiply_row, multiply_rows};
use super::transform::{
    evaluate_rows, evaluation_table, interpolate_rows, interpolation_table, size_of,
};
use super::trees::level_root;
use super::vanishing_points::VanishingPoints;
use super::work::Work;
use math_base::algebra::{Additive, Field, FieldNTT, Mem, Multiplicative, Object, Ring};
use std::alloc::Global;

/// Up to 2^8 points are one base chunk. A domain of more points is cut into chunks of 2^6: a chunk
/// of n points takes up to n / 2 root products a point, and a merge into m points 3 lg(m) / 2
/// butterflies a point.
const WHOLE_LG: u8 = 8;

const CHUNK_LG: u8 = 6;

/// A polynomial that vanishes at the missing ones of n points, and at no others: one where none is
/// missing, X^n - 1 where all are, and else at most n coefficients.
#[derive(Drop)]
pub(super) enum Piece<F: Drop> {
    Nowhere,
    Everywhere,
    Somewhere(Vec<F>),
}

/// Points of a bitmap, `stride` apart from `start` on.
#[derive(Drop)]
pub(super) struct Spaced<'a> {
    pub(super) points: &'a VanishingPoints,
    pub(super) start: usize,
    pub(super) stride: usize,
}

/// The trees of a domain of 2^lg points: that of the points, and that of their inverses.
#[derive(Drop)]
pub(super) struct Trees<'a, F> {
    pub(super) evaluation: &'a [F],
    pub(super) interpolation: &'a [F],
    pub(super) lg: u8,
}

/// Multiplies a coefficient by a root. No other code counts root products.
fn root_product<F: Ring>(alloc: Global, coefficient: &mut F, root: &F, work: &mut Work) -> Mem<()>
    requires room { work.old.root_products + 1 < 2 ^ 128 }
    ensures product { OnOk result (F.same coefficient.new (F.product coefficient.old root.now)) }
    ensures butterflies { work.new.butterflies ≡ work.old.butterflies }
    ensures root_products { work.new.root_products ≡ work.old.root_products + 1 }
{
    work.add_root_product();
    coefficient.mul_assign(alloc, root)?;
    Ok(())
}

/// Multiplies the polynomial by X - root: coefficient i becomes the one before it, less itself
/// times the root.
fn times_root<F: Ring>(
    alloc: Global,
    coefficients: &mut Vec<F>,
    root: &F,
    work: &mut Work,
) -> Mem<()>
    requires room { work.old.root_products + vec_len coefficients.old < 2 ^ 128 }
    ensures length { OnOk result (vec_len coefficients.new ≡ vec_len coefficients.old + 1) }
    ensures values { OnOk result ((r : F) → F.same (value_in_ring F.Ring coefficients.new.items r)
        (F.product (value_in_ring F.Ring coefficients.old.items r)
        (F.sum r (F.negative root.now)))) }
    ensures butterflies { work.new.butterflies ≡ work.old.butterflies }
    ensures exact { OnOk result
        (work.new.root_products ≡ work.old.root_products + vec_len coefficients.old) }
    ensures bounded { AddsWithin 0 (vec_len coefficients.old) work.old work.new }
{
    let mut before = F::zero(alloc)?;
    for i in 0..coefficients.len() {
        let coefficient = coefficients[i].clone(alloc)?;
        let mut product = coefficient.clone(alloc)?;
        root_product(alloc, &mut product, root, work)?;
        before.sub_assign(alloc, &product)?;
        coefficients[i] = before;
        before = coefficient;
    }
    coefficients.push(before)?;
    Ok(())
}

/// The product of X - root^j over the missing ones of the first `count` points.
fn chunk_product<F: Ring>(
    alloc: Global,
    spaced: &Spaced<'_>,
    count: usize,
    root: &F,
    work: &mut Work,
) -> Mem<Vec<F>>
    requires spaced { IsSpaced count spaced.now }
    requires few { count ≤ 256 }
    requires room { work.old.root_products + 2 ^ 16 < 2 ^ 128 }
    ensures length { IfOk result
        (λ p. vec_len p ≡ count_false (places count spaced.now) + 1) }
    ensures values { IfOk result (λ p. (r : F) → F.same (value_in_ring F.Ring p.items r)
        (missing_product F.Ring r root.now (places count spaced.now))) }
    ensures butterflies { work.new.butterflies ≡ work.old.butterflies }
    ensures exact { IfOk result (λ _. let v = count_false (places count spaced.now) in
        2 * work.new.root_products ≡ 2 * work.old.root_products + v * (v + 1)) }
    ensures no_fewer { work.old.root_products ≤ work.new.root_products }
    ensures no_more { let v = count_false (places count spaced.now) in
        2 * work.new.root_products ≤ 2 * work.old.root_products + v * (v + 1) }
{
    let mut coefficients = Vec::new(alloc);
    coefficients.push(F::one(alloc)?)?;
    let mut power = F::one(alloc)?;
    for j in 0..count {
        if !spaced.points.get((spaced.start + j * spaced.stride) as u64) {
            times_root(alloc, &mut coefficients, &power, work)?;
        }
        power.mul_assign(alloc, root)?;
    }
    Ok(coefficients)
}

/// How many of the first `count` points are missing.
fn count_missing(spaced: &Spaced<'_>, count: usize) -> usize
    requires spaced { IsSpaced count spaced.now }
    ensures { result ≡ count_false (places count spaced.now) }
{
    let mut missing = 0;
    for j in 0..count {
        if !spaced.points.get((spaced.start + j * spaced.stride) as u64) {
            missing += 1;
        }
    }
    missing
}

/// The piece for 2^lg points, built factor by factor.
fn chunk<F: FieldNTT>(alloc: Global, spaced: &Spaced<'_>, lg: u8, work: &mut Work) -> Mem<Piece<F>>
    requires small { lg ≤ 8 }
    requires domain { lg ≤ F.MAX_LG_ROOT_ORDER }
    requires spaced { IsSpaced (2 ^ lg) spaced.now }
    requires room { work.old.root_products + 2 ^ 16 < 2 ^ 128 }
    ensures length { IfOk result (λ piece. HasAtMost (2 ^ lg) piece) }
    ensures vanishes { IfOk result (λ piece.
        VanishesAtFalse F.Ring (F.root lg) (places (2 ^ lg) spaced.now)
        (piece_value F.Ring (2 ^ lg) piece)) }
    ensures everywhere { IfOk result (λ piece. IsEverywhere piece
        → count_true (places (2 ^ lg) spaced.now) ≡ 0) }
    ensures butterflies { work.new.butterflies ≡ work.old.butterflies }
    ensures exact { IfOk result
        (λ _. let v = count_false (places (2 ^ lg) spaced.now) in v < 2 ^ lg
        → 2 * work.new.root_products ≡ 2 * work.old.root_products + v * (v + 1)) }
    ensures no_more { let v = count_false (places (2 ^ lg) spaced.now) in
        2 * work.new.root_products ≤ 2 * work.old.root_products + v * (v + 1) }
    ensures bounded { AddsWithin 0 (128 * 2 ^ lg) work.old work.new }
{
    let count = size_of(lg);
    let missing = count_missing(spaced, count);
    if missing == 0 {
        return Ok(Piece::Nowhere);
    }
    if missing == count {
        return Ok(Piece::Everywhere);
    }
    let Some(root) = F::root_of_unity(alloc, lg)? else {
        unreachable!()
    };
    let product = chunk_product(alloc, spaced, count, &root, work)?;
    Ok(Piece::Somewhere(product))
}

/// The polynomial one, with n coefficients.
fn constant_one<F: Ring>(alloc: Global, n: usize) -> Mem<Vec<F>>
    requires { 0 < n }
    ensures length { IfOk result (λ p. vec_len p ≡ n) }
    ensures values { IfOk result (λ p. (r : F) → F.same (value_in_ring F.Ring p.items r) F.one) }
{
    let mut one = Vec::new(alloc);
    one.push(F::one(alloc)?)?;
    let all = filled_up(alloc, one, n)?;
    Ok(all)
}

/// The polynomial of n coefficients times 1 + factor X^n: the coefficients, and after them each
/// times the factor.
fn with_multiple<F: Ring>(alloc: Global, low: Vec<F>, factor: &F) -> Mem<Vec<F>>
    requires { vec_len low + vec_len low < 2 ^ 64 }
    ensures length { IfOk result (λ p. vec_len p ≡ vec_len low + vec_len low) }
    ensures values { IfOk result (λ p. (r : F) → F.same (value_in_ring F.Ring p.items r)
        (F.product (F.sum F.one (F.product factor.now
        (power F.one F.product r (vec_len low)))) (value_in_ring F.Ring low.items r))) }
{
    let mut high = copies(alloc, &low)?;
    multiply_row(alloc, &mut high, factor)?;
    let mut all = low;
    all.append(&mut high)?;
    Ok(all)
}

/// The number of coefficients before the zeros at the end.
fn count_before_zeros<F: Ring>(alloc: Global, coefficients: &[F]) -> Mem<usize>
    ensures within { IfOk result (λ n. n ≤ length coefficients.now) }
    ensures zeros { IfOk result
        (λ n. AllWithin (λ c. F.same c F.zero) coefficients.now n (length coefficients.now)) }
    ensures last { IfOk result (λ n. 0 < n
        → ¬ (F.same (slice_index_or coefficients.now (n - 1) F.zero) F.zero)) }
{
    let zero = F::zero(alloc)?;
    for i in (0..coefficients.len()).rev() {
        if !coefficients[i].equals(alloc, &zero)? {
            return Ok(i + 1);
        }
    }
    Ok(0)
}

/// The polynomial without the zeros at the end of its coefficients.
fn trim<F: Ring>(alloc: Global, coefficients: Vec<F>) -> Mem<Vec<F>>
    ensures length { IfOk result (λ p. vec_len p ≤ vec_len coefficients) }
    ensures last { IfOk result (λ p. 0 < vec_len p
        → ¬ (F.same (slice_index_or p.items (vec_len p - 1) F.zero) F.zero)) }
    ensures values { IfOk result (λ p. (r : F) → F.same (value_in_ring F.Ring p.items r)
        (value_in_ring F.Ring coefficients.items r)) }
{
    let count = count_before_zeros(alloc, &coefficients)?;
    let mut out = coefficients;
    out.truncate(count);
    Ok(out)
}

/// Turns the coefficients of two polynomials into those of the polynomial whose values on the
/// domain are the products of theirs, which stand where the first ones stood.
fn multiply_values<F: FieldNTT>(
    alloc: Global,
    left: &mut [F],
    right: &mut [F],
    trees: &Trees<'_, F>,
    work: &mut Work,
) -> Mem<()>
    requires trees { AreTrees F.Ring F.MAX_LG_ROOT_ORDER F.root F.inverse trees.now }
    requires left { length left.old ≡ 2 ^ trees.now.lg }
    requires right { length right.old ≡ 2 ^ trees.now.lg }
    requires room { 2 * work.old.butterflies + 3 * 2 ^ trees.now.lg * trees.now.lg < 2 ^ 129 }
    ensures size { length left.new ≡ length left.old }
    ensures values { OnOk result
        ((i : ℕ) → i < 2 ^ trees.now.lg → let x = power F.one F.product (F.root trees.now.lg) i in
        F.same (value_in_ring F.Ring left.new x)
        (F.product (value_in_ring F.Ring left.old x) (value_in_ring F.Ring right.old x))) }
    ensures bounded { AddsAtMost (3 * 2 ^ trees.now.lg * trees.now.lg) work.old work.new }
{
    let lg = trees.lg;
    evaluate_rows(alloc, left, 1, lg, trees.evaluation, work)?;
    evaluate_rows(alloc, right, 1, lg, trees.evaluation, work)?;
    multiply_rows(alloc, left, 1, right)?;
    interpolate_rows(alloc, left, 1, lg, trees.interpolation, work)?;
    Ok(())
}

/// The product of two polynomials that have together at most as many coefficients as the domain has
/// points. It is computed by its values on the smallest such domain, and has no zeros at its end,
/// so that the products made with it are on the smallest domains too.
fn multiply<F: FieldNTT>(
    alloc: Global,
    left: Vec<F>,
    right: Vec<F>,
    trees: &Trees<'_, F>,
    work: &mut Work,
) -> Mem<Vec<F>>
    requires trees { AreTrees F.Ring F.MAX_LG_ROOT_ORDER F.root F.inverse trees.now }
    requires few { vec_len left + vec_len right ≤ 2 ^ trees.now.lg }
    requires room { 2 * work.old.butterflies + 3 * 2 ^ trees.now.lg * trees.now.lg < 2 ^ 129 }
    ensures length { IfOk result (λ p. vec_len p ≤ 2 ^ trees.now.lg) }
    ensures values { IfOk result (λ p. (r : F) → F.same (value_in_ring F.Ring p.items r)
        (F.product (value_in_ring F.Ring left.items r) (value_in_ring F.Ring right.items r))) }
    ensures bounded { AddsAtMost (3 * 2 ^ trees.now.lg * trees.now.lg) work.old work.new }
{
    let lg = trees.lg;
    if lg > 0 && left.len() + right.len() <= size_of(lg - 1) {
        let half = size_of(lg - 1);
        let (evaluation, _) = trees.evaluation.split_at(half);
        let (interpolation, _) = trees.interpolation.split_at(half);
        let lower = Trees {
            evaluation,
            interpolation,
            lg: lg - 1,
        };
        let product = multiply(alloc, left, right, &lower, work)?;
        return Ok(product);
    }
    let n = size_of(lg);
    let mut product = filled_up(alloc, left, n)?;
    let mut other = filled_up(alloc, right, n)?;
    multiply_values(alloc, &mut product, &mut other, trees, work)?;
    let out = trim(alloc, product)?;
    Ok(out)
}

/// The polynomial at X / w, w being the root of order 2^lg: its roots are w times those of before.
fn with_roots_moved<F: FieldNTT>(alloc: Global, coefficients: Vec<F>, lg: u8) -> Mem<Vec<F>>
    requires { lg ≤ F.MAX_LG_ROOT_ORDER }
    ensures length { IfOk result (λ p. vec_len p ≡ vec_len coefficients) }
    ensures values { IfOk result (λ p. (r : F) → F.same (value_in_ring F.Ring p.items r)
        (value_in_ring F.Ring coefficients.items (F.product (F.inverse (F.root lg)) r))) }
{
    let mut moved = coefficients;
    let count = moved.len();
    let back = level_root::<F, false>(alloc, lg)?;
    dilate_rows(alloc, &mut moved, 1, count, &back)?;
    Ok(moved)
}

/// p(X) q(X / w), up to its sign, for pieces p and q of 2^(lg - 1) points, w being the root of
/// order 2^lg.
///
/// With n = 2^(lg - 1) the power n of w is -1, so that X^n - 1 becomes -(X^n + 1) at X / w. The
/// product of two such polynomials has n coefficients less than their number of points, but where
/// all points are missing.
fn merge<F: FieldNTT>(
    alloc: Global,
    left: Piece<F>,
    right: Piece<F>,
    trees: &Trees<'_, F>,
    work: &mut Work,
) -> Mem<Piece<F>>
    requires trees { AreTrees F.Ring F.MAX_LG_ROOT_ORDER F.root F.inverse trees.now }
    requires positive { 0 < trees.now.lg }
    requires left { HasAtMost (2 ^ (trees.now.lg - 1)) left }
    requires right { HasAtMost (2 ^ (trees.now.lg - 1)) right }
    requires room { 2 * work.old.butterflies + 3 * 2 ^ trees.now.lg * trees.now.lg < 2 ^ 129 }
    ensures length { IfOk result (λ piece. HasAtMost (2 ^ trees.now.lg) piece) }
    ensures merged { IfOk result (λ piece. IsMerged F.Ring (F.inverse (F.root trees.now.lg))
        (piece_value F.Ring (2 ^ (trees.now.lg - 1)) left)
        (piece_value F.Ring (2 ^ (trees.now.lg - 1)) right)
        (piece_value F.Ring (2 ^ trees.now.lg) piece)) }
    ensures everywhere { IfOk result
        (λ piece. IsEverywhere piece → IsEverywhere left × IsEverywhere right) }
    ensures bounded { AddsAtMost (3 * 2 ^ trees.now.lg * trees.now.lg) work.old work.new }
{
    let lg = trees.lg;
    let half = size_of(lg - 1);
    match right {
        Piece::Nowhere => match left {
            Piece::Nowhere => Ok(Piece::Nowhere),
            Piece::Everywhere => {
                let factor = F::one(alloc)?.neg(alloc)?;
                let one = constant_one(alloc, half)?;
                let all = with_multiple(alloc, one, &factor)?;
                Ok(Piece::Somewhere(all))
            }
            Piece::Somewhere(p) => Ok(Piece::Somewhere(p)),
        },
        Piece::Everywhere => match left {
            Piece::Nowhere => {
                let factor = F::one(alloc)?;
                let one = constant_one(alloc, half)?;
                let all = with_multiple(alloc, one, &factor)?;
                Ok(Piece::Somewhere(all))
            }
            Piece::Everywhere => Ok(Piece::Everywhere),
            Piece::Somewhere(p) => {
                let factor = F::one(alloc)?;
                let low = filled_up(alloc, p, half)?;
                let all = with_multiple(alloc, low, &factor)?;
                Ok(Piece::Somewhere(all))
            }
        },
        Piece::Somewhere(q) => {
            let moved = with_roots_moved(alloc, q, lg)?;
            match left {
                Piece::Nowhere => Ok(Piece::Somewhere(moved)),
                Piece::Everywhere => {
                    let factor = F::one(alloc)?.neg(alloc)?;
                    let low = filled_up(alloc, moved, half)?;
                    let all = with_multiple(alloc, low, &factor)?;
                    Ok(Piece::Somewhere(all))
                }
                Piece::Somewhere(p) => {
                    let all = multiply(alloc, p, moved, trees, work)?;
                    Ok(Piece::Somewhere(all))
                }
            }
        }
    }
}

/// The piece for 2^lg points: that of the even ones and that of the odd ones, merged, down to
/// chunks of 2^base points.
fn tree<F: FieldNTT>(
    alloc: Global,
    spaced: &Spaced<'_>,
    base: u8,
    trees: &Trees<'_, F>,
    work: &mut Work,
) -> Mem<Piece<F>>
    requires trees { AreTrees F.Ring F.MAX_LG_ROOT_ORDER F.root F.inverse trees.now }
    requires base { 0 < base }
    requires few { base ≤ 8 }
    requires spaced { IsSpaced (2 ^ trees.now.lg) spaced.now }
    requires room { 2 * work.old.butterflies
        + 2 ^ trees.now.lg * trees.now.lg * (3 * trees.now.lg - 1) < 2 ^ 129 }
    requires product_room { work.old.root_products + 128 * 2 ^ trees.now.lg + 2 ^ 16 < 2 ^ 128 }
    ensures length { IfOk result (λ piece. HasAtMost (2 ^ trees.now.lg) piece) }
    ensures vanishes { IfOk result (λ piece.
        VanishesAtFalse F.Ring (F.root trees.now.lg) (places (2 ^ trees.now.lg) spaced.now)
        (piece_value F.Ring (2 ^ trees.now.lg) piece)) }
    ensures everywhere { IfOk result (λ piece. IsEverywhere piece
        → count_true (places (2 ^ trees.now.lg) spaced.now) ≡ 0) }
    ensures butterflies { trees.now.lg ≤ base → work.new.butterflies ≡ work.old.butterflies }
    ensures exact { IfOk result
        (λ _. let v = count_false (places (2 ^ trees.now.lg) spaced.now) in trees.now.lg ≤ base
        → v < 2 ^ trees.now.lg
        → 2 * work.new.root_products ≡ 2 * work.old.root_products + v * (v + 1)) }
    ensures no_more { let v = count_false (places (2 ^ trees.now.lg) spaced.now) in trees.now.lg ≤ base
        → 2 * work.new.root_products ≤ 2 * work.old.root_products + v * (v + 1) }
    ensures bounded { AddsWithin (2 ^ trees.now.lg * trees.now.lg * (3 * trees.now.lg - 1))
        (128 * 2 ^ trees.now.lg) work.old work.new }
{
    let lg = trees.lg;
    if lg <= base {
        let piece = chunk(alloc, spaced, lg, work)?;
        return Ok(piece);
    }
    let half = size_of(lg - 1);
    let (evaluation, _) = trees.evaluation.split_at(half);
    let (interpolation, _) = trees.interpolation.split_at(half);
    let lower = Trees {
        evaluation,
        interpolation,
        lg: lg - 1,
    };
    let points = spaced.points;
    let start = spaced.start;
    let stride = spaced.stride * 2;
    let even = Spaced {
        points,
        start,
        stride,
    };
    let left = tree(alloc, &even, base, &lower, work)?;
    let start = start + spaced.stride;
    let odd = Spaced {
        points,
        start,
        stride,
    };
    let right = tree(alloc, &odd, base, &lower, work)?;
    let all = merge(alloc, left, right, trees, work)?;
    Ok(all)
}

/// The N coefficients of a polynomial that vanishes at the missing points of a domain of N = 2^lg
/// points, and at no others. Some point is not missing.
pub fn vanishing_coefficients<F: FieldNTT>(
    alloc: Global,
    points: &VanishingPoints,
    lg: u8,
    evaluation: &[F],
    interpolation: &[F],
    work: &mut Work,
) -> Mem<Vec<F>>
    requires domain { IsDomain F.MAX_LG_ROOT_ORDER lg }
    requires points { length points.now ≡ 2 ^ lg }
    requires some { 0 < count_true points.now }
    requires evaluation { IsTreeOf F.Ring F.root F.one lg evaluation.now }
    requires interpolation { IsTreeOf F.Ring
        (λ l. F.inverse (F.root l)) F.one lg interpolation.now }
    requires room { work.old.butterflies ≤ 2 ^ 127 }
    requires product_room { work.old.root_products ≤ 2 ^ 127 }
    ensures length { IfOk result (λ p. vec_len p ≡ 2 ^ lg) }
    ensures vanishes { IfOk result
        (λ p. VanishesAtFalse F.Ring (F.root lg) points.now (value_in_ring F.Ring p.items)) }
    ensures butterflies { lg ≤ 8 → work.new.butterflies ≡ work.old.butterflies }
    ensures exact { IfOk result (λ _. lg ≤ 8 → 2 * work.new.root_products
        ≡ 2 * work.old.root_products + count_false points.now * (count_false points.now + 1)) }
    ensures no_more { lg ≤ 8 → 2 * work.new.root_products
        ≤ 2 * work.old.root_products + count_false points.now * (count_false points.now + 1) }
    ensures bounded { AddsWithin (2 ^ lg * lg * (3 * lg - 1)) (128 * 2 ^ lg) work.old work.new }
{
    let base = if lg <= WHOLE_LG { WHOLE_LG } else { CHUNK_LG };
    let whole = Spaced {
        points,
        start: 0,
        stride: 1,
    };
    let trees = Trees {
        evaluation,
        interpolation,
        lg,
    };
    let piece = tree::<F>(alloc, &whole, base, &trees, work)?;
    match piece {
        Piece::Nowhere => {
            let one = constant_one(alloc, size_of(lg))?;
            Ok(one)
        }
        Piece::Everywhere => unreachable!(),
        Piece::Somewhere(p) => {
            let all = filled_up(alloc, p, size_of(lg))?;
            Ok(all)
        }
    }
}

/// The value at zero, and the values on the domain of 2^lg points, of a polynomial that vanishes at
/// the missing points and at no others. Some point is not missing.
pub(super) fn vanishing_values<F: FieldNTT>(
    alloc: Global,
    points: &VanishingPoints,
    lg: u8,
) -> Mem<(F, Vec<F>)>
    requires domain { IsDomain F.MAX_LG_ROOT_ORDER lg }
    requires points { length points.now ≡ 2 ^ lg }
    requires some { 0 < count_true points.now }
    ensures { IfOk result
        (λ answer. IsVanishing F.Ring (F.root lg) points.now answer.0 answer.1.items) }
{
    let evaluation = evaluation_table::<F>(alloc, lg)?;
    let interpolation = interpolation_table::<F>(alloc, lg)?;
    let mut work = Work::new();
    let mut values = vanishing_coefficients(
        alloc,
        points,
        lg,
        &evaluation,
        &interpolation,
        &mut work,
    )?;
    let at_zero = values[0].clone(alloc)?;
    evaluate_rows(alloc, &mut values, 1, lg, &evaluation, &mut work)?;
    Ok((at_zero, values))
}
