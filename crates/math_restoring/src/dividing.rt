//! Columns of values, of which some are there, to coefficients.
//!
//! Let k rows of distinct indices be there, of a domain of N = 2^lg points, and let V be a
//! polynomial that vanishes at exactly the points of the other rows. Let f be the polynomial of k
//! coefficients that has the cells of a column as its values. Then g = f V has at most N
//! coefficients, and on the domain its values are the cells times those of V: zero at the points of
//! the other rows. f itself is determined by its values at m = 2^part points, where m is k or more,
//! and these are those of g divided by those of V wherever V is not zero: at s times the powers of
//! the root of order m, s being the shift. At these points x^m is s^m.
//!
//! Where m is below N, g is not needed as a whole. Let n be N / 2. The points of even index have
//! x^n = 1, those of odd index x^n = -1, and at the points of the coset x^n is c, a power of s^m.
//! Let u and v be the polynomials of n coefficients that have the values of g times (1 + c) / 2 at
//! the points of even index, and times (1 - c) / 2 at those of odd index. Then g(x) is
//! (1 + x^n) / (1 + c) u(x) + (1 - x^n) / (1 - c) v(x): both sides have at most N coefficients and
//! the same values on the domain. So on the coset g is u + v. Of its n coefficients those whose
//! places are m apart are added, times powers of s^m; a transform of m rows gives the values there,
//! each is divided by that of V, and m rows are interpolated.
//!
//! The transforms take rows of coefficients in natural order and rows of values in that of a tree,
//! so no row changes its place. What is the same for all columns is made once: the values of V and
//! their inverses, with all constant factors in them, and the trees.
//!
//! For example, of the four powers of i, a root of order four, the rows of 1 and -1 are there, with
//! 34 and -30. V is 1 + X^2, which is 2 at both, so the factors are (1 + c) 2 / 4 with c = s^2. At
//! 1 and -1 stand then 17 (1 + c) and -15 (1 + c): u is 2 (1 + c) + 32 (1 + c) X, and v is zero. At
//! s and -s u + v divided by V is 2 + 32 s and 2 - 32 s, so f is 2 + 32 X.
//!
//! By halves a level of N rows is saved, and all products between the transforms. The transforms
//! are the generic and counted ones of `math_transforms`; what they count here is dropped.

ghost use Rattle.std.specs.Prelude.{◌≡◌, ◌+◌, ◌-◌, ◌*◌, ◌<◌, ◌≤◌, ◌^◌, ℕ, IfOk, OnOk, length};
ghost use Rattle.math_theory.specs.Powers.{power};
ghost use Rattle.math_theory.specs.Recovery.{count_true};
ghost use Rattle.math_fields.specs.Elements.{inverse, negative, product, residue, root_of, same};
ghost use Rattle.math_fields.specs.Elements.{shift_of, sum, goldilocks};
ghost use Rattle.math_base.specs.Polynomials.{value_in_ring};
ghost use Rattle.math_transforms.specs.MissingPoints.{VanishesAtFalse};
ghost use Rattle.math_transforms.specs.RootTrees.{AreMultiplesAtPoints, ArePoints};
ghost use Rattle.math_transforms.specs.RootTrees.{AreValuesAtPoints, IsTreeOf};
ghost use Rattle.math_restoring.specs.CosetDivisions.{AreDividedInverses, AreFactors, AreFolded};
ghost use Rattle.math_restoring.specs.CosetDivisions.{AreSumsOf, DoColumnsFit, HasTables};
ghost use Rattle.math_restoring.specs.CosetDivisions.{IsCosetDivision};
ghost use Rattle.math_restoring.specs.Restored.{item};

use math_base::algebra::{Field, FieldNTT, Mem};
use math_base::weights::quotients;
use math_fields::goldilocks::F;
use math_transforms::cells::copies;
use math_transforms::points_below::{Points, evaluate_below, interpolate_below};
use math_transforms::row_products::multiply_rows;
use math_transforms::transform::{evaluation_table, interpolation_table, size_inverse, size_of};
use math_transforms::trees::{inverse_tree, root_tree};
use math_transforms::vanishing::vanishing_coefficients;
use math_transforms::vanishing_points::VanishingPoints;
use math_transforms::work::Work;
use std::alloc::Global;

/// What turns columns of values, of which the same ones are there in each, into coefficients.
#[derive(Drop)]
pub(crate) struct CosetDivision {
    /// The domain has 2^lg points.
    pub(crate) lg: u8,
    /// The coefficients of a column are no more than 2^part.
    pub(crate) part: u8,
    /// Which rows are there.
    pub(crate) points: VanishingPoints,
    /// The factors of the values, in the order of the tree of the domain.
    pub(crate) factors: Vec<F>,
    /// The tree of the inverses of the domain.
    pub(crate) domain: Vec<F>,
    /// Power 2^part of the shift.
    pub(crate) step: F,
    /// The tree of the coset of 2^part points.
    pub(crate) coset: Vec<F>,
    /// The tree of the inverses of these points.
    pub(crate) coset_inverses: Vec<F>,
    /// The inverses of the values of V at the points of the coset, divided by 2^part, in the order
    /// of the tree.
    pub(crate) inverses: Vec<F>,
}

/// Power 2^n of an element.
fn square_times(x: F, n: u8) -> F
    ensures { same result (power (residue 1) product x (2 ^ n)) }
{
    let mut out = x;
    for _done in 0..n {
        out = out * out;
    }
    out
}

/// `evaluate_below` over `F`, whose calls never refuse.
fn evaluate(alloc: Global, cells: &mut [F], cols: usize, points: &Points<'_, F>)
    requires points { ArePoints goldilocks 32 (root_of 2) points.now }
    requires size { length cells.old ≡ 2 ^ points.now.lg * cols }
    ensures { AreValuesAtPoints goldilocks points.now cols cells.old cells.new }
{
    let Ok(()) = evaluate_below(alloc, cells, cols, points, &mut Work::new()) else {
        unreachable!()
    };
}

/// `interpolate_below` over `F`, whose calls never refuse.
fn interpolate(alloc: Global, cells: &mut [F], cols: usize, inverses: &Points<'_, F>)
    requires points { ArePoints goldilocks 32 (inverse (root_of 2)) inverses.now }
    requires size { length cells.old ≡ 2 ^ inverses.now.lg * cols }
    ensures { AreMultiplesAtPoints goldilocks inverses.now cols cells.old cells.new }
{
    let Ok(()) = interpolate_below(alloc, cells, cols, inverses, &mut Work::new()) else {
        unreachable!()
    };
}

/// Adds to each cell the other one in its place.
fn add_cells(cells: &mut [F], others: &[F])
    requires { length others.now ≡ length cells.old }
    ensures { (k : ℕ) → k < length cells.old
        → same (item cells.new k) (sum (item cells.old k) (item others.now k)) }
{
    let others = &others[..cells.len()];
    for k in 0..cells.len() {
        cells[k] = cells[k] + others[k];
    }
}

/// Adds to each cell the other one in its place times the factor.
fn add_multiples(cells: &mut [F], others: &[F], factor: F)
    requires { length others.now ≡ length cells.old }
    ensures { (k : ℕ) → k < length cells.old → same (item cells.new k)
        (sum (item cells.old k) (product (item others.now k) factor)) }
{
    let others = &others[..cells.len()];
    for k in 0..cells.len() {
        cells[k] = cells[k] + others[k] * factor;
    }
}

/// Adds those of 2^lg rows whose places are 2^part apart, times powers of the step; the sums stand
/// in the first 2^part rows. At points whose power 2^part is the step, columns keep their values.
fn fold(cells: &mut [F], cols: usize, lg: u8, part: u8, step: F)
    requires part { part ≤ lg }
    requires domain { lg ≤ 32 }
    requires size { length cells.old ≡ 2 ^ lg * cols }
    ensures { AreFolded lg part cols step cells.old cells.new }
{
    let count = size_of(part) * cols;
    let mut left = size_of(lg - part);
    while left > 1 {
        left -= 1;
        let (front, behind) = cells.split_at_mut(left * count);
        add_multiples(&mut front[(left - 1) * count..], &behind[..count], step);
    }
}

/// Writes over the low half of 2^lg rows the sums of the coefficients of both halves, of which each
/// is interpolated by itself.
fn write_sums(alloc: Global, cells: &mut [F], cols: usize, lg: u8, inverses: &[F])
    requires some { 1 ≤ lg }
    requires domain { lg ≤ 32 }
    requires size { length cells.old ≡ 2 ^ lg * cols }
    requires tree { IsTreeOf goldilocks (λ l. inverse (root_of l)) (residue 1) lg inverses.now }
    ensures { AreSumsOf lg cols cells.old cells.new }
{
    let half = size_of(lg - 1) * cols;
    let (low, high) = cells.split_at_mut(half);
    let even = Points {
        roots: inverses,
        place: 2,
        lg: lg - 1,
    };
    interpolate(alloc, low, cols, &even);
    let odd = Points {
        roots: inverses,
        place: 3,
        lg: lg - 1,
    };
    interpolate(alloc, high, cols, &odd);
    add_cells(low, high);
}

/// The factor times 1 + c and times 1 - c, where c is the power.
fn both_factors(factor: F, power: F) -> (F, F)
    ensures first { same result.0 (sum factor (product factor power)) }
    ensures second { same result.1 (sum factor (negative (product factor power))) }
{
    let odd = factor * power;
    (factor + odd, factor - odd)
}

/// The factors of the values: V at the points of the domain divided by 2^lg, in the order of the
/// tree, and where 2^part is less than 2^lg, times 1 + c at those of even index and 1 - c at those
/// of odd index, c being the power 2^(lg - 1) of the shift.
fn write_factors(alloc: Global, cells: &mut [F], lg: u8, part: u8, step: F, roots: &[F]) -> Mem<()>
    requires some { 1 ≤ lg }
    requires part { part ≤ lg }
    requires domain { lg ≤ 32 }
    requires size { length cells.old ≡ 2 ^ lg }
    requires tree { IsTreeOf goldilocks root_of (residue 1) lg roots.now }
    ensures { OnOk result (AreFactors lg part step cells.old cells.new) }
{
    let points = Points {
        roots,
        place: 1,
        lg,
    };
    evaluate(alloc, cells, 1, &points);
    let factor = size_inverse::<F>(alloc, lg)?;
    if part == lg {
        multiply_rows(alloc, cells, size_of(lg), &[factor])?;
    } else {
        let power = square_times(step, lg - 1 - part);
        let factors = both_factors(factor, power);
        multiply_rows(alloc, cells, size_of(lg - 1), &[factors.0, factors.1])?;
    }
    Ok(())
}

/// The inverses of the values of V at 2^part points of the coset, divided by 2^part. The cells are
/// its coefficients, and some values in the end.
fn divided_inverses(
    alloc: Global,
    cells: &mut [F],
    points: &VanishingPoints,
    lg: u8,
    part: u8,
    step: F,
    roots: &[F],
) -> Mem<Vec<F>>
    requires some { 1 ≤ part }
    requires part { part ≤ lg }
    requires domain { lg ≤ 32 }
    requires points { length points.now ≡ 2 ^ lg }
    requires size { length cells.old ≡ 2 ^ lg }
    requires vanishes { VanishesAtFalse goldilocks (root_of lg) points.now
        (value_in_ring goldilocks cells.old) }
    requires step { same step (power (residue 1) product shift_of (2 ^ part)) }
    requires tree { IsTreeOf goldilocks root_of shift_of part roots.now }
    ensures count { IfOk result (λ v. length v.items ≡ 2 ^ part) }
    ensures inverses { IfOk result (λ v. AreDividedInverses part cells.old v.items) }
{
    fold(cells, 1, lg, part, step);
    let first = &mut cells[..size_of(part)];
    let coset = Points {
        roots,
        place: 1,
        lg: part,
    };
    evaluate(alloc, first, 1, &coset);
    let numerator = size_inverse::<F>(alloc, part)?;
    let inverses = quotients(alloc, numerator, first)?;
    Ok(inverses)
}

/// The division for columns of which these points are filled: some, and no more than 2^part of
/// 2^lg.
pub(crate) fn coset_division(
    alloc: Global,
    points: VanishingPoints,
    lg: u8,
    part: u8,
) -> Mem<CosetDivision>
    requires least { 1 ≤ part }
    requires part { part ≤ lg }
    requires domain { lg ≤ 32 }
    requires points { length points ≡ 2 ^ lg }
    requires some { 0 < count_true points }
    requires few { count_true points ≤ 2 ^ part }
    ensures division { IfOk result IsCosetDivision }
    ensures points { IfOk result (λ d. d.points ≡ points) }
    ensures sizes { IfOk result (λ d. (d.lg ≡ lg) × (d.part ≡ part)) }
{
    let roots = evaluation_table::<F>(alloc, lg)?;
    let domain = interpolation_table::<F>(alloc, lg)?;
    let mut factors = vanishing_coefficients(
        alloc,
        &points,
        lg,
        &roots,
        &domain,
        &mut Work::new(),
    )?;
    let shift = F::coset_shift(alloc)?;
    let step = square_times(shift, part);
    let coset = root_tree(alloc, &shift, part)?;
    let home = Field::inv(&shift, alloc)?;
    let coset_inverses = inverse_tree(alloc, &home, part)?;
    let mut divisors = copies(alloc, &factors)?;
    let inverses = divided_inverses(alloc, &mut divisors, &points, lg, part, step, &coset)?;
    write_factors(alloc, &mut factors, lg, part, step, &roots)?;
    Ok(CosetDivision {
        lg,
        part,
        points,
        factors,
        domain,
        step,
        coset,
        coset_inverses,
        inverses,
    })
}

/// Turns 2^lg rows of values times factors, in the order of the tree of the domain, into
/// coefficients, which stand in the first 2^part rows. Takes no memory.
pub(crate) fn divide(alloc: Global, cells: &mut [F], cols: usize, division: &CosetDivision)
    requires tables { HasTables division.now }
    requires size { length cells.old ≡ 2 ^ division.now.lg * cols }
    ensures { IsCosetDivision division.now
        → DoColumnsFit division.now cols cells.old cells.new }
{
    let lg = division.lg;
    let part = division.part;
    if part == lg {
        let domain = Points {
            roots: &division.domain,
            place: 1,
            lg,
        };
        interpolate(alloc, cells, cols, &domain);
    } else {
        write_sums(alloc, cells, cols, lg, &division.domain);
        let sums = &mut cells[..size_of(lg - 1) * cols];
        fold(sums, cols, lg - 1, part, division.step);
    }
    let first = &mut cells[..size_of(part) * cols];
    let coset = Points {
        roots: &division.coset,
        place: 1,
        lg: part,
    };
    evaluate(alloc, first, cols, &coset);
    let Ok(()) = multiply_rows(alloc, first, cols, &division.inverses) else {
        unreachable!()
    };
    let inverses = Points {
        roots: &division.coset_inverses,
        place: 1,
        lg: part,
    };
    interpolate(alloc, first, cols, &inverses);
}
