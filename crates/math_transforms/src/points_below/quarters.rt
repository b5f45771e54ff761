//! Four rows of cells turned by two levels in one pass.
//!
//! Forward, let e^2 = g and f^2 = -g, where f is e times a root of order four. A polynomial
//! a + b x + c x^2 + d x^3 has at e and -e the values (a + c g) + (b + d g) e and
//! (a + c g) - (b + d g) e, and at f and -f the values (a - c g) + (b - d g) f and
//! (a - c g) - (b - d g) f. On the way back, with the inverses of these points, each step is undone
//! but for a factor of two: so four times the coefficients come.
//!
//! Four products are seen here, by g twice and by e and f. But (b + d g) e is b e + d (e g), and
//! (b - d g) f is b f - d (f g): with e g and f g at hand each is a sum of two products, which a
//! type may reduce at once.

ghost use Rattle.std.specs.Prelude.{
  ◌≡◌,
  ◌+◌,
  ◌*◌,
  ◌≤◌,
  ◌⊎◌,
  IsTrue,
  IsOk,
  OnOk,
  length,
  if◌then◌else◌,
};
ghost use Rattle.math_base.specs.Columns.{IsTurned};
ghost use Rattle.math_transforms.specs.Quarters.{AreProducts, AreTurned};

use crate::transform::butterflies::{combine, sum_and_difference};
use math_base::algebra::{Additive, Field, FieldNTT, Mem, Multiplicative, Object, Ring};
use std::alloc::Global;

/// The weights by which four rows are turned: g for the first level, e and f for the two halves of
/// the second one.
#[derive(Drop)]
pub(crate) struct Weights<'a, F> {
    pub(crate) e: &'a F,
    pub(crate) f: &'a F,
    pub(crate) g: &'a F,
}

/// Weights, and what is made of them once for all columns: e g and -f g.
#[derive(Drop)]
pub(crate) struct Products<'a, F> {
    pub(crate) e: &'a F,
    pub(crate) f: &'a F,
    pub(crate) g: &'a F,
    pub(crate) eg: &'a F,
    pub(crate) minus_fg: &'a F,
}

/// Turns four cells by four combinations, each with its weight.
fn turn_by_weights<F: FieldNTT, const FORWARD: bool>(
    alloc: Global,
    a: &mut F,
    b: &mut F,
    c: &mut F,
    d: &mut F,
    weights: &Weights<'_, F>,
) -> Mem<()>
    ensures turned { OnOk result (IsTurned F.Ring FORWARD
        weights.now.e.now weights.now.f.now weights.now.g.now
        a.old b.old c.old d.old a.new b.new c.new d.new) }
    ensures never { IsTrue F.NEVER_REFUSES → IsOk result }
{
    if FORWARD {
        combine::<F, true, false>(alloc, a, c, weights.g)?;
        combine::<F, true, false>(alloc, b, d, weights.g)?;
        combine::<F, true, false>(alloc, a, b, weights.e)?;
        combine::<F, true, false>(alloc, c, d, weights.f)?;
    } else {
        combine::<F, false, false>(alloc, a, b, weights.e)?;
        combine::<F, false, false>(alloc, c, d, weights.f)?;
        combine::<F, false, false>(alloc, a, c, weights.g)?;
        combine::<F, false, false>(alloc, b, d, weights.g)?;
    }
    Ok(())
}

/// Turns four cells by one product and two sums of two products.
fn turn_by_products<F: FieldNTT, const FORWARD: bool>(
    alloc: Global,
    a: &mut F,
    b: &mut F,
    c: &mut F,
    d: &mut F,
    products: &Products<'_, F>,
) -> Mem<()>
    requires products { AreProducts F.Ring products.now }
    ensures turned { OnOk result (IsTurned F.Ring FORWARD
        products.now.e.now products.now.f.now products.now.g.now
        a.old b.old c.old d.old a.new b.new c.new d.new) }
    ensures never { IsTrue F.NEVER_REFUSES → IsOk result }
{
    if FORWARD {
        combine::<F, true, false>(alloc, a, c, products.g)?;
        let first = F::sum_of_products(alloc, products.e, b, products.eg, d)?;
        let second = F::sum_of_products(alloc, products.f, b, products.minus_fg, d)?;
        *b = first;
        *d = second;
        sum_and_difference(alloc, a, b)?;
        sum_and_difference(alloc, c, d)?;
    } else {
        sum_and_difference(alloc, a, b)?;
        sum_and_difference(alloc, c, d)?;
        combine::<F, false, false>(alloc, a, c, products.g)?;
        let first = F::sum_of_products(alloc, products.e, b, products.f, d)?;
        let second = F::sum_of_products(alloc, products.eg, b, products.minus_fg, d)?;
        *b = first;
        *d = second;
    }
    Ok(())
}

/// Turns four cells where e and g are one: no product is taken but that by f, which is then a root
/// of order four.
fn turn_at_one<F: FieldNTT, const FORWARD: bool>(
    alloc: Global,
    a: &mut F,
    b: &mut F,
    c: &mut F,
    d: &mut F,
    f: &F,
) -> Mem<()>
    requires order { 2 ≤ F.MAX_LG_ROOT_ORDER }
    requires root { F.same f.now (F.root 2) ⊎ F.same f.now (F.inverse (F.root 2)) }
    ensures turned { OnOk result (IsTurned F.Ring FORWARD F.one f.now F.one
        a.old b.old c.old d.old a.new b.new c.new d.new) }
    ensures never { IsTrue F.NEVER_REFUSES → IsOk result }
{
    if FORWARD {
        sum_and_difference(alloc, a, c)?;
        sum_and_difference(alloc, b, d)?;
        d.times_root_of_four(alloc, f)?;
        sum_and_difference(alloc, a, b)?;
        sum_and_difference(alloc, c, d)?;
    } else {
        sum_and_difference(alloc, a, b)?;
        sum_and_difference(alloc, c, d)?;
        d.times_root_of_four(alloc, f)?;
        sum_and_difference(alloc, a, c)?;
        sum_and_difference(alloc, b, d)?;
    }
    Ok(())
}

/// Turns four rows of one cell. Products of the weights would take longer than they spare.
fn turn_cells<F: FieldNTT, const FORWARD: bool>(
    alloc: Global,
    rows: &mut [F],
    weights: &Weights<'_, F>,
) -> Mem<()>
    requires size { length rows.old ≡ 4 }
    ensures turned { OnOk result (AreTurned F.Ring FORWARD
        weights.now.e.now weights.now.f.now weights.now.g.now 1 rows.old rows.new) }
    ensures never { IsTrue F.NEVER_REFUSES → IsOk result }
{
    let mut a = rows[0].clone(alloc)?;
    let mut b = rows[1].clone(alloc)?;
    let mut c = rows[2].clone(alloc)?;
    let mut d = rows[3].clone(alloc)?;
    turn_by_weights::<F, FORWARD>(alloc, &mut a, &mut b, &mut c, &mut d, weights)?;
    rows[0] = a;
    rows[1] = b;
    rows[2] = c;
    rows[3] = d;
    Ok(())
}

/// Turns four rows of `cols` cells where e and g are one: the columns that the type takes at once,
/// and then the others, on copies as in `turn_columns`.
fn turn_columns_at_one<F: FieldNTT, const FORWARD: bool>(
    alloc: Global,
    rows: &mut [F],
    cols: usize,
    weights: &Weights<'_, F>,
) -> Mem<()>
    requires order { 2 ≤ F.MAX_LG_ROOT_ORDER }
    requires odd { F.same weights.now.f.now
        (F.product weights.now.e.now (if FORWARD then F.root 2 else F.inverse (F.root 2))) }
    requires below { F.same weights.now.e.now F.one }
    requires here { F.same weights.now.g.now F.one }
    requires size { length rows.old ≡ 4 * cols }
    ensures turned { OnOk result (AreTurned F.Ring FORWARD
        weights.now.e.now weights.now.f.now weights.now.g.now cols rows.old rows.new) }
    ensures never { IsTrue F.NEVER_REFUSES → IsOk result }
{
    let (e, f, g) = (weights.e, weights.f, weights.g);
    let done = F::turn_first_columns(alloc, rows, cols, e, f, g, FORWARD)?;
    for p in done..cols {
        let second = cols + p;
        let third = 2 * cols + p;
        let fourth = 3 * cols + p;
        let mut a = rows[p].clone(alloc)?;
        let mut b = rows[second].clone(alloc)?;
        let mut c = rows[third].clone(alloc)?;
        let mut d = rows[fourth].clone(alloc)?;
        turn_at_one::<F, FORWARD>(alloc, &mut a, &mut b, &mut c, &mut d, f)?;
        rows[p] = a;
        rows[second] = b;
        rows[third] = c;
        rows[fourth] = d;
    }
    Ok(())
}

/// Turns four rows of `cols` cells: the columns that the type takes at once, and then the others by
/// products of the weights.
///
/// The cells are copied and put in their places at the end. A compiler that cannot tell whether the
/// rows lie apart reads each cell anew after a write to another; a copy it holds in a register.
fn turn_columns<F: FieldNTT, const FORWARD: bool>(
    alloc: Global,
    rows: &mut [F],
    cols: usize,
    weights: &Weights<'_, F>,
) -> Mem<()>
    requires order { 2 ≤ F.MAX_LG_ROOT_ORDER }
    requires odd { F.same weights.now.f.now
        (F.product weights.now.e.now (if FORWARD then F.root 2 else F.inverse (F.root 2))) }
    requires size { length rows.old ≡ 4 * cols }
    ensures turned { OnOk result (AreTurned F.Ring FORWARD
        weights.now.e.now weights.now.f.now weights.now.g.now cols rows.old rows.new) }
    ensures never { IsTrue F.NEVER_REFUSES → IsOk result }
{
    let (e, f, g) = (weights.e, weights.f, weights.g);
    let done = F::turn_first_columns(alloc, rows, cols, e, f, g, FORWARD)?;
    if done == cols {
        return Ok(());
    }
    let mut eg = weights.e.clone(alloc)?;
    eg.mul_assign(alloc, weights.g)?;
    let mut fg = weights.f.clone(alloc)?;
    fg.mul_assign(alloc, weights.g)?;
    let minus_fg = fg.neg(alloc)?;
    let products = Products {
        e: weights.e,
        f: weights.f,
        g: weights.g,
        eg: &eg,
        minus_fg: &minus_fg,
    };
    for p in done..cols {
        let second = cols + p;
        let third = 2 * cols + p;
        let fourth = 3 * cols + p;
        let mut a = rows[p].clone(alloc)?;
        let mut b = rows[second].clone(alloc)?;
        let mut c = rows[third].clone(alloc)?;
        let mut d = rows[fourth].clone(alloc)?;
        turn_by_products::<F, FORWARD>(alloc, &mut a, &mut b, &mut c, &mut d, &products)?;
        rows[p] = a;
        rows[second] = b;
        rows[third] = c;
        rows[fourth] = d;
    }
    Ok(())
}

/// Turns four rows of `cols` cells, which follow one another, by two levels at once: f is e times a
/// root of order four, or on the way back times its inverse. Where e and g are one, no product is
/// taken but that by f.
pub(crate) fn turn_rows<F: FieldNTT, const FORWARD: bool>(
    alloc: Global,
    rows: &mut [F],
    cols: usize,
    weights: &Weights<'_, F>,
) -> Mem<()>
    requires order { 2 ≤ F.MAX_LG_ROOT_ORDER }
    requires odd { F.same weights.now.f.now
        (F.product weights.now.e.now (if FORWARD then F.root 2 else F.inverse (F.root 2))) }
    requires size { length rows.old ≡ 4 * cols }
    ensures turned { OnOk result (AreTurned F.Ring FORWARD
        weights.now.e.now weights.now.f.now weights.now.g.now cols rows.old rows.new) }
    ensures never { IsTrue F.NEVER_REFUSES → IsOk result }
{
    if cols == 1 {
        turn_cells::<F, FORWARD>(alloc, rows, weights)?;
        return Ok(());
    }
    let one = F::one(alloc)?;
    let below = weights.e.equals(alloc, &one)?;
    if below {
        let here = weights.g.equals(alloc, &one)?;
        if here {
            turn_columns_at_one::<F, FORWARD>(alloc, rows, cols, weights)?;
            return Ok(());
        }
    }
    turn_columns::<F, FORWARD>(alloc, rows, cols, weights)?;
    Ok(())
}
