//! Sixteen cells of one column, turned by four levels.
//!
//! The cells are four rows of four. Two levels turn these rows: all four columns at once, by the
//! same weights. The other two turn each row as a column of four cells, by weights of its own: lane
//! k has row k.

ghost use Rattle.std.specs.Prelude.{◌≡◌, ℕ, ◌<◌, ◌≤◌, ◌+◌, ◌*◌, length, if◌then◌else◌};
ghost use Rattle.math_fields.specs.Elements.{goldilocks, inverse, root_of};
ghost use Rattle.math_base.specs.Columns.{
  AreOddEntries,
  AreSixteenTurned,
  IsOddEntry,
  IsTurnedByTree,
};

use super::F;
use super::columns::turn_lanes;
use super::lanes::{
    load_four, load_fourths, load_seconds, splat, store_four, store_fourths, times,
};
use std::simd::prelude::*;

/// Turns the four rows by the entry at the place and those below it.
#[inline(always)]
fn turn_all<const FORWARD: bool>(cells: &mut [F], roots: &[F], place: usize)
    requires size { length cells.old ≡ 16 }
    requires inside { 2 * place + 2 ≤ length roots.now }
    requires odd { IsOddEntry goldilocks
        (if FORWARD then root_of 2 else inverse (root_of 2)) roots.now place }
    ensures { (k : ℕ) → k < 4
        → IsTurnedByTree goldilocks FORWARD roots.now place 4 k cells.old cells.new }
{
    let below = 2 * place;
    let low = roots[below];
    let high = roots[place];
    let both = low * high;
    let e: u64x4 = splat(low);
    let g: u64x4 = splat(high);
    let eg: u64x4 = splat(both);
    let mut a = load_four(cells, 0);
    let mut b = load_four(cells, 4);
    let mut c = load_four(cells, 8);
    let mut d = load_four(cells, 12);
    turn_lanes::<4, FORWARD, false>(&mut a, &mut b, &mut c, &mut d, e, g, eg);
    store_four(a, cells, 0);
    store_four(b, cells, 4);
    store_four(c, cells, 8);
    store_four(d, cells, 12);
}

/// Turns row k by the entry at place + k and those below it.
#[inline(always)]
fn turn_each<const FORWARD: bool>(cells: &mut [F], roots: &[F], place: usize)
    requires size { length cells.old ≡ 16 }
    requires inside { 2 * place + 8 ≤ length roots.now }
    requires odd { (k : ℕ) → k < 4 → IsOddEntry goldilocks
        (if FORWARD then root_of 2 else inverse (root_of 2)) roots.now (place + k) }
    ensures { (k : ℕ) → k < 4
        → IsTurnedByTree goldilocks FORWARD roots.now (place + k) 1 (4 * k) cells.old cells.new }
{
    let e = load_seconds(roots, 2 * place);
    let g = load_four(roots, place);
    let eg = times(e, g);
    let mut a = load_fourths(cells, 0);
    let mut b = load_fourths(cells, 1);
    let mut c = load_fourths(cells, 2);
    let mut d = load_fourths(cells, 3);
    turn_lanes::<4, FORWARD, false>(&mut a, &mut b, &mut c, &mut d, e, g, eg);
    store_fourths(a, cells, 0);
    store_fourths(b, cells, 1);
    store_fourths(c, cells, 2);
    store_fourths(d, cells, 3);
}

/// Turns the cells by the entry at the place and those of four levels from there on.
pub(super) fn turn_sixteen<const FORWARD: bool>(cells: &mut [F], roots: &[F], place: usize)
    requires odd { AreOddEntries goldilocks
        (if FORWARD then root_of 2 else inverse (root_of 2)) roots.now }
    requires size { length cells.old ≡ 16 }
    requires some { 1 ≤ place }
    requires inside { 8 * place + 8 ≤ length roots.now }
    ensures { AreSixteenTurned goldilocks FORWARD roots.now place 1 cells.old cells.new }
{
    if FORWARD {
        turn_all::<FORWARD>(cells, roots, place);
        turn_each::<FORWARD>(cells, roots, 4 * place);
    } else {
        turn_each::<FORWARD>(cells, roots, 4 * place);
        turn_all::<FORWARD>(cells, roots, place);
    }
}
