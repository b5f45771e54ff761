//! Rows of values of distinct indices to coefficients, by transforms.
//!
//! The cells are put into a domain of 2^lg rows, each into the row of its index, and `divide` turns
//! them into coefficients. Each column is restored by itself, whatever the others are. So the
//! columns are taken strip by strip, each in the same room: a strip stays in a cache near the
//! processor through all levels of its transforms, and beside the cells there is but one strip.
//!
//! What is the same for all strips is made once, and takes all memory: from then on nothing is
//! refused.

ghost use Rattle.std.specs.Prelude.{◌≡◌, ◌+◌, ◌*◌, ◌<◌, ◌≤◌, ◌^◌, ℕ, All, length, slice_index};
ghost use Rattle.std.specs.Prelude.{IfOk, OnErr, OnOk};
ghost use Rattle.math_theory.specs.Recovery.{count_true};
ghost use Rattle.math_fields.specs.declared.goldilocks.F.{F};
ghost use Rattle.math_fields.specs.Elements.{product, same};
ghost use Rattle.math_restoring.specs.CosetDivisions.{HasTables, IsCosetDivision};
ghost use Rattle.math_restoring.specs.Restored.{AreDistinct, AreFilled, ArePlacesOf};
ghost use Rattle.math_restoring.specs.Restored.{AreTaken, HaveCellsAsValues, item};

use crate::dividing::{CosetDivision, coset_division, divide};
use math_base::algebra::Mem;
use math_fields::goldilocks::F;
use math_transforms::transform::order::reverse_bits;
use math_transforms::transform::size_of;
use math_transforms::vanishing_points::VanishingPoints;
use math_values::strips::{most_cols, strip_room};
use std::alloc::Global;

/// How many cells a strip has at most, where eight columns have no more: 128 KiB.
const STRIP_CELLS: usize = 16384;

/// The 2^lg points of a domain, of which those of the indices are filled.
fn points_of(alloc: Global, indices: &[u32], lg: u8) -> Mem<VanishingPoints>
    requires small { lg < 64 }
    requires below { All (λ i. i < 2 ^ lg) indices.now }
    requires distinct { AreDistinct indices.now }
    ensures filled { IfOk result (λ p. (length p ≡ 2 ^ lg) × AreFilled indices.now p) }
    ensures count { IfOk result (λ points. count_true points ≡ length indices.now) }
{
    let mut points = VanishingPoints::new(alloc, lg as u32)?;
    for t in 0..indices.len() {
        points.set_non_vanishing(indices[t] as u64);
    }
    Ok(points)
}

/// The places of the indices in the order of the tree.
fn places_of(alloc: Global, indices: &[u32], lg: u8) -> Mem<Vec<usize>>
    requires small { lg < 64 }
    requires below { All (λ i. i < 2 ^ lg) indices.now }
    ensures { IfOk result (λ v. ArePlacesOf lg indices.now v.items) }
{
    let mut places = Vec::with_capacity(alloc, indices.len())?;
    for t in 0..indices.len() {
        places.push(reverse_bits(indices[t] as usize, lg))?;
    }
    Ok(places)
}

/// Writes over the room the cells times the factor.
fn write_products(cells: &[F], factor: F, room: &mut [F])
    requires { length cells.now ≡ length room.old }
    ensures { (k : ℕ) → k < length room.old
        → same (item room.new k) (product (item cells.now k) factor) }
{
    let cells = &cells[..room.len()];
    for k in 0..room.len() {
        room[k] = cells[k] * factor;
    }
}

/// Writes the first rows of the room over `cols` cells of each row, from column `from` on.
fn take_rows(cells: &mut [F], width: usize, from: usize, cols: usize, count: usize, room: &[F])
    requires room { count * cols ≤ length room.now }
    requires within { from + cols ≤ width }
    requires size { length cells.old ≡ count * width }
    ensures { AreTaken width from cols count room.now cells.old cells.new }
{
    for r in 0..count {
        let at = r * width + from;
        let place = r * cols;
        cells[at..at + cols].copy_from_slice(&room[place..place + cols]);
    }
}

/// What turns columns of values at distinct indices, the same ones for all columns, into
/// coefficients. An index stands for this power of the root of order 2^lg.
///
/// It works in a room of 2^lg rows, in which each index has a place and a factor: whoever has its
/// cells writes them there, times the factor, and zeros over all other rows.
#[derive(Drop)]
pub struct Restorer {
    alloc: Global,
    indices: Vec<u32>,
    places: Vec<usize>,
    division: CosetDivision,
    ghost tables: { HasTables division },
    ghost divides: { ∥ IsCosetDivision division ∥₁ },
    ghost below: { All (λ i. i < 2 ^ division.lg) indices.items },
    ghost distinct: { AreDistinct indices.items },
    ghost are_places: { ArePlacesOf division.lg indices.items places.items },
    ghost filled: { AreFilled indices.items division.points },
    ghost count: { count_true division.points ≡ length indices.items },
}

impl Restorer {
    ghost use Rattle.math_restoring.specs.Restorers.{ArePlacedBy, AreRestoredBy, factors_of};
    ghost use Rattle.math_restoring.specs.Restorers.{indices_of, lg_of, part_of, places_of};

    /// Makes what restores columns of values at the indices. These are distinct and below 2^lg, one
    /// at least, and no more than 2^part of them.
    ///
    /// Takes memory for a few tables of 2^lg elements; nothing that it does afterwards takes any.
    pub fn new(alloc: Global, indices: &[u32], lg: u8, part: u8) -> Mem<Restorer>
        requires some { 1 ≤ length indices.now }
        requires few { length indices.now ≤ 2 ^ part }
        requires least { 1 ≤ part }
        requires part { part ≤ lg }
        requires domain { lg ≤ 32 }
        requires below { All (λ i. i < 2 ^ lg) indices.now }
        requires distinct { AreDistinct indices.now }
        ensures indices { IfOk result (λ r. indices_of r ≡ indices.now) }
        ensures sizes { IfOk result (λ r. (lg_of r ≡ lg) × (part_of r ≡ part)) }
    {
        let points = points_of(alloc, indices, lg)?;
        let places = places_of(alloc, indices, lg)?;
        let division = coset_division(alloc, points, lg, part)?;
        let indices = Vec::from_slice(alloc, indices)?;
        Ok(Restorer {
            alloc,
            indices,
            places,
            division,
        })
    }

    /// Returns the row of the room in which the cells of index number t have their place.
    pub fn place(&self, t: usize) -> usize
        requires { t < length (indices_of self.now) }
        ensures place { result ≡ slice_index (places_of self.now) t }
        ensures inside { result < 2 ^ lg_of self.now }
    {
        self.places[t]
    }

    /// Returns the factor of the cells of index number t.
    pub fn factor(&self, t: usize) -> F
        requires { t < length (indices_of self.now) }
        ensures { result ≡ item (factors_of self.now) (slice_index (places_of self.now) t) }
    {
        self.division.factors[self.places[t]]
    }

    /// Turns columns of cells, which stand times their factors in their places, into coefficients:
    /// those of a column stand in the first rows, as many as there are indices, and behind them
    /// are zeros up to row 2^part. Takes no memory.
    pub fn restore(&self, room: &mut [F], cols: usize)
        requires { length room.old ≡ 2 ^ lg_of self.now * cols }
        ensures { (cell : ℕ → ℕ → F) → ArePlacedBy self.now cols cell room.old
            → AreRestoredBy self.now cols cell room.new }
    {
        divide(self.alloc, room, cols, &self.division);
    }

    /// Writes over the room zeros, and `cols` cells of each row, from column `from` on, times the
    /// factor of its place, over the row at its place.
    fn place_rows(&self, cells: &[F], width: usize, from: usize, cols: usize, room: &mut [F])
        requires size { length cells.now ≡ length (indices_of self.now) * width }
        requires within { from + cols ≤ width }
        requires room { length room.old ≡ 2 ^ lg_of self.now * cols }
        ensures { ArePlacedBy self.now cols (λ t k. item cells.now (t * width + from + k))
            room.new }
    {
        room.fill(F::from(0));
        for t in 0..self.indices.len() {
            let at = t * width + from;
            let place = self.place(t) * cols;
            let row = &mut room[place..place + cols];
            write_products(&cells[at..at + cols], self.factor(t), row);
        }
    }

    /// Writes the coefficients of all columns over their cells, strip by strip of at most so many
    /// columns, each in the same room.
    fn restore_strips(&self, cells: &mut [F], width: usize, most: usize, room: &mut [F])
        requires size { length cells.old ≡ length (indices_of self.now) * width }
        requires most { 1 ≤ most }
        requires room { length room.old ≡ 2 ^ lg_of self.now * most }
        ensures { HaveCellsAsValues (lg_of self.now) (indices_of self.now) width
            cells.old cells.new }
    {
        let mut from = 0;
        while from < width {
            let cols = most.min(width - from);
            let strip = &mut room[..size_of(self.division.lg) * cols];
            self.place_rows(cells, width, from, cols, strip);
            self.restore(strip, cols);
            take_rows(cells, width, from, cols, self.indices.len(), strip);
            from += cols;
        }
    }
}

/// Writes the coefficients of all columns over their cells, by transforms: row t of the cells has
/// the values at power t of the indices of the root of order 2^lg, and there are no more than
/// 2^part indices.
///
/// Takes memory for a few tables of 2^lg elements, and for one strip. If that is refused, it writes
/// nothing.
pub fn put_restored(
    alloc: Global,
    indices: &[u32],
    cells: &mut [F],
    width: usize,
    lg: u8,
    part: u8,
) -> Mem<()>
    requires some { 1 ≤ length indices.now }
    requires few { length indices.now ≤ 2 ^ part }
    requires part { part ≤ lg }
    requires domain { lg ≤ 32 }
    requires below { All (λ i. i < 2 ^ lg) indices.now }
    requires distinct { AreDistinct indices.now }
    requires size { length cells.old ≡ length indices.now * width }
    ensures ok { OnOk result (HaveCellsAsValues lg indices.now width cells.old cells.new) }
    ensures err { OnErr result (cells.new ≡ cells.old) }
{
    if width == 0 || part == 0 {
        return Ok(());
    }
    let restorer = Restorer::new(alloc, indices, lg, part)?;
    let most = most_cols(STRIP_CELLS, lg, width);
    let mut room = strip_room(alloc, size_of(lg), most)?;
    restorer.restore_strips(cells, width, most, &mut room);
    Ok(())
}
