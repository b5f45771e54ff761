//! Rows of the targets by transforms, strip by strip.
//!
//! A column of the rows in hand has the values, at their indices, of one polynomial of no more
//! coefficients than there are rows. These are restored from it (`math_restoring`), and a transform
//! gives the values at all points of the domain; those at the targets are taken. So a column takes
//! some products for each point and level of the domain, however many targets there are.

ghost use Rattle.std.specs.Prelude.{◌≡◌, ◌+◌, ◌*◌, ◌<◌, ◌≤◌, ◌^◌, ℕ, All, IfOk};
ghost use Rattle.std.specs.Prelude.{length, slice_index};
ghost use Rattle.math_theory.specs.BitReversal.{bit_reversed};
ghost use Rattle.math_fields.specs.Elements.{product, residue, root_of, same, goldilocks};
ghost use Rattle.math_transforms.specs.RootTrees.{IsTreeOf};
ghost use Rattle.math_restoring.specs.Restored.{item};
ghost use Rattle.math_restoring.specs.Restorers.{ArePlacedBy, indices_of, lg_of, part_of};
ghost use Rattle.math_transforms.specs.RootWeights.{AreRising};
ghost use Rattle.row_interpolation.specs.RowValues.{AreStripColumns};

use crate::points::lg_above;
use crate::rows::ElementRows;
use math_base::algebra::Mem;
use math_fields::goldilocks::F;
use math_restoring::restoring::Restorer;
use math_transforms::transform::order::reversed_row;
use math_transforms::transform::{evaluate_few, evaluation_table, size_of};
use math_transforms::work::Work;
use std::alloc::Global;

/// Writes over the cells the elements of row t, from column `from` on, times the factor.
fn write_products<R: ElementRows>(rows: &R, t: usize, from: usize, factor: F, cells: &mut [F])
    requires there { t < R.count rows.now }
    requires columns { AreStripColumns from (length cells.old) }
    ensures { (k : ℕ) → k < length cells.old
        → same (item cells.new k) (product (R.element rows.now t (from + k)) factor) }
{
    rows.read_row(t, from, cells);
    for k in 0..cells.len() {
        cells[k] = cells[k] * factor;
    }
}

/// Writes over `out` the rows of the strip that have the values at the targets.
pub(crate) fn take_rows(strip: &[F], lg: u8, targets: &[u32], cols: usize, out: &mut [F])
    requires small { lg ≤ 32 }
    requires below { All (λ i. i < 2 ^ lg) targets.now }
    requires strip { length strip.now ≡ 2 ^ lg * cols }
    requires out { length out.old ≡ length targets.now * cols }
    ensures { (j k : ℕ) → j < length targets.now → k < cols → item out.new (j * cols + k)
        ≡ item strip.now (bit_reversed lg (slice_index targets.now j) * cols + k) }
{
    for j in 0..targets.len() {
        let row = reversed_row(strip, cols, lg, targets[j] as usize);
        let at = j * cols;
        out[at..at + cols].copy_from_slice(row);
    }
}

/// What evaluates, at all points of a domain, the polynomials through columns of rows in hand.
///
/// It takes all memory when it is made, but for the strip that it works in.
#[derive(Drop)]
pub(crate) struct Transforms {
    alloc: Global,
    /// The domain has 2^lg points.
    pub(crate) lg: u8,
    /// Polynomials have at most 2^part coefficients.
    part: u8,
    /// How many rows there are in hand.
    count: usize,
    restorer: Restorer,
    table: Vec<F>,
    ghost domain: { lg ≤ 32 },
    ghost within: { part ≤ lg },
    ghost rows_in_room: { lg_of restorer ≡ lg },
    ghost rows_of_coefficients: { part_of restorer ≡ part },
    ghost as_many: { count ≡ length (indices_of restorer) },
    ghost is_tree: { IsTreeOf goldilocks root_of (residue 1) lg table.items },
}

impl Transforms {
    ghost use Rattle.row_interpolation.specs.Transforms.{AreTransformsFor, AreValuesThrough};

    /// Makes what evaluates columns of rows of the indices. It takes memory for a few tables of N
    /// elements, where N is `total` rounded up to a power of two.
    pub(crate) fn new(alloc: Global, indices: &[u32], total: u32) -> Mem<Transforms>
        requires many { 2 ≤ length indices.now }
        requires rising { AreRising total indices.now }
        ensures { IfOk result (AreTransformsFor total indices.now) }
    {
        let lg = lg_above(total);
        let part = lg_above(indices.len() as u32);
        let restorer = Restorer::new(alloc, indices, lg, part)?;
        let table = evaluation_table::<F>(alloc, lg)?;
        Ok(Transforms {
            alloc,
            lg,
            part,
            count: indices.len(),
            restorer,
            table,
        })
    }

    /// Writes over the strip zeros, and the elements of each row in `cols` columns, from column
    /// `from` on, times the factor of its place, over the row at its place.
    fn place_rows<R: ElementRows>(&self, rows: &R, from: usize, cols: usize, strip: &mut [F])
        requires rows { self.now.count ≤ R.count rows.now }
        requires columns { AreStripColumns from cols }
        requires strip { length strip.old ≡ 2 ^ self.now.lg * cols }
        ensures { ArePlacedBy self.now.restorer cols (λ t k. R.element rows.now t (from + k))
            strip.new }
    {
        strip.fill(F::from(0));
        for t in 0..self.count {
            let at = self.restorer.place(t) * cols;
            let factor = self.restorer.factor(t);
            write_products(rows, t, from, factor, &mut strip[at..at + cols]);
        }
    }

    /// Writes over the strip the values at all points of `cols` columns, from column `from` on, in
    /// the order of the tree. Takes no memory.
    pub(crate) fn evaluate<R: ElementRows>(
        &self,
        rows: &R,
        from: usize,
        cols: usize,
        strip: &mut [F],
    )
        requires rows { self.now.count ≤ R.count rows.now }
        requires columns { AreStripColumns from cols }
        requires strip { length strip.old ≡ 2 ^ self.now.lg * cols }
        ensures { AreValuesThrough (R.element rows.now) self.now from cols strip.new }
    {
        let table = &self.table;
        let mut work = Work::new();
        self.place_rows(rows, from, cols, strip);
        self.restorer.restore(strip, cols);
        let Ok(()) = evaluate_few(
            self.alloc, strip, cols, self.lg, self.part, table, &mut work,
        ) else {
            unreachable!()
        };
    }
}
