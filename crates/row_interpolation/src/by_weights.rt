//! Rows of the targets by weights, for some columns at a time.
//!
//! Each element that is made is the sum of the products of a column and the weights of its target.
//! The columns are gathered once for all targets, the elements of each one behind the other. Where
//! sums in several columns are taken at once, the rows are read in their place.

ghost use Rattle.std.specs.Prelude.{◌≡◌, ◌+◌, ◌*◌, ◌%◌, ◌<◌, ◌≤◌, ◌^◌, ℕ, IfOk, List, length};
ghost use Rattle.math_theory.specs.Sums.{weighted_sum};
ghost use Rattle.math_fields.specs.Elements.{product, residue, sum};
ghost use Rattle.math_restoring.specs.Restored.{item};
ghost use Rattle.row_interpolation.specs.RowValues.{AreStripColumns};
ghost use Rattle.row_interpolation.specs.Sums.{AreGathered, AreRead};
ghost use Rattle.row_interpolation.specs.Weights.{AreWanted, part_of};

use crate::rows::ElementRows;
use crate::weights::weight_rows;
use math_base::algebra::Mem;
use math_fields::goldilocks::F;
use math_values::columns::{sum_columns, sums_columns_at_once};
use math_values::sums::sum_of_products;
use std::alloc::Global;

/// How many elements a room has at most, unless one column has more: 32 KiB.
const ROOM: usize = 4096;

/// How many columns are made at a time, at most.
pub(crate) const MOST_COLS: usize = 64;

/// How many columns are made at a time, where a column and what is made of it have so many
/// elements.
pub(crate) fn cols_at_a_time(elements: usize) -> usize
    ensures few { result ≤ 64 }
    ensures some { 1 ≤ result }
{
    (ROOM / elements.max(1)).clamp(1, MOST_COLS)
}

/// Writes the elements of so many rows in `cols` columns, from column `from` on, column after
/// column.
pub(crate) fn gather_columns<R: ElementRows>(
    rows: &R,
    count: usize,
    from: usize,
    cols: usize,
    columns: &mut [F],
)
    requires count { count ≤ R.count rows.now }
    requires columns { AreStripColumns from cols }
    requires room { count * cols ≤ length columns.old }
    ensures { AreGathered (R.element rows.now) count from cols count columns.new }
{
    for t in 0..count {
        rows.gather_row(t, from, cols, count, columns);
    }
}

/// Writes the elements of so many rows in `cols` columns, from column `from` on, row after row.
pub(crate) fn read_rows<R: ElementRows>(
    rows: &R,
    count: usize,
    from: usize,
    cols: usize,
    strip: &mut [F],
)
    requires count { count ≤ R.count rows.now }
    requires columns { AreStripColumns from cols }
    requires room { count * cols ≤ length strip.old }
    ensures { AreRead (R.element rows.now) from cols count strip.new }
{
    for t in 0..count {
        rows.read_row(t, from, &mut strip[t * cols..(t + 1) * cols]);
    }
}

/// Writes over each item the sum of the items of a column, each times its weight.
pub(crate) fn write_sums_of(columns: &[F], weights: &[F], out: &mut [F])
    requires { length out.old * length weights.now ≤ length columns.now }
    ensures { (c : ℕ) → c < length out.old → item out.new c ≡ weighted_sum (residue 0) sum product
        (part_of (length weights.now) columns.now c) weights.now }
{
    let n = weights.len();
    for c in 0..out.len() {
        out[c] = sum_of_products(&columns[c * n..(c + 1) * n], weights);
    }
}

/// Rows of weights, one for each target.
#[derive(Drop)]
pub(crate) struct WeightRows {
    /// How many weights a row has: one for each row in hand.
    pub(crate) count: usize,
    /// How many targets there are.
    targets: usize,
    /// The weights, row after row.
    weights: Vec<F>,
    ghost size: { length weights.items ≡ targets * count },
}

impl WeightRows {
    ghost use Rattle.row_interpolation.specs.RowValues.{AreMade};
    ghost use Rattle.row_interpolation.specs.Sums.{AreRowSums, AreSums};
    ghost use Rattle.row_interpolation.specs.WeightRows.{AreRowsFor};

    /// The weights by which rows of the indices give those of the targets.
    pub(crate) fn new(
        alloc: Global,
        total: u32,
        indices: &[u32],
        targets: &[u32],
    ) -> Mem<WeightRows>
        requires { AreWanted total indices.now targets.now }
        ensures { IfOk result (AreRowsFor total indices.now targets.now) }
    {
        let weights = weight_rows(alloc, total, indices, targets)?;
        Ok(WeightRows {
            count: indices.len(),
            targets: targets.len(),
            weights,
        })
    }

    /// The weights of target j.
    fn row(&self, j: usize) -> &[F]
        requires { j < self.now.targets }
        ensures row { result.now ≡ part_of self.now.count self.now.weights.items j }
        ensures count { length result.now ≡ self.now.count }
    {
        let at = j * self.count;
        &self.weights[at..at + self.count]
    }

    /// Writes the sums of the items of each of `cols` columns, each times its weight, target after
    /// target.
    fn write_sums(&self, columns: &[F], cols: usize, out: &mut [F])
        requires columns { cols * self.now.count ≤ length columns.now }
        requires room { length out.old ≡ self.now.targets * cols }
        ensures { AreSums self.now.count cols columns.now self.now.weights.items self.now.targets
            out.new }
    {
        for j in 0..self.targets {
            let at = j * cols;
            write_sums_of(columns, self.row(j), &mut out[at..at + cols]);
        }
    }

    /// Writes the sums of the items in each of `cols` columns of the rows, each times the weight of
    /// its row, target after target.
    fn write_row_sums(&self, rows: &[F], cols: usize, out: &mut [F])
        requires few { self.now.count ≤ 2 ^ 24 }
        requires eights { cols % 8 ≡ 0 }
        requires rows { self.now.count * cols ≤ length rows.now }
        requires room { length out.old ≡ self.now.targets * cols }
        ensures { AreRowSums self.now.count cols rows.now self.now.weights.items self.now.targets
            out.new }
    {
        for j in 0..self.targets {
            let at = j * cols;
            sum_columns(rows, self.row(j), &mut out[at..at + cols]);
        }
    }

    /// Writes the elements of the targets in `cols` columns, from column `from` on, target after
    /// target. It works in the rest of the room.
    pub(crate) fn make<R: ElementRows>(
        &self,
        rows: &R,
        from: usize,
        cols: usize,
        rest: &mut [F],
        out: &mut [F],
    )
        requires rows { self.now.count ≤ R.count rows.now }
        requires columns { AreStripColumns from cols }
        requires rest { self.now.count * cols ≤ length rest.old }
        requires room { length out.old ≡ self.now.targets * cols }
        ensures { (total : ℕ) (indices targets : List ℕ) → AreRowsFor total indices targets self.now
            → AreMade (R.element rows.now) total indices targets from cols out.new }
    {
        if sums_columns_at_once(self.count, cols) {
            read_rows(rows, self.count, from, cols, rest);
            self.write_row_sums(rest, cols, out);
            return;
        }
        gather_columns(rows, self.count, from, cols, rest);
        self.write_sums(rest, cols, out);
    }
}
