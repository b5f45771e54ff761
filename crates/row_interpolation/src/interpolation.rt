//! Rows of the targets, some columns at a time: by weights, or by transforms.
//!
//! By weights each element takes as many products as there are rows in hand. By transforms a column
//! takes some products for each point and level of the domain, however many targets there are.

ghost use Rattle.std.specs.Prelude.{◌≡◌, ◌+◌, ◌<◌, ◌≤◌, ◌^◌, All, Contains, IfOk, length};
ghost use Rattle.math_transforms.specs.RootWeights.{AreRising};
ghost use Rattle.row_interpolation.specs.Interpolations.{IsWayFor, height_of};
ghost use Rattle.row_interpolation.specs.RowValues.{AreMade};

use crate::by_transforms::{Transforms, take_rows};
use crate::by_weights::{MOST_COLS, WeightRows, cols_at_a_time};
use crate::points::lg_above;
use crate::rows::ElementRows;
use math_base::algebra::Mem;
use math_fields::goldilocks::F;
use math_transforms::transform::size_of;
use math_values::strips::{most_cols, strip_room};
use std::alloc::{AllocError, Global};

/// How many products take as long as what an element takes besides its own.
const BESIDE: usize = 18;

/// How many cells a strip has at most, where eight columns have no more: 128 KiB.
const STRIP_CELLS: usize = 16384;

/// How rows of the targets are made.
#[derive(Drop)]
enum Way {
    /// By these weights.
    ByWeights(WeightRows),
    /// By transforms.
    ByTransforms(Transforms),
}

impl Way {
    ghost use Rattle.row_interpolation.specs.Interpolations.{IsWayFor, height_of};
    ghost use Rattle.row_interpolation.specs.Weights.{AreWanted};

    /// Chooses the way that takes less time, and takes its memory.
    fn new(alloc: Global, total: u32, indices: &[u32], targets: &[u32]) -> Mem<Way>
        requires some { 1 ≤ length indices.now }
        requires wanted { AreWanted total indices.now targets.now }
        ensures { IfOk result (IsWayFor total indices.now targets.now) }
    {
        let count = indices.len();
        if count < 2 || are_weights_cheaper(total, count as u32, targets.len()) {
            let weights = WeightRows::new(alloc, total, indices, targets)?;
            return Ok(Way::ByWeights(weights));
        }
        let transforms = Transforms::new(alloc, indices, total)?;
        Ok(Way::ByTransforms(transforms))
    }

    /// How many elements a column takes in the room, besides those that are made.
    fn height(&self) -> usize
        ensures { result ≡ height_of self.now }
    {
        match self {
            Way::ByWeights(weights) => weights.count,
            Way::ByTransforms(transforms) => size_of(transforms.lg),
        }
    }

    /// How many columns of rows of this width are made at a time for so many targets.
    fn cols(&self, targets: usize, width: usize) -> usize
        ensures few { result ≤ 64 }
        ensures some { 1 ≤ result }
    {
        match self {
            Way::ByWeights(weights) => cols_at_a_time(weights.count.saturating_add(targets)),
            Way::ByTransforms(transforms) => {
                most_cols(STRIP_CELLS, transforms.lg, width).min(MOST_COLS)
            }
        }
    }
}

/// What makes rows of the targets from rows of the indices.
///
/// It makes them in a room, in which a column takes `height` elements besides those that are made.
#[derive(Drop)]
pub struct Interpolation {
    /// How many rows there are of all indices.
    pub total: u32,
    /// The indices of the rows in hand.
    pub indices: Vec<u32>,
    /// The indices of the rows that are made.
    pub targets: Vec<u32>,
    /// How many columns are made at a time, at most.
    pub cols: usize,
    /// How many elements a column takes in the room, besides those that are made.
    pub height: usize,
    way: Way,
    ghost rising: { AreRising total indices.items },
    ghost below: { All (λ i. i < total) targets.items },
    ghost few: { cols ≤ 64 },
    ghost some: { 1 ≤ cols },
    ghost high: { height ≡ height_of way },
    ghost of_way: { ∥ IsWayFor total indices.items targets.items way ∥₁ },
}

/// Whether weights take less time, where so many rows are in hand and so many are made: a pair of
/// cells that a transform combines takes as long as four products.
fn are_weights_cheaper(total: u32, count: u32, targets: usize) -> bool
    requires some { 1 ≤ count }
    requires within { count ≤ total }
{
    let lg = lg_above(total);
    let part = lg_above(count);
    let pairs = (size_of(lg) / 2 * (lg + part) as usize).saturating_add(
        size_of(part) * part as usize,
    );
    targets.saturating_mul(count as usize + BESIDE) <= pairs.saturating_mul(4)
}

impl Interpolation {
    ghost use Rattle.row_interpolation.specs.Rooms.{IsRoomFor};

    /// Chooses the way, and takes all memory but for the room. The rows have so many columns. The
    /// indices rise, there is one at least, and no target is among them.
    ///
    /// Weights are kept for no more pairs of an index and a target than transforms combine pairs of
    /// cells in a column, times four. For transforms there are some tables of N elements, where N
    /// is `total` rounded up to a power of two.
    pub fn new(
        alloc: Global,
        indices: &[u32],
        targets: &[u32],
        total: u32,
        width: usize,
    ) -> Mem<Interpolation>
        requires some { 1 ≤ length indices.now }
        requires rising { AreRising total indices.now }
        requires below { All (λ i. i < total) targets.now }
        requires missing { All (λ i. ¬ (Contains indices.now i)) targets.now }
        ensures total { IfOk result (λ made. made.total ≡ total) }
        ensures indices { IfOk result (λ made. made.indices.items ≡ indices.now) }
        ensures targets { IfOk result (λ made. made.targets.items ≡ targets.now) }
    {
        let kept = Vec::from_slice(alloc, indices)?;
        let wanted = Vec::from_slice(alloc, targets)?;
        let way = Way::new(alloc, total, indices, targets)?;
        Ok(Interpolation {
            total,
            indices: kept,
            targets: wanted,
            cols: way.cols(targets.len(), width),
            height: way.height(),
            way,
        })
    }

    /// Makes a room: for the columns that are made at a time, and for what is made of them.
    pub fn room(&self, alloc: Global) -> Mem<Vec<F>>
        ensures { IfOk result (λ room. IsRoomFor self.now room.items) }
    {
        let Some(rows) = self.height.checked_add(self.targets.len()) else {
            return Err(AllocError);
        };
        strip_room(alloc, rows, self.cols)
    }

    /// Writes the elements of the targets in `cols` columns, from column `from` on, over the first
    /// items of the room, target after target. The rows are those of the indices, in their order.
    pub fn make<R: ElementRows>(&self, rows: &R, from: usize, cols: usize, room: &mut [F])
        requires rows { R.count rows.now ≡ length self.now.indices.items }
        requires few { cols ≤ self.now.cols }
        requires place { from + cols ≤ 2 ^ 61 }
        requires room { IsRoomFor self.now room.old }
        ensures { AreMade (R.element rows.now) self.now.total self.now.indices.items
            self.now.targets.items from cols room.new }
    {
        if self.targets.is_empty() {
            return;
        }
        let (out, rest) = room.split_at_mut(self.targets.len() * cols);
        match &self.way {
            Way::ByWeights(weights) => weights.make(rows, from, cols, rest, out),
            Way::ByTransforms(transforms) => {
                let strip = &mut rest[..self.height * cols];
                transforms.evaluate(rows, from, cols, strip);
                take_rows(strip, transforms.lg, &self.targets, cols, out);
            }
        }
    }
}
