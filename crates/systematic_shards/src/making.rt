//! Elements of the rows of some indices, the targets, from `min` rows in hand.

ghost use Rattle.std.specs.Prelude.{◌≡◌, ◌+◌, ◌*◌, ◌<◌, ◌≤◌, ℕ, IfOk, length, map, slice_index};
ghost use Rattle.math_fields.specs.declared.goldilocks.F.{F};
ghost use Rattle.math_fields.specs.Elements.{residue};
ghost use Rattle.math_restoring.specs.Restored.{item};
ghost use Rattle.row_interpolation.specs.Rooms.{IsRoomFor};
ghost use Rattle.row_interpolation.specs.Written.{AreWritten};
ghost use Rattle.systematic_shards.specs.Made.{AreCellsOf, AreSourcesFor};
ghost use Rattle.systematic_shards.specs.Masks.{masked_number};

use crate::mask::element_of;
use crate::memory::{RUN, WordMemory, words_from};
use crate::rows::{Row, row_mask};
use crate::split::Code;
use math_base::algebra::Mem;
use math_fields::goldilocks::F;
use row_interpolation::{ElementRows, Interpolation};
use std::alloc::Global;

/// Writes the elements of the words under the mask over every `step`-th item, from item `at` on.
fn scatter(words: &[u64], mask: u32, at: usize, step: usize, items: &mut [F])
    requires within { at < step }
    requires room { step * length words.now ≤ length items.old }
    ensures { AreWritten (λ c. c * step + at)
        (λ c. residue (masked_number mask (slice_index words.now c))) (length words.now)
        (item items.old) (item items.new) }
{
    for c in 0..words.len() {
        items[c * step + at] = element_of(words[c], mask);
    }
}

/// Rows in hand as rows of elements.
#[derive(Drop)]
pub(crate) struct RowElements<'r, 'a, M> {
    /// How the rows were made.
    pub(crate) code: Code,
    /// The rows.
    pub(crate) rows: &'r [Row<'a, M>],
}

impl<'r, 'a, M: WordMemory> ElementRows for RowElements<'r, 'a, M> {
    ghost use Rattle.systematic_shards.specs.RowElements.{element_at};

    ghost count = { λ r. length r.rows.now };

    ghost element = { element_at M.word };

    fn read_row(&self, t: usize, from: usize, out: &mut [F]) {
        let row = &self.rows[t];
        let mask = row_mask(self.code, row.index);
        let mut run = [0; RUN];
        let words = words_from(row.cells, from, out.len(), &mut run);
        scatter(words, mask, 0, 1, out);
    }

    fn gather_row(&self, t: usize, from: usize, cols: usize, step: usize, columns: &mut [F]) {
        let row = &self.rows[t];
        let mask = row_mask(self.code, row.index);
        let mut run = [0; RUN];
        let words = words_from(row.cells, from, cols, &mut run);
        scatter(words, mask, t, step, columns);
    }
}

/// What makes rows of the targets from `min` rows in hand.
#[derive(Drop)]
pub(crate) struct RowMaker<'r, 'a, M> {
    /// How the rows were made.
    pub(crate) code: Code,
    /// The rows in hand.
    pub(crate) rows: &'r [Row<'a, M>],
    /// What makes elements from theirs.
    pub(crate) interpolation: Interpolation,
    ghost of_rows: { interpolation.indices.items ≡ map (λ row. row.index) rows.now },
    ghost of_total: { interpolation.total ≡ code.split.total },
    ghost enough: { code.split.min ≤ length rows.now },
}

/// Elements that are made: of each target those in `cols` columns, from column `from` on, target
/// after target.
#[derive(Drop)]
pub(crate) struct Strip<'s> {
    /// How the rows were made.
    pub(crate) code: Code,
    /// The indices of the rows that are made.
    pub(crate) targets: &'s [u32],
    /// The first column.
    pub(crate) from: usize,
    /// How many columns there are.
    pub(crate) cols: usize,
    /// The elements, and further ones.
    pub(crate) elements: &'s [F],
    ghost few: { cols ≤ 64 },
    ghost within: { from + cols ≤ code.split.width },
    ghost room: { length targets.now * cols ≤ length elements.now },
}

impl<'r, 'a, M: WordMemory> RowMaker<'r, 'a, M> {
    ghost use Rattle.systematic_shards.specs.Strips.{IsCodewordFor};

    /// Takes all memory but for the room.
    pub(crate) fn new(
        alloc: Global,
        rows: &'r [Row<'a, M>],
        indices: &[u32],
        targets: &[u32],
        code: Code,
    ) -> Mem<RowMaker<'r, 'a, M>>
        requires { AreSourcesFor code.split rows.now indices.now targets.now }
        ensures { IfOk result (λ maker. (maker.code ≡ code) × (maker.rows.now ≡ rows.now)
            × (maker.interpolation.targets.items ≡ targets.now)) }
    {
        let split = code.split;
        let interpolation = Interpolation::new(alloc, indices, targets, split.total, split.width)?;
        Ok(RowMaker {
            code,
            rows,
            interpolation,
        })
    }

    /// Writes the elements of the targets in `cols` columns, from column `from` on, over the first
    /// items of the room, target after target.
    pub(crate) fn make(&self, from: usize, cols: usize, room: &mut [F])
        requires few { cols ≤ self.now.interpolation.cols }
        requires within { from + cols ≤ self.now.code.split.width }
        requires room { IsRoomFor self.now.interpolation room.old }
        ensures { (a : ℕ → ℕ → F) → IsCodewordFor M.word self.now a
            → AreCellsOf a self.now.interpolation.targets.items from cols room.new }
    {
        let rows = RowElements {
            code: self.code,
            rows: self.rows,
        };
        self.interpolation.make(&rows, from, cols, room);
    }
}

/// What is made in a room, of so many columns, from column `from` on.
pub(crate) fn strip_of<'s>(
    code: Code,
    interpolation: &'s Interpolation,
    from: usize,
    cols: usize,
    room: &'s [F],
) -> Strip<'s>
    requires few { cols ≤ interpolation.now.cols }
    requires within { from + cols ≤ code.split.width }
    requires room { IsRoomFor interpolation.now room.now }
    ensures code { result.code ≡ code }
    ensures targets { result.targets.now ≡ interpolation.now.targets.items }
    ensures columns { (result.from ≡ from) × (result.cols ≡ cols) }
    ensures elements { result.elements.now ≡ room.now }
{
    Strip {
        code,
        targets: &interpolation.targets,
        from,
        cols,
        elements: room,
    }
}
