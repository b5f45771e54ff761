//! Shards as rows: an index and cells, which are elements, words or bytes.

ghost use Rattle.std.specs.Prelude.{◌≡◌, ◌↔◌, ◌+◌, ◌≤◌, ◌++◌, ℕ, List, length, take, drop, map};
ghost use Rattle.std.specs.Prelude.{IsTrue, OnOk};
ghost use Rattle.std.specs.Int.{from_be_bytes, w64};
ghost use Rattle.std.specs.List.{AllZip};
ghost use Rattle.math_fields.specs.declared.goldilocks.F.{F};
ghost use Rattle.math_fields.specs.Elements.{residue, same};

use super::Shard;
use super::joining::are_equal;
use math_base::algebra::Mem;
use math_fields::goldilocks::F;

/// One shard of those that are joined.
pub(super) trait Row: Drop {
    ghost index: { Self → ℕ };

    ghost cells: { Self → List F };

    /// Which of the shards it is.
    fn index(&self) -> u32
        ensures { result ≡ index self.now };

    /// Adds the cells to a list.
    fn append_to(&self, out: &mut Vec<F>) -> Mem<()>
        ensures { OnOk result (out.new.items ≡ out.old.items ++ cells self.now) };

    /// Whether these values are the cells from place `from` on.
    fn has_values(&self, from: usize, values: &[F]) -> bool
        requires { from + length values.now ≤ length (cells self.now) }
        ensures { IsTrue result
            ↔ AllZip same values.now (take (length values.now) (drop from (cells self.now))) };
}

impl Row for Shard {
    ghost index = { λ s. s.index };

    ghost cells = { λ s. s.cells.items };

    fn index(&self) -> u32 {
        self.index
    }

    fn append_to(&self, out: &mut Vec<F>) -> Mem<()> {
        out.extend_from_slice(&self.cells)?;
        Ok(())
    }

    fn has_values(&self, from: usize, values: &[F]) -> bool {
        are_equal(values, &self.cells[from..from + values.len()])
    }
}

/// A cell where it lies in the caller's memory: the number of an element, as a word, or as the eight
/// bytes of one, the highest first.
pub trait Cell: Copy {
    ghost number: { Self → ℕ };

    /// The number.
    fn number(self) -> u64
        ensures { result ≡ number self };
}

impl Cell for u64 {
    ghost number = { λ x. x };

    fn number(self) -> u64 {
        self
    }
}

impl Cell for [u8; 8] {
    ghost number = { from_be_bytes w64 };

    fn number(self) -> u64 {
        u64::from_be_bytes(self)
    }
}

/// A shard whose cells lie in the caller's memory.
#[derive(Clone, Copy)]
pub(super) struct CellRow<'a, C> {
    /// Which of the shards it is.
    pub(super) index: u32,
    /// Its cells.
    pub(super) cells: &'a [C],
}

impl<'a, C: Cell> Row for CellRow<'a, C> {
    ghost index = { λ row. row.index };

    ghost cells = { λ row. map residue (map C.number row.cells.now) };

    fn index(&self) -> u32 {
        self.index
    }

    fn append_to(&self, out: &mut Vec<F>) -> Mem<()> {
        for cell in self.cells {
            out.push(F::from(cell.number()))?;
        }
        Ok(())
    }

    fn has_values(&self, from: usize, values: &[F]) -> bool {
        let cells = &self.cells[from..from + values.len()];
        let mut equal = true;
        for i in 0..values.len() {
            equal = equal & (values[i] == F::from(cells[i].number()));
        }
        equal
    }
}
