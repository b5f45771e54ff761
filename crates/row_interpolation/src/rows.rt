//! Rows in hand.

ghost use Rattle.std.specs.Prelude.{◌≡◌, ◌+◌, ◌*◌, ◌<◌, ◌≤◌, ℕ, length};
ghost use Rattle.math_fields.specs.declared.goldilocks.F.{F};
ghost use Rattle.math_restoring.specs.Restored.{item};
ghost use Rattle.row_interpolation.specs.RowValues.{AreStripColumns};
ghost use Rattle.row_interpolation.specs.Written.{AreWritten};

use math_fields::goldilocks::F;

/// Rows of elements, wherever these lie.
pub trait ElementRows {
    /// How many rows there are.
    ghost count: { Self → ℕ };
    /// The element of row t in column k.
    ghost element: { Self → ℕ → ℕ → F };

    /// Writes the elements of row t, from column `from` on, over the items of `out`.
    fn read_row(&self, t: usize, from: usize, out: &mut [F])
        requires there { t < count self.now }
        requires columns { AreStripColumns from (length out.old) }
        ensures { (k : ℕ) → k < length out.old → item out.new k ≡ element self.now t (from + k) };

    /// Writes the elements of row t in `cols` columns, from column `from` on, over every `step`-th
    /// item, from item t on. So rows are gathered column after column.
    fn gather_row(&self, t: usize, from: usize, cols: usize, step: usize, columns: &mut [F])
        requires there { t < count self.now }
        requires within { t < step }
        requires columns { AreStripColumns from cols }
        requires room { step * cols ≤ length columns.old }
        ensures { AreWritten (λ c. c * step + t) (λ c. element self.now t (from + c)) cols
            (item columns.old) (item columns.new) };
}
