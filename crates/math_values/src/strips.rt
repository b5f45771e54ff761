//! Strips of columns.
//!
//! Rows of many columns are worked on strip by strip: a strip has so few columns that it stays in a
//! cache near the processor.

ghost use Rattle.std.specs.Prelude.{◌≡◌, ◌*◌, ◌<◌, ◌≤◌, IfOk, length};

use math_base::algebra::Mem;
use math_fields::goldilocks::F;
use std::alloc::{AllocError, Global};

/// How many columns a strip has at least, where there are so many: a line of a cache has eight
/// cells.
const LEAST_COLS: usize = 8;

/// Returns how many columns a strip of 2^lg rows has at most, of `width` columns: as many as make
/// up `cells` cells, but eight where there are so many. It is one at least.
pub fn most_cols(cells: usize, lg: u8, width: usize) -> usize
    requires { lg < 64 }
    ensures { 1 ≤ result }
{
    (cells >> lg).max(LEAST_COLS).min(width).max(1)
}

/// Makes room for so many rows of so many columns: zeros. It is refused too if their number is past
/// what a `usize` can say.
pub fn strip_room(alloc: Global, rows: usize, cols: usize) -> Mem<Vec<F>>
    ensures { IfOk result (λ room. length room.items ≡ rows * cols) }
{
    let Some(count) = rows.checked_mul(cols) else {
        return Err(AllocError);
    };
    let mut room = Vec::with_capacity(alloc, count)?;
    room.resize(count, F::from(0))?;
    Ok(room)
}
