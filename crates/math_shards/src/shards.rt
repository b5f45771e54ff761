//! Data cut into shards, of which any `min` give them back.
//!
//! Each shard holds the values of polynomials of `min` coefficients at a point of its own:
//! `math_splitting` says which. A polynomial of `min` coefficients is the only one with its values
//! at `min` points, so any `min` shards give the data back. If there are more, one with damaged
//! cells fits no data with the others. If there are only `min`, damage may go unnoticed.
//!
//! `join` gives data back from shards of which none is wrong, and `join_corrected` though some are.
//! A row is a shard, or a row of words or of bytes where they lie: the same functions join all
//! three. Beside the caller's own, these lists have the size of the data:
//!
//! - in `split_rows`, none: strips of columns are filled from the caller's words, and written over
//!   the caller's rows;
//! - in `join_rows`, the elements;
//! - in `split`, the shards, and their cells as rows, from which they are cut;
//! - in `join`, the elements, and the words that it gives;
//! - in `join_corrected` the same, and where some shard is wrong, several matrices of N rows.

ghost use Rattle.std.specs.Prelude.{◌≡◌, alloc_error};
ghost use Rattle.math_shards.specs.declared.shards.Error.TheVariants.{Memory};

mod comparing;
mod correcting;
mod distinct;
mod joining;
mod joining_rows;
mod polynomials;
mod restoring;
mod rows;
mod unpacking;
mod weighing;

pub use correcting::{Joined, join_corrected, join_packed_corrected};
pub use joining::{join, join_packed};
pub use joining_rows::{join_cells, join_rows, shards_of_rows};
pub use math_splitting::shards::{
    Room, Shard, Source, shard_width, split, split_rows, split_source, split_source_at,
    split_source_rows, split_source_rows_at,
};
pub use math_values::words::Word;
pub use rows::Cell;
use std::alloc::{AllocError, AllocFailed};
use thiserror::Error;
pub use unpacking::PackedData;

/// Why shards give no data back.
#[derive(Debug, Drop, Error)]
pub enum Error {
    /// Memory ran out, or a size is past what a `usize` can say.
    #[error("out of memory")]
    Memory(AllocError),
    /// There is no shard, or there are fewer than `min` distinct indices. `join_corrected` counts
    /// an index only if all its shards have equal cells.
    #[error("too few shards")]
    TooFew,
    /// The `min`, the `total` or the number of cells of a shard is not that of the first shard, or
    /// not 1 <= `min` <= `total`.
    #[error("shards of different splits")]
    Mismatch,
    /// An index is `total` or more.
    #[error("shard index out of range")]
    Index,
    /// Two shards have one index and unequal cells.
    #[error("unequal shards of one index")]
    Conflict,
    /// No data have all of these shards.
    #[error("shards of no data")]
    Inconsistent,
}

impl From<AllocError> for Error {
    ghost from_gives = { λ x e. e ≡ Memory x };

    fn from(e: AllocError) -> Error {
        Error::Memory(e)
    }
}

impl<T: Drop> From<AllocFailed<T>> for Error {
    ghost from_gives = { λ _ e. e ≡ Memory alloc_error };

    fn from(_e: AllocFailed<T>) -> Error {
        Error::Memory(AllocError)
    }
}
