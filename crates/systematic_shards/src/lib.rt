//! Systematic shards: the data as they are, and parity.
//!
//! A block of bytes is cut into `min` data rows of words: eight bytes a word, the lowest first,
//! with zeros behind the last byte. Parity rows make them `total` rows. Column by column the words
//! of the rows are values of one polynomial of at most `min` coefficients: row i has its value at
//! power i of the root of unity of order N, the least power of two that is `total` or more. So any
//! `min` rows give back all others, and of m rows up to (m - `min`) / 2 may be wrong. This is Reed
//! and Solomon's code in its systematic form.
//!
//! A word can be P or more, and is then no element of the field. So the high half of each word of
//! the data is xored with a mask before it is taken as an element: the least mask that leaves no
//! high half all ones. It is nearly always 0. Parity words are elements as they are. The data stand
//! in the data rows byte for byte: they are never written under the mask.
//!
//! Rows lie in the caller's memory, as words or as bytes. A data row hides nothing of the data.
#![tactic(auto)]

ghost use Rattle.std.specs.Prelude.{◌≡◌, alloc_error};
ghost use Rattle.systematic_shards.specs.declared.Error.TheVariants.{Memory};

mod correcting;
mod decoding;
mod encoding;
mod filling;
mod holding;
pub mod laws;
mod making;
mod mask;
mod memory;
mod planning;
mod rebuilding;
mod rows;
mod split;

pub use correcting::rebuild_corrected;
pub use decoding::decode;
pub use encoding::encode;
pub use mask::masked_word;
pub use memory::WordMemory;
pub use rebuilding::{rebuild, verify};
pub use rows::Row;
pub use split::{Code, Split, is_split};
use std::alloc::{AllocError, AllocFailed};
use thiserror::Error;

/// Why rows are refused.
#[derive(Debug, Drop, Error)]
pub enum Error {
    /// Memory ran out.
    #[error("out of memory")]
    Memory(AllocError),
    /// There is no row, or there are fewer than `min` distinct indices. `rebuild_corrected` counts
    /// an index only if rows of it have words of elements, and these rows are equal.
    #[error("too few rows")]
    TooFew,
    /// Not 1 <= `min` <= `total`, or a row has another length than the split says.
    #[error("rows of another split")]
    Mismatch,
    /// There are 2^31 words of data or more, or 2^60 words in all rows or more.
    #[error("sizes out of range")]
    Sizes,
    /// An index is `total` or more.
    #[error("row index out of range")]
    Index,
    /// A word of a parity row is P or more, or the high half of a word of a data row is all ones
    /// under the mask.
    #[error("word that is no element")]
    Word,
    /// Two rows have one index, and differ.
    #[error("unequal rows of one index")]
    Conflict,
    /// The rows belong to no codeword, or the data have bytes other than zero past their end.
    #[error("rows of no codeword")]
    Inconsistent,
}

impl From<AllocError> for Error {
    ghost from_gives = { λ x e. e ≡ Memory x };

    fn from(e: AllocError) -> Error {
        Error::Memory(e)
    }
}

impl<T: Drop> From<AllocFailed<T>> for Error {
    ghost from_gives = { λ _ e. e ≡ Memory alloc_error };

    fn from(_e: AllocFailed<T>) -> Error {
        Error::Memory(AllocError)
    }
}
