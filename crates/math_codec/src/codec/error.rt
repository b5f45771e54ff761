//! Why bytes could not be read.
//!
//! The fault of a reader is a value of `Fault` in contracts, which has every error except `Memory`.
//! So a function that finds which fault comes first says nothing of memory.

ghost use Rattle.std.specs.Prelude.{◌≡◌, alloc_error};
ghost use Rattle.math_codec.specs.declared.codec.error.Error.TheVariants.{Memory};

use std::alloc::{AllocError, AllocFailed};
use thiserror::Error;

/// Why bytes were not read: their first fault from left to right, unless memory ran out before it.
#[derive(Debug, Drop, Error)]
pub enum Error {
    /// Memory ran out.
    #[error("out of memory")]
    Memory(AllocError),
    /// The bytes end within a value.
    #[error("end of buffer")]
    EndOfBuffer,
    /// A length has a fifth byte above 15, or a last byte of zero that is not its first.
    #[error("invalid varint")]
    InvalidVarint,
    /// This length is out of the range that was asked for.
    #[error("invalid length {0}")]
    InvalidLength(u32),
    /// No value of this type is spelled so: the type, and what is wrong.
    #[error("invalid {0}: {1}")]
    Invalid(&'static str, &'static str),
    /// So many bytes follow a value that was to take all of them.
    #[error("extra data {0}")]
    ExtraData(usize),
}

impl From<AllocError> for Error {
    ghost from_gives = { λ x e. e ≡ Memory x };

    fn from(e: AllocError) -> Error {
        Error::Memory(e)
    }
}

impl<T: Drop> From<AllocFailed<T>> for Error {
    ghost from_gives = { λ _ e. e ≡ Memory alloc_error };

    fn from(_e: AllocFailed<T>) -> Error {
        Error::Memory(AllocError)
    }
}
