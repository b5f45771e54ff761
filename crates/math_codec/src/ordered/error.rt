//! Why a map could not be built.

ghost use Rattle.std.specs.Prelude.{◌≡◌, alloc_error};
ghost use Rattle.math_codec.specs.declared.ordered.error.Error.TheVariants.{Memory};

use std::alloc::{AllocError, AllocFailed};
use thiserror::Error;

/// Why a map was not made: what is wrong with the first pair that it cannot take, unless memory ran
/// out before it.
#[derive(Debug, Drop, Error)]
pub enum Error {
    /// Memory ran out.
    #[error("out of memory")]
    Memory(AllocError),
    /// The key of a pair occurred before.
    #[error("duplicate key")]
    DuplicateKey,
    /// The value of a pair occurred before, and its key did not.
    #[error("duplicate value")]
    DuplicateValue,
}

impl From<AllocError> for Error {
    ghost from_gives = { λ x e. e ≡ Memory x };

    fn from(e: AllocError) -> Error {
        Error::Memory(e)
    }
}

impl<T: Drop> From<AllocFailed<T>> for Error {
    ghost from_gives = { λ _ e. e ≡ Memory alloc_error };

    fn from(_e: AllocFailed<T>) -> Error {
        Error::Memory(AllocError)
    }
}
