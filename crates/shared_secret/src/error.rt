//! Why nothing was dealt, or nothing combined.

ghost use Rattle.std.specs.Prelude.{◌≡◌, alloc_error};
ghost use Rattle.shared_secret.specs.declared.error.CombineError.TheVariants as combine;
ghost use Rattle.shared_secret.specs.declared.error.DealError.TheVariants as deal;
ghost use Rattle.shared_secret.specs.Shares.{refusal_of};

use math_base::algebra::RandomError;
use std::alloc::{AllocError, AllocFailed};
use thiserror::Error;

/// Why no shares were dealt.
#[derive(Debug, Drop, Error)]
pub enum DealError {
    /// Memory ran out.
    #[error("out of memory")]
    Memory(AllocError),
    /// The source gave only words that are no element, as many as a sample looks at.
    #[error("too many words")]
    TooManyWords,
    /// The field has no n points other than zero for n shares.
    #[error("too many shares")]
    TooManyShares,
}

impl From<AllocError> for DealError {
    ghost from_gives = { λ x e. e ≡ deal.Memory x };

    fn from(e: AllocError) -> DealError {
        DealError::Memory(e)
    }
}

impl<T: Drop> From<AllocFailed<T>> for DealError {
    ghost from_gives = { λ _ e. e ≡ deal.Memory alloc_error };

    fn from(_e: AllocFailed<T>) -> DealError {
        DealError::Memory(AllocError)
    }
}

impl From<RandomError> for DealError {
    ghost from_gives = { λ x e. e ≡ refusal_of x };

    fn from(e: RandomError) -> DealError {
        match e {
            RandomError::Memory(e) => DealError::Memory(e),
            RandomError::TooManyWords => DealError::TooManyWords,
        }
    }
}

/// Why shares were not combined.
#[derive(Debug, Drop, Error)]
pub enum CombineError {
    /// Memory ran out.
    #[error("out of memory")]
    Memory(AllocError),
    /// There are fewer shares than the threshold.
    #[error("too few shares")]
    TooFewShares,
    /// The point of an index is zero, as that of the index 0 is.
    #[error("index zero")]
    ZeroIndex,
    /// Two indices have one point, as equal indices have.
    #[error("repeated index")]
    RepeatedIndex,
}

impl From<AllocError> for CombineError {
    ghost from_gives = { λ x e. e ≡ combine.Memory x };

    fn from(e: AllocError) -> CombineError {
        CombineError::Memory(e)
    }
}

impl<T: Drop> From<AllocFailed<T>> for CombineError {
    ghost from_gives = { λ _ e. e ≡ combine.Memory alloc_error };

    fn from(_e: AllocFailed<T>) -> CombineError {
        CombineError::Memory(AllocError)
    }
}
