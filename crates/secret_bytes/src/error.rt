//! Why no bytes were dealt, or none combined.

ghost use Rattle.std.specs.Prelude.{◌≡◌, alloc_error};
ghost use Rattle.secret_bytes.specs.declared.error.CombineError.TheVariants as combine;
ghost use Rattle.secret_bytes.specs.declared.error.DealError.TheVariants as deal;
ghost use Rattle.secret_bytes.specs.Deals.{refusal_of};

use math_base::algebra::RandomError;
use std::alloc::{AllocError, AllocFailed};
use std::error::Error;
use std::fmt;

/// Why no shares were dealt.
#[derive(Debug, Drop)]
pub enum DealError {
    /// Memory ran out.
    Memory(AllocError),
    /// The source gave only words that are no element, as many as a sample looks at.
    TooManyWords,
}

impl fmt::Display for DealError {
    fn fmt<W: fmt::Write>(&self, f: &mut fmt::Formatter<W>) -> fmt::Result {
        f.write_str(match self {
            DealError::Memory(_) => "out of memory",
            DealError::TooManyWords => "the source of random words gave none that could be used",
        })
    }
}

impl Error for DealError {}

impl From<AllocError> for DealError {
    ghost from_gives = { λ x e. e ≡ deal.Memory x };

    fn from(e: AllocError) -> DealError {
        DealError::Memory(e)
    }
}

impl<T: Drop> From<AllocFailed<T>> for DealError {
    ghost from_gives = { λ _ e. e ≡ deal.Memory alloc_error };

    fn from(_e: AllocFailed<T>) -> DealError {
        DealError::Memory(AllocError)
    }
}

impl From<RandomError> for DealError {
    ghost from_gives = { λ x e. e ≡ refusal_of x };

    fn from(e: RandomError) -> DealError {
        match e {
            RandomError::Memory(e) => DealError::Memory(e),
            RandomError::TooManyWords => DealError::TooManyWords,
        }
    }
}

/// Why shares were not combined. A place counts the shares that were given from zero on.
#[derive(Debug, Drop)]
pub enum CombineError {
    /// Memory ran out.
    Memory(AllocError),
    /// There is no share.
    NoShare,
    /// The threshold of this share or its index is zero.
    Unsound(usize),
    /// This share is of another deal than the first.
    AnotherDeal(usize),
    /// This share has another threshold than the first.
    AnotherThreshold(usize),
    /// This share has another number of values than the first.
    AnotherLength(usize),
    /// This share has the index of one before it, and other values.
    Repeated(usize),
    /// Fewer shares are there than are needed: how many there are, and how many are needed.
    TooFew(usize, u32),
    /// There are more shares than the threshold, and more of them are wrong than half of the
    /// surplus.
    TooManyWrong,
    /// What the shares give does not fit its check.
    Changed,
}

impl fmt::Display for CombineError {
    fn fmt<W: fmt::Write>(&self, f: &mut fmt::Formatter<W>) -> fmt::Result {
        f.write_str(match self {
            CombineError::Memory(_) => "out of memory",
            CombineError::NoShare => "there is no share",
            CombineError::Unsound(_) => "no share of a deal",
            CombineError::AnotherDeal(_) => "of another deal",
            CombineError::AnotherThreshold(_) => "of another threshold",
            CombineError::AnotherLength(_) => "of another length",
            CombineError::Repeated(_) => "its index stands before with other values",
            CombineError::TooFew(count, t) => {
                return write!(f, "{count} shares are there, and {t} are needed");
            }
            CombineError::TooManyWrong => "the shares do not fit each other",
            CombineError::Changed => "what the shares give does not fit its check",
        })
    }
}

impl Error for CombineError {}

impl From<AllocError> for CombineError {
    ghost from_gives = { λ x e. e ≡ combine.Memory x };

    fn from(e: AllocError) -> CombineError {
        CombineError::Memory(e)
    }
}

impl<T: Drop> From<AllocFailed<T>> for CombineError {
    ghost from_gives = { λ _ e. e ≡ combine.Memory alloc_error };

    fn from(_e: AllocFailed<T>) -> CombineError {
        CombineError::Memory(AllocError)
    }
}
