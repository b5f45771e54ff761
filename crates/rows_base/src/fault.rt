//! Why a call of a row has no answer.

use math_base::algebra::RandomError;
use math_codec::{codec, ordered};
use std::alloc::{AllocError, AllocFailed};
use thiserror::Error;

/// Why a call has no answer.
#[derive(Debug, Drop, Error)]
pub enum Fault {
    #[error("out of memory")]
    Memory(AllocError),
    /// What is no such thing, or is missing.
    #[error("no {0}")]
    Unreadable(&'static str),
    /// The arguments are outside of what the call asks for.
    #[error("can't be run: {0}")]
    OutOfRange(&'static str),
    /// The call refused its bytes, not for want of memory.
    #[error("refused {0}")]
    Bytes(codec::Error),
    /// The call refused its pairs, not for want of memory.
    #[error("refused {0}")]
    Pairs(ordered::Error),
    /// The call refused its source, not for want of memory.
    #[error("refused {0}")]
    Source(RandomError),
}

impl Fault {
    /// Whether it is the call's own refusal, which is an answer.
    pub fn is_refusal(&self) -> bool {
        match self {
            Fault::Bytes(_) | Fault::Pairs(_) | Fault::Source(_) => true,
            Fault::Memory(_) | Fault::Unreadable(_) | Fault::OutOfRange(_) => false,
        }
    }
}

impl From<AllocError> for Fault {
    fn from(e: AllocError) -> Fault {
        Fault::Memory(e)
    }
}

impl<T: Drop> From<AllocFailed<T>> for Fault {
    fn from(_e: AllocFailed<T>) -> Fault {
        Fault::Memory(AllocError)
    }
}

/// Want of memory is told apart from what the call says of its bytes.
impl From<codec::Error> for Fault {
    fn from(e: codec::Error) -> Fault {
        match e {
            codec::Error::Memory(e) => Fault::Memory(e),
            e => Fault::Bytes(e),
        }
    }
}

/// Want of memory is told apart from what the call says of its pairs.
impl From<ordered::Error> for Fault {
    fn from(e: ordered::Error) -> Fault {
        match e {
            ordered::Error::Memory(e) => Fault::Memory(e),
            e => Fault::Pairs(e),
        }
    }
}

/// Want of memory is told apart from what the call says of its source.
impl From<RandomError> for Fault {
    fn from(e: RandomError) -> Fault {
        match e {
            RandomError::Memory(e) => Fault::Memory(e),
            e => Fault::Source(e),
        }
    }
}
