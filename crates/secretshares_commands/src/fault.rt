//! Why there is no answer.

ghost use Rattle.std.specs.Prelude.{◌≡◌, alloc_error};
ghost use Rattle.secretshares_commands.specs.declared.fault.Fault.TheVariants as fault;

use secret_bytes::{CombineError, DealError, LineError};
use std::alloc::{AllocError, AllocFailed};
use std::{fmt, io};
use thiserror::Error;

/// What is wrong with which word. What stands in a word is not said again: it may be a secret.
#[derive(Drop, Error)]
pub enum WrongWord {
    #[error("no command is given")]
    NoCommand,
    #[error("the first word is no command")]
    Command,
    #[error("{0} words are given after deal, and T and N are wanted")]
    Counts(usize),
    #[error("{0} is no number from 1 to 255")]
    Number(&'static str),
    #[error("T is {0}, and N is {1}: T is N at most")]
    FewerThanT(u32, u32),
    #[error("words are given after {0}, which takes none")]
    NoMore(&'static str),
    #[error("a word is no UTF-8 text")]
    NoText,
}

/// As its text: a derived form has an arm for each kind, which is dear to prove.
impl fmt::Debug for WrongWord {
    fn fmt<W: fmt::Write>(&self, f: &mut fmt::Formatter<W>) -> fmt::Result {
        write!(f, "{self}")
    }
}

/// Why there is no answer. Texts name the line that is meant, and the share where it is known.
#[derive(Drop, Error)]
pub enum Fault {
    #[error("{0}\nusage: secretshares deal T N < SECRET | combine < LINES | --help | --version")]
    Usage(WrongWord),
    #[error("refused: out of memory")]
    Memory(AllocError),
    #[error("refused: {0}")]
    Io(io::Error),
    #[error("refused: the secret has more than 65536 bytes")]
    TooLong,
    #[error("refused: a terminal cuts off a line of 4095 bytes: give it by a file or a pipe")]
    FullLine,
    #[error("refused: {0}")]
    Deal(DealError),
    #[error("refused: {0}")]
    Text(LineError),
    #[error("refused: line {0}: {1}")]
    Line(usize, LineError),
    #[error("refused: line {0}: its {1} is {2}, and deal makes at most 255 shares")]
    TooGreat(usize, &'static str, u32),
    #[error("refused: line {0}, share {1}: {2}")]
    Share(usize, u32, CombineError),
    #[error("refused: {0}")]
    Combine(CombineError),
}

impl fmt::Debug for Fault {
    fn fmt<W: fmt::Write>(&self, f: &mut fmt::Formatter<W>) -> fmt::Result {
        write!(f, "{self}")
    }
}

impl Fault {
    /// The status that the program ends with: 2 for a usage error, 1 otherwise.
    pub fn status(&self) -> u8 {
        match self {
            Fault::Usage(_) => 2,
            _ => 1,
        }
    }
}

impl From<AllocError> for Fault {
    ghost from_gives = { λ x e. e ≡ fault.Memory x };

    fn from(e: AllocError) -> Fault {
        Fault::Memory(e)
    }
}

impl<T: Drop> From<AllocFailed<T>> for Fault {
    ghost from_gives = { λ _ e. e ≡ fault.Memory alloc_error };

    fn from(_e: AllocFailed<T>) -> Fault {
        Fault::Memory(AllocError)
    }
}

impl From<DealError> for Fault {
    fn from(e: DealError) -> Fault {
        Fault::Deal(e)
    }
}

impl From<LineError> for Fault {
    fn from(e: LineError) -> Fault {
        match e {
            LineError::Memory(e) => Fault::Memory(e),
            why => Fault::Text(why),
        }
    }
}

impl From<io::Error> for Fault {
    fn from(e: io::Error) -> Fault {
        Fault::Io(e)
    }
}
