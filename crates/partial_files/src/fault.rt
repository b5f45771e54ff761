//! Why a file is not written.

use std::alloc::{AllocError, AllocFailed, Global};
use std::{fmt, io};

/// Why a file is not written, or not read. Texts name the file that is meant.
#[derive(Drop)]
pub enum Fault {
    Memory(AllocError),
    Io(io::Error),
    File(String, io::Error),
    Exists(String),
    Input(String),
    SecondNames(io::Error),
    NotRegular(String),
    TooLong(String),
}

impl fmt::Display for Fault {
    fn fmt<W: fmt::Write>(&self, f: &mut fmt::Formatter<W>) -> fmt::Result {
        f.write_str("refused: ")?;
        match self {
            Fault::Memory(_) => f.write_str("out of memory"),
            Fault::Io(error) => write!(f, "{error}"),
            Fault::File(name, error) => write!(f, "{name}: {error}"),
            Fault::Exists(name) => name_and(
                f,
                name,
                "is there already, and only --force replaces it",
            ),
            Fault::Input(name) => name_and(
                f,
                name,
                "is a file that is read here, a shard file, or has the name of one",
            ),
            Fault::SecondNames(error) => write!(
                f,
                "all files have their names, but second names of them could not be removed: {error}"
            ),
            Fault::NotRegular(name) => name_and(f, name, "not a regular file"),
            Fault::TooLong(name) => name_and(
                f,
                name,
                "the file system holds no file of that length",
            ),
        }
    }
}

/// Writes the name, and what is said of it.
pub fn name_and<W: fmt::Write>(f: &mut fmt::Formatter<W>, name: &str, said: &str) -> fmt::Result {
    write!(f, "{name}: {said}")
}

/// As its text: a derived form has an arm for each kind, which is dear to prove.
impl fmt::Debug for Fault {
    fn fmt<W: fmt::Write>(&self, f: &mut fmt::Formatter<W>) -> fmt::Result {
        write!(f, "{self}")
    }
}

impl From<AllocError> for Fault {
    fn from(e: AllocError) -> Fault {
        Fault::Memory(e)
    }
}

impl<T: Drop> From<AllocFailed<T>> for Fault {
    fn from(_e: AllocFailed<T>) -> Fault {
        Fault::Memory(AllocError)
    }
}

impl From<io::Error> for Fault {
    fn from(e: io::Error) -> Fault {
        Fault::Io(e)
    }
}

/// What the system answers of the file with this name. Where that is an error, the fault has the
/// name.
pub fn name_error<T: Drop>(alloc: Global, name: &str, answer: io::Result<T>) -> Result<T, Fault> {
    match answer {
        Ok(value) => Ok(value),
        Err(error) => Err(Fault::File(copy_of(alloc, name)?, error)),
    }
}

/// The text, as one that a fault can have.
pub fn copy_of(alloc: Global, text: &str) -> Result<String, AllocError> {
    String::from_str(alloc, text)
}
