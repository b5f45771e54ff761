//! Which word is wrong.

use partial_files::fault::name_and;
use std::alloc::{AllocError, AllocFailed};
use std::fmt;

/// What is wrong with which word.
#[derive(Drop)]
pub enum WrongWord {
    /// What is wrong, where no word is.
    Words(&'static str),
    /// A word, and what is wrong with it.
    Word(String, &'static str),
    /// An option, and the command that does not take it.
    OptionOf(&'static str, &'static str),
    /// An option, and what has to stand after it.
    NoWord(&'static str, &'static str),
    Twice(&'static str),
    /// What is wanted, and how many words are given.
    Count(&'static str, usize),
    /// As `Count`; then the file whose shard file is named, and what is wanted after `--shards`.
    Shards(&'static str, usize, String, &'static str),
    /// What the number is, and the word.
    Number(&'static str, String),
    MinAboveTotal(u32, u32),
}

impl fmt::Display for WrongWord {
    fn fmt<W: fmt::Write>(&self, f: &mut fmt::Formatter<W>) -> fmt::Result {
        match self {
            WrongWord::Words(why) => f.write_str(why),
            WrongWord::Word(word, why) => name_and(f, word, why),
            WrongWord::Twice(option) => name_and(f, option, "is given twice"),
            WrongWord::OptionOf(option, command) => write!(f, "{option}: no option of {command}"),
            WrongWord::NoWord(option, word) => write!(f, "{option}: no {word} is given after it"),
            WrongWord::Count(wanted, count) => write_count(f, wanted, *count),
            WrongWord::Shards(wanted, count, file, with_shards) => {
                write_count(f, wanted, *count)?;
                write!(
                    f,
                    ": give {file}, without a number, or --shards {with_shards}"
                )
            }
            WrongWord::Number(name, word) => {
                write!(f, "{word}: {name} is a number from 1 to 65536")
            }
            WrongWord::MinAboveTotal(min, total) => {
                write!(
                    f,
                    "MIN is {min}, and TOTAL is {total}: MIN is TOTAL at most"
                )
            }
        }
    }
}

/// Writes what is wanted, and how many words are given.
fn write_count<W: fmt::Write>(
    f: &mut fmt::Formatter<W>,
    wanted: &str,
    count: usize,
) -> fmt::Result {
    write!(f, "{count} words are given where {wanted} are wanted")
}

/// As its text: a derived form has an arm for each kind, which is dear to prove.
impl fmt::Debug for WrongWord {
    fn fmt<W: fmt::Write>(&self, f: &mut fmt::Formatter<W>) -> fmt::Result {
        write!(f, "{self}")
    }
}

/// Why the words are not taken.
#[derive(Drop)]
pub enum Fault {
    Memory(AllocError),
    Word(WrongWord),
}

impl From<AllocError> for Fault {
    fn from(e: AllocError) -> Fault {
        Fault::Memory(e)
    }
}

impl<T: Drop> From<AllocFailed<T>> for Fault {
    fn from(_e: AllocFailed<T>) -> Fault {
        Fault::Memory(AllocError)
    }
}
