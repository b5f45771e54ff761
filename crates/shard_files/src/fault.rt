//! Why something is not done with shard files.

use partial_files::fault::Fault as FileFault;
use std::alloc::{AllocError, AllocFailed};
use std::{fmt, io};

/// Why something is not done with shard files. Texts name the file or the block that is meant.
#[derive(Drop)]
pub enum Fault {
    File(FileFault),
    /// The folder in which shard files are looked for.
    Folder(String, io::Error),
    TooManyFiles,
    NoShard(String),
    /// The name of a shard file in place of the file's, and what is to be given in its place.
    IsShard(String, String),
    /// Equally many shards of two splits are there: a name of one of each.
    Tie(String, String, String),
    Length(String),
    /// How many shards are there, and how many are needed.
    TooFew(String, usize, u32),
    Block(u64, shard_blocks::Error),
    /// A block that shards under its root give has another root.
    BlockRoot(u64),
    /// No path or pair of the files leads up to the root that is asked for, or to any.
    NoRoot(String, &'static str),
    NoPaths(String),
    /// A shard with too many words.
    Cells,
    Random,
}

impl Fault {
    /// The name of the file, or of the folder, where one is meant.
    fn name(&self) -> Option<&str> {
        match self {
            Fault::Folder(name, _)
            | Fault::NoShard(name)
            | Fault::IsShard(name, _)
            | Fault::Tie(name, _, _)
            | Fault::Length(name)
            | Fault::TooFew(name, _, _)
            | Fault::NoRoot(name, _)
            | Fault::NoPaths(name) => Some(name.as_str()),
            _ => None,
        }
    }

    /// What is wrong with the file of that name, or with no file, where that is one text.
    fn reason(&self) -> &'static str {
        match self {
            Fault::TooManyFiles => "more than 65536 files are to be written",
            Fault::NoShard(_) => "no shard is there",
            Fault::Length(_) => "no shard file has the length that its header says",
            Fault::NoPaths(_) => {
                "the shard files have no paths, by which a root is checked: only split --root writes them"
            }
            Fault::Cells => "a shard with too many words",
            Fault::Random => "the system gives no random words that can be keys",
            _ => "",
        }
    }

    /// Writes what is wrong with the file of that name, or with no file.
    fn write_reason<W: fmt::Write>(&self, f: &mut fmt::Formatter<W>) -> fmt::Result {
        match self {
            Fault::Folder(_, error) => write!(f, "{error}"),
            Fault::IsShard(_, named) => write!(f, "no shard is there: give {named}"),
            Fault::Tie(_, one, other) => write!(
                f,
                "equally many shards of two splits are there: {one} is of the one, and {other} of the other"
            ),
            Fault::TooFew(_, there, min) => {
                write!(f, "{there} shards are there, and {min} are needed")
            }
            Fault::NoRoot(_, root) => write!(f, "no shard file leads up to {root}"),
            _ => f.write_str(self.reason()),
        }
    }
}

impl fmt::Display for Fault {
    fn fmt<W: fmt::Write>(&self, f: &mut fmt::Formatter<W>) -> fmt::Result {
        match self {
            Fault::File(fault) => return write!(f, "{fault}"),
            Fault::Block(number, error) => return write!(f, "refused: block {number}: {error}"),
            Fault::BlockRoot(number) => {
                return write!(f, "refused: block {number}: the root of no data");
            }
            _ => f.write_str("refused: ")?,
        }
        if let Some(name) = self.name() {
            write!(f, "{name}: ")?;
        }
        self.write_reason(f)
    }
}

/// As its text: a derived form has an arm for each kind, which is dear to prove.
impl fmt::Debug for Fault {
    fn fmt<W: fmt::Write>(&self, f: &mut fmt::Formatter<W>) -> fmt::Result {
        write!(f, "{self}")
    }
}

impl From<FileFault> for Fault {
    fn from(fault: FileFault) -> Fault {
        Fault::File(fault)
    }
}

impl From<AllocError> for Fault {
    fn from(e: AllocError) -> Fault {
        Fault::File(FileFault::Memory(e))
    }
}

impl<T: Drop> From<AllocFailed<T>> for Fault {
    fn from(_e: AllocFailed<T>) -> Fault {
        Fault::File(FileFault::Memory(AllocError))
    }
}

impl From<io::Error> for Fault {
    fn from(e: io::Error) -> Fault {
        Fault::File(FileFault::Io(e))
    }
}
