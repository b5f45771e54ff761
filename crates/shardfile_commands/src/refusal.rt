//! Why a run is refused.

ghost use Rattle.std.specs.Prelude.{◌≡◌, true, false};
ghost use Rattle.shardfile_commands.specs.Statuses.{judged, judged_files, refused};

use crate::status::Status;
use partial_files::fault::Fault as FileFault;
use shard_files::fault::Fault;
use shardfile_words::fault::{Fault as WordsFault, WrongWord};
use std::alloc::{AllocError, AllocFailed};
use std::{fmt, io};

/// Why a run is refused. Texts name the file that is meant.
#[derive(Drop)]
pub enum Refusal {
    Usage(WrongWord),
    Words,
    Files(Fault),
    /// A file, or shard files, and why they are refused.
    Named(String, Reason),
    NoLock(String, io::Error),
    NoNumber(u32, u32),
    Unprinted(String, io::Error),
}

/// Why a file is refused, or shard files are.
#[derive(Clone, Copy)]
pub enum Reason {
    Busy,
    Changed,
    Beyond,
    Unsound,
    Lost,
    Stays,
    Strays,
    Holes,
}

impl Reason {
    fn text(self) -> &'static str {
        match self {
            Reason::Busy => "another run is splitting it",
            Reason::Changed => "changed while it was read",
            Reason::Beyond => "has the name of a shard beyond these: move it away first",
            Reason::Unsound => "not all shards are there and fit",
            Reason::Lost => "the file cannot be restored",
            Reason::Stays => "shard files that do not fit stay: repair --force replaces them",
            Reason::Strays =>
                "files that do not fit stay, and repair --force replaces none of them",
            Reason::Holes => "some bytes cannot be restored, and are zeros",
        }
    }
}

impl fmt::Display for Refusal {
    fn fmt<W: fmt::Write>(&self, f: &mut fmt::Formatter<W>) -> fmt::Result {
        match self {
            Refusal::Usage(wrong) => write!(f, "{wrong}"),
            Refusal::Words => f.write_str(
                "refused: a word is no UTF-8 text: give the file such a name, or a link to it \
                (ln -s), and call it by this",
            ),
            Refusal::Files(fault) => write!(f, "{fault}"),
            Refusal::Named(name, reason) => {
                let why = reason.text();
                write!(f, "refused: {name}: {why}")
            }
            Refusal::NoLock(name, error) => write!(
                f,
                "refused: {name}: the file system has no locks, by which files of runs that go on \
                are told: {error}"
            ),
            Refusal::NoNumber(number, total) => write!(
                f,
                "refused: {number} is no number of a shard: there are {total}, from 0 on"
            ),
            Refusal::Unprinted(name, error) => write!(
                f,
                "refused: the root is not printed: shardfile root {name} prints what its shard \
                files claim: {error}"
            ),
        }
    }
}

/// As its text: a derived form has an arm for each kind, which is dear to prove.
impl fmt::Debug for Refusal {
    fn fmt<W: fmt::Write>(&self, f: &mut fmt::Formatter<W>) -> fmt::Result {
        write!(f, "{self}")
    }
}

impl Refusal {
    /// The status of a run that it ends. One that judges shard files, as `check` and `repair` do,
    /// has others than other runs.
    pub fn status(&self, is_judging: bool) -> Status
        ensures judged { is_judging ≡ true → result ≡ judged self.now }
        ensures refused { is_judging ≡ false → result ≡ refused self.now }
    {
        match self {
            Refusal::Usage(_) => Status::Usage,
            _ if !is_judging => Status::Refused,
            Refusal::Named(_, Reason::Unsound | Reason::Stays | Reason::Strays) => Status::Refused,
            Refusal::Named(_, Reason::Lost) => Status::Lost,
            Refusal::Files(fault) => status_of(fault),
            _ => Status::Unknown,
        }
    }
}

/// The status of a run that judges shard files and that this fault of them ends.
fn status_of(fault: &Fault) -> Status
    ensures { result ≡ judged_files fault.now }
{
    match fault {
        Fault::NoShard(_) | Fault::IsShard(..) | Fault::Length(_) => Status::Lost,
        Fault::TooFew(..) | Fault::Block(..) | Fault::BlockRoot(_) => Status::Lost,
        Fault::NoRoot(..) | Fault::NoPaths(_) => Status::Lost,
        _ => Status::Unknown,
    }
}

impl From<WordsFault> for Refusal {
    fn from(fault: WordsFault) -> Refusal {
        match fault {
            WordsFault::Memory(e) => Refusal::from(e),
            WordsFault::Word(wrong) => Refusal::Usage(wrong),
        }
    }
}

impl From<Fault> for Refusal {
    fn from(fault: Fault) -> Refusal {
        Refusal::Files(fault)
    }
}

impl From<FileFault> for Refusal {
    fn from(fault: FileFault) -> Refusal {
        Refusal::Files(Fault::from(fault))
    }
}

impl From<AllocError> for Refusal {
    fn from(e: AllocError) -> Refusal {
        Refusal::Files(Fault::from(e))
    }
}

impl<T: Drop> From<AllocFailed<T>> for Refusal {
    fn from(_e: AllocFailed<T>) -> Refusal {
        Refusal::Files(Fault::from(AllocError))
    }
}

impl From<io::Error> for Refusal {
    fn from(e: io::Error) -> Refusal {
        Refusal::Files(Fault::from(e))
    }
}
