//! One file that is written under another name than its final one.

use crate::fault::{Fault, copy_of, name_error};
use crate::names::{MOST_FILES, partial_name};
use crate::rights::{rights_at, settle_at, settle_file};
use std::alloc::{AllocError, Global};
use std::fs::{self, File, OpenOptions};
use std::io::{self, ErrorKind, Seek};
use std::os::unix::fs::{FileExt, OpenOptionsExt};
use std::random::RandomSource;

/// The rights that the program itself needs to write a file.
const OWN_RIGHTS: u32 = 0o600;

/// What the files that a run writes have in common.
#[derive(Clone, Copy)]
pub struct Manner {
    /// Whether regular files are replaced.
    force: bool,
    /// The rights that they give at most.
    rights: u32,
    /// The random number of the run, in the names that they have while they are written.
    run: u64,
}

impl Manner {
    /// That of a run whose files give these rights at most, with a random number of its own.
    pub fn new(rt: &HostRuntime, force: bool, rights: u32) -> Result<Manner, Fault> {
        let mut run = [0u8; 8];
        rt.fill_bytes(&mut run)?;
        Ok(Manner {
            force,
            rights,
            run: u64::from_le_bytes(run),
        })
    }

    /// The last name of a partial file of the run, in the folder of this one. Other files of the
    /// run have it only where there are as many as a run writes.
    pub(crate) fn last_name(&self, alloc: Global, beside: &str) -> Result<String, AllocError> {
        partial_name(alloc, beside, self.run, MOST_FILES as usize - 1)
    }
}

/// A file that is written in the folder of its final name, under a name that no other run has.
///
/// It is locked, where the file system has locks, as long as it is kept open. The first file of a
/// run is kept open to the end, and has its final name last: its lock says that the run goes on.
#[derive(Drop)]
pub struct Partial {
    /// The open file, where it is kept open.
    file: Option<File>,
    /// Its final name, and the one that it has before.
    pub path: String,
    pub beside: String,
    force: bool,
    rights: u32,
}

impl Partial {
    /// A new file in the folder of the name, which has to be free, or with `force` that of a
    /// regular file. Meanwhile it gives no right but to its owner beyond those that it may give in
    /// the end.
    pub fn create(
        rt: &HostRuntime,
        path: String,
        how: &Manner,
        number: usize,
    ) -> Result<Partial, Fault> {
        let rights = how.rights & rights_at(rt, path.as_str(), how.force)?;
        let beside = partial_name(rt.alloc(), path.as_str(), how.run, number)?;
        let file = match new_file(rt, beside.as_str(), rights | OWN_RIGHTS) {
            Ok(file) => file,
            Err(error) => return Err(Fault::File(path, error)),
        };
        // Where the file system has no locks, there is none.
        let _locked = file.try_lock();
        Ok(Partial {
            file: Some(file),
            path,
            beside,
            force: how.force,
            rights,
        })
    }

    /// What the system answers of it. A fault has its final name.
    fn answer(&self, alloc: Global, answer: io::Result<()>) -> Result<(), Fault> {
        name_error(alloc, self.path.as_str(), answer)
    }

    /// Writes the bytes at the end.
    pub fn append(&mut self, rt: &HostRuntime, bytes: &[u8]) -> Result<(), Fault> {
        let written = match &mut self.file {
            Some(file) => io::Write::write_all(file, bytes),
            None => append_to(rt, self.beside.as_str(), bytes),
        };
        self.answer(rt.alloc(), written)
    }

    /// Leaves out so many bytes, which are zeros where more follow.
    pub fn pass_over(&mut self, rt: &HostRuntime, count: u64) -> Result<(), Fault> {
        let passed = match (&mut self.file, i64::try_from(count)) {
            (Some(file), Ok(count)) => file.seek_relative(count),
            _ => Err(io::Error::from(ErrorKind::Unsupported)),
        };
        match passed {
            Err(error) if error.kind() == ErrorKind::InvalidInput => {
                Err(Fault::TooLong(copy_of(rt.alloc(), self.path.as_str())?))
            }
            passed => self.answer(rt.alloc(), passed),
        }
    }

    /// Gives the file this length, where it is shorter since its last bytes were left out.
    pub fn lengthen(&self, rt: &HostRuntime, length: u64) -> Result<(), Fault> {
        let lengthened = match &self.file {
            Some(file) => file.set_len(length),
            None => Err(io::Error::from(ErrorKind::Unsupported)),
        };
        self.answer(rt.alloc(), lengthened)
    }

    /// Writes the bytes over the first ones.
    pub fn write_first(&self, rt: &HostRuntime, bytes: &[u8]) -> Result<(), Fault> {
        let written = match &self.file {
            Some(file) => file.write_all_at(bytes, 0),
            None => write_first_to(rt, self.beside.as_str(), bytes),
        };
        self.answer(rt.alloc(), written)
    }

    /// Closes the file, which is opened again for each write.
    pub fn close(&mut self) {
        self.file = None;
    }

    /// Has the system write all to the device, and takes away the rights that it may not give in
    /// the end. The name is looked at again.
    pub fn settle(&self, rt: &HostRuntime) -> Result<(), Fault> {
        let rights = self.rights & rights_at(rt, self.path.as_str(), self.force)?;
        let settled = match &self.file {
            Some(file) => settle_file(file, rights),
            None => settle_at(rt, self.beside.as_str(), rights),
        };
        self.answer(rt.alloc(), settled)
    }

    /// Gives the file its final name, in place of the file that may be replaced.
    fn rename(&self, rt: &HostRuntime) -> Result<(), Fault> {
        rights_at(rt, self.path.as_str(), self.force)?;
        let renamed = fs::rename(rt, self.beside.as_str(), self.path.as_str());
        self.answer(rt.alloc(), renamed)
    }

    /// Gives the file its final name. Where none may be replaced, this is by a second name, which
    /// the system gives only where nothing is there; by renaming only where it gives no second
    /// names. The fault is `SecondNames` where the file has its final name, and the other one too.
    pub fn take_name(&self, rt: &HostRuntime) -> Result<(), Fault> {
        if self.force {
            return self.rename(rt);
        }
        match fs::hard_link(rt, self.beside.as_str(), self.path.as_str()) {
            Ok(()) => self.remove_second_name(rt),
            Err(error) if error.kind() == ErrorKind::AlreadyExists => {
                Err(Fault::Exists(copy_of(rt.alloc(), self.path.as_str())?))
            }
            Err(_) => self.rename(rt),
        }
    }

    /// Takes from the file that has its final name the one that it had before, or says on standard
    /// error that this stays. No memory is taken.
    fn remove_second_name(&self, rt: &HostRuntime) -> Result<(), Fault> {
        match fs::remove_file(rt, self.beside.as_str()) {
            Err(error) if error.kind() != ErrorKind::NotFound => {
                let (beside, path) = (self.beside.as_str(), self.path.as_str());
                let _told = eprintln!(rt; "{beside}: stays, a second name of {path}");
                Err(Fault::SecondNames(error))
            }
            _ => Ok(()),
        }
    }

    /// Removes the file, where it has not its final name yet.
    pub fn remove(&self, rt: &HostRuntime) {
        let _removed = fs::remove_file(rt, self.beside.as_str());
    }
}

/// A new file with these rights less those that the system takes from every new one. It refuses
/// where anything is there.
pub(crate) fn new_file(rt: &HostRuntime, path: &str, rights: u32) -> io::Result<File> {
    OpenOptions::new()
        .read(true)
        .write(true)
        .create_new(true)
        .mode(rights)
        .open(rt, path)
}

/// Writes the bytes at the end of the file that is there.
fn append_to(rt: &HostRuntime, path: &str, bytes: &[u8]) -> io::Result<()> {
    let mut file = OpenOptions::new().append(true).open(rt, path)?;
    io::Write::write_all(&mut file, bytes)
}

/// Writes the bytes over the first ones of the file that is there.
fn write_first_to(rt: &HostRuntime, path: &str, bytes: &[u8]) -> io::Result<()> {
    let file = OpenOptions::new().write(true).open(rt, path)?;
    file.write_all_at(bytes, 0)
}
