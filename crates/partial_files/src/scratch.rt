//! A file that a run keeps for itself.

use crate::fault::{Fault, name_error};
use crate::partial::{Manner, new_file};
use std::fs::{self, File};
use std::os::unix::fs::FileExt;

/// The rights of the file: its owner's, to read and write it.
const RIGHTS: u32 = 0o600;

/// A file that goes with the run, under the name of a partial file: so one that a stopped run left
/// is known for what it is.
#[derive(Drop)]
pub struct Scratch {
    file: File,
    path: String,
    /// How many bytes it has.
    length: u64,
}

impl Scratch {
    /// A new file in the folder of this name.
    pub fn create(rt: &HostRuntime, beside: &str, how: &Manner) -> Result<Scratch, Fault> {
        let path = how.last_name(rt.alloc(), beside)?;
        let file = new_file(rt, path.as_str(), RIGHTS);
        let file = name_error(rt.alloc(), path.as_str(), file)?;
        // Where the file system has no locks, there is none.
        let _locked = file.try_lock();
        Ok(Scratch {
            file,
            path,
            length: 0,
        })
    }

    /// How many bytes it has.
    pub fn length(&self) -> u64 {
        self.length
    }

    /// Writes the bytes at the end.
    pub fn append(&mut self, rt: &HostRuntime, bytes: &[u8]) -> Result<(), Fault> {
        let written = self.file.write_all_at(bytes, self.length);
        name_error(rt.alloc(), self.path.as_str(), written)?;
        self.length = self.length.saturating_add(bytes.len() as u64);
        Ok(())
    }

    /// Reads as many bytes as the buffer has, from there on.
    pub fn read(&self, rt: &HostRuntime, at: u64, buffer: &mut [u8]) -> Result<(), Fault> {
        let read = self.file.read_exact_at(buffer, at);
        name_error(rt.alloc(), self.path.as_str(), read)
    }

    /// Removes the file.
    pub fn remove(&self, rt: &HostRuntime) {
        let _removed = fs::remove_file(rt, self.path.as_str());
    }
}
