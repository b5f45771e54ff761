//! The partial files that stopped and refused runs left.

use crate::refusal::Refusal;
use partial_files::fault::{Fault as FileFault, copy_of, name_error};
use partial_files::names::{first_of_run, is_partial_name};
use shard_files::fault::Fault;
use std::alloc::{AllocError, Global};
use std::fs::{TryLockError, read_dir};
use std::io::ErrorKind;
use std::{fs, io};

/// What the system answers where the file system has no locks: none, no such call, or not of such a
/// file.
const NO_LOCKS: [i32; 3] = [37, 38, 95];

/// Removes the partial files in the folder that belong to no run that goes on, and names each on
/// standard output; so it names those that stay.
///
/// A run holds a lock on its first partial file as long as it has one. It refuses where the file
/// system has no locks, or does not say whether there is one.
pub fn clean(rt: &HostRuntime, folder: &str) -> Result<(), Refusal> {
    for name in &partial_names(rt, folder)? {
        clean_file(rt, folder, name.as_str())?;
    }
    Ok(())
}

/// Removes the partial file with this name in the folder, where its run does not go on, or says
/// that it stays.
fn clean_file(rt: &HostRuntime, folder: &str, name: &str) -> Result<(), Refusal> {
    let path = format!(in rt.alloc(); "{folder}/{name}")?;
    let Ok(metadata) = fs::symlink_metadata(rt, path.as_str()) else {
        return Ok(());
    };
    if !metadata.is_file() {
        return Ok(());
    }
    let first = first_of_run(rt.alloc(), folder, name)?;
    if is_free(rt, first.as_str())? && is_free(rt, path.as_str())? {
        remove(rt, path.as_str())?;
        println!(rt; "{path}: removed")?;
    } else {
        println!(rt; "{path}: stays, since its run goes on")?;
    }
    Ok(())
}

/// The names of the partial files in the folder, in order.
fn partial_names(rt: &HostRuntime, folder: &str) -> Result<Vec<String>, Fault> {
    let mut names = Vec::new(rt.alloc());
    let entries = match read_dir(rt, folder) {
        Ok(entries) => entries,
        Err(error) => return Err(Fault::Folder(copy_of(rt.alloc(), folder)?, error)),
    };
    for entry in entries {
        match entry {
            Ok(entry) => {
                if is_partial_name(entry.file_name()) {
                    names.push(copy_of(rt.alloc(), entry.file_name())?)?;
                }
            }
            // A name that is no text is not a partial file's.
            Err(error) if error.kind() == ErrorKind::InvalidFilename => {}
            Err(error) => return Err(Fault::Folder(copy_of(rt.alloc(), folder)?, error)),
        }
    }
    names.sort()?;
    Ok(names)
}

/// Whether no run holds a lock on the file with this name, or no regular file has it: opening
/// another one might wait without end.
fn is_free(rt: &HostRuntime, path: &str) -> Result<bool, Refusal> {
    if fs::symlink_metadata(rt, path).is_ok_and(|metadata| !metadata.is_file()) {
        return Ok(true);
    }
    let file = match fs::open(rt, path) {
        Err(error) if error.kind() == ErrorKind::NotFound => return Ok(true),
        file => name_error(rt.alloc(), path, file)?,
    };
    match file.try_lock() {
        Ok(()) => Ok(true),
        Err(TryLockError::WouldBlock) => Ok(false),
        Err(TryLockError::Error(error)) => Err(lock_refusal(rt.alloc(), path, error)?),
    }
}

/// Why the file with this name is refused of which the system does not say whether there is a lock.
fn lock_refusal(alloc: Global, path: &str, error: io::Error) -> Result<Refusal, AllocError> {
    let path = copy_of(alloc, path)?;
    if has_no_locks(&error) {
        return Ok(Refusal::NoLock(path, error));
    }
    Ok(Refusal::from(FileFault::File(path, error)))
}

/// Whether the error says that the file system has no locks.
fn has_no_locks(error: &io::Error) -> bool {
    error
        .raw_os_error()
        .is_some_and(|code| NO_LOCKS.contains(&code))
}

/// Removes the file, where another run has not.
fn remove(rt: &HostRuntime, path: &str) -> Result<(), FileFault> {
    match fs::remove_file(rt, path) {
        Err(error) if error.kind() == ErrorKind::NotFound => Ok(()),
        removed => name_error(rt.alloc(), path, removed),
    }
}
