//! Which shard files are meant, and which of these lie in a folder.

use crate::fault::Fault;
use crate::names::{number_in, shard_name};
use partial_files::identity::Identity;
use partial_files::names::folder_and_name;
use std::alloc::{AllocError, Global};
use std::collections::BTreeSet;
use std::fs::read_dir;
use std::io::ErrorKind;

/// Which shard files are meant.
#[derive(Clone, Copy)]
pub enum WantedFiles<'a> {
    /// Those that lie beside the file, under the names of its shards.
    Beside(&'a str),
    /// Those with these names, of whichever shards they are.
    Named(&'a [&'a str]),
}

impl<'a> WantedFiles<'a> {
    /// What refusals call them.
    pub fn label(&self) -> &'a str {
        match self {
            WantedFiles::Beside(file) => file,
            WantedFiles::Named(_) => "these shard files",
        }
    }

    /// What a shard is called that is not there.
    pub fn missing(&self, alloc: Global, number: u32) -> Result<String, AllocError> {
        match self {
            WantedFiles::Beside(file) => shard_name(alloc, file, number),
            WantedFiles::Named(_) => format!(in alloc; "shard {number}"),
        }
    }
}

/// Whether the name is that of a shard of the file, in the file's folder, however each is spelled.
pub fn is_shard_name(rt: &HostRuntime, file: &str, name: &str) -> Result<bool, AllocError> {
    let (folder, last) = folder_and_name(rt.alloc(), file)?;
    let (other, its_last) = folder_and_name(rt.alloc(), name)?;
    let is_numbered = number_in(rt.alloc(), last.as_str(), its_last.as_str())?.is_some();
    Ok(is_numbered && are_one_folder(rt, folder.as_str(), other.as_str()))
}

/// Whether both are names of one folder that is there.
fn are_one_folder(rt: &HostRuntime, folder: &str, other: &str) -> bool {
    match (Identity::at(rt, folder), Identity::at(rt, other)) {
        (Some(one), Some(another)) => one == another,
        _ => false,
    }
}

/// The names, in their order, but those of files that names before them have: the same last names
/// in one folder, however that is spelled. Files that are linked are several.
pub fn distinct<'a>(rt: &HostRuntime, names: &[&'a str]) -> Result<Vec<&'a str>, AllocError> {
    let mut seen = BTreeSet::new(rt.alloc());
    let mut kept = Vec::new(rt.alloc());
    for name in names {
        let (folder, last) = folder_and_name(rt.alloc(), name)?;
        let is_new = match Identity::at(rt, folder.as_str()) {
            Some(folder) => seen.insert((folder, last))?,
            None => true,
        };
        if is_new {
            kept.push(*name)?;
        }
    }
    Ok(kept)
}

/// The numbers of the shards that lie beside the file, in rising order. Other files are passed
/// over.
pub fn numbers_there(rt: &HostRuntime, file: &str) -> Result<Vec<u32>, Fault> {
    let (folder, name) = folder_and_name(rt.alloc(), file)?;
    let mut numbers = Vec::new(rt.alloc());
    let entries = match read_dir(rt, folder.as_str()) {
        Ok(entries) => entries,
        Err(error) => return Err(Fault::Folder(folder, error)),
    };
    for entry in entries {
        match entry {
            Ok(entry) => {
                if let Some(number) = number_in(rt.alloc(), name.as_str(), entry.file_name())? {
                    numbers.push(number)?;
                }
            }
            // A name that is no text is not a shard's.
            Err(error) if error.kind() == ErrorKind::InvalidFilename => {}
            Err(error) => return Err(Fault::Folder(folder, error)),
        }
    }
    numbers.sort_unstable();
    Ok(numbers)
}
