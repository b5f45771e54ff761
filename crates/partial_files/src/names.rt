//! The names that files have while they are written.

use crate::fault::copy_of;
use std::alloc::{AllocError, Global};

/// How many files a run writes at most.
pub const MOST_FILES: u32 = 1 << 16;

/// The folder that a file lies in, with a slash at its end.
pub fn folder_of(alloc: Global, file: &str) -> Result<String, AllocError> {
    match file.rsplit_once('/') {
        Some((folder, _)) => format!(in alloc; "{folder}/"),
        None => copy_of(alloc, "./"),
    }
}

/// The name that a file has in its folder.
pub fn name_of(file: &str) -> &str {
    match file.rsplit_once('/') {
        Some((_, name)) => name,
        None => file,
    }
}

/// The folder that a file lies in, with a slash at its end, and its name there.
pub fn folder_and_name(alloc: Global, file: &str) -> Result<(String, String), AllocError> {
    let folder = folder_of(alloc, file)?;
    Ok((folder, copy_of(alloc, name_of(file))?))
}

/// The name that the file with this number of a run has while it is written: in the folder of its
/// final name, with the random number of the run.
pub fn partial_name(
    alloc: Global,
    path: &str,
    run: u64,
    number: usize,
) -> Result<String, AllocError> {
    let folder = folder_of(alloc, path)?;
    format!(in alloc; "{folder}shardfile-{run:016x}-{number}.partial")
}

/// The parts of the name of a partial file that tell its run and its number.
fn parts_of_name(name: &str) -> Option<(&str, &str)> {
    let inner = name.strip_prefix("shardfile-")?.strip_suffix(".partial")?;
    inner.split_once('-')
}

/// Whether the name is one that partial files have, as `partial_name` writes it.
pub fn is_partial_name(name: &str) -> bool {
    let Some((run, number)) = parts_of_name(name) else {
        return false;
    };
    run.len() == 16
        && run
            .bytes()
            .all(|byte| matches!(byte, b'0'..=b'9' | b'a'..=b'f'))
        && is_partial_number(number)
}

/// Whether the digits are a number of one of the files of a run, as it is written: with no zero
/// before it.
fn is_partial_number(digits: &str) -> bool {
    matches!(digits.as_bytes(), [b'0'] | [b'1'..=b'9', ..])
        && matches!(digits.parse::<u32>(), Ok(number) if number < MOST_FILES)
}

/// The name, in the folder, of the first partial file of the run that the one with this name is of.
pub fn first_of_run(alloc: Global, folder: &str, name: &str) -> Result<String, AllocError> {
    let (run, _) = parts_of_name(name).unwrap_or(("", ""));
    format!(in alloc; "{folder}/shardfile-{run}-0.partial")
}
