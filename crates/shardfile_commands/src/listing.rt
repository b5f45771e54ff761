//! What is said of shard files, a line each.

use shard_files::sources::ShardFile;
use shard_files::wanted::WantedFiles;
use std::alloc::{AllocError, Global};

/// What is to be said of a shard file.
pub fn line_of(alloc: Global, file: &ShardFile) -> Result<String, AllocError> {
    let name = &file.name;
    if file.lost > 0 {
        let (lost, first, why) = (file.lost, file.first_lost, file.why);
        return format!(in alloc;
            "{name}: left out of {lost} blocks, first of block {first}: {why}"
        );
    }
    if file.flawed > 0 {
        let (flawed, first, flaw) = (file.flawed, file.first_flawed, file.flaw);
        return format!(in alloc;
            "{name}: used in {flawed} blocks, first in block {first}, though {flaw}"
        );
    }
    match file.fault {
        Some(fault) => format!(in alloc; "{name}: {fault}"),
        None => format!(in alloc; "{name}: fits"),
    }
}

/// Names on standard error each file with which something is wrong.
pub fn print_unsound(rt: &HostRuntime, files: &[ShardFile]) -> Result<(), AllocError> {
    for shard in files {
        if !shard.is_sound() {
            let line = line_of(rt.alloc(), shard)?;
            let _told = eprintln!(rt; "{line}");
        }
    }
    Ok(())
}

/// Adds a line for each file with which something is wrong.
pub fn list_unsound(
    alloc: Global,
    files: &[ShardFile],
    text: &mut String,
) -> Result<(), AllocError> {
    for shard in files {
        if !shard.is_sound() {
            writeln!(text, "{}", line_of(alloc, shard)?)?;
        }
    }
    Ok(())
}

/// Adds a line for each number below the limit that is not there.
fn list_missing(
    alloc: Global,
    wanted: &WantedFiles,
    from: u32,
    limit: u32,
    text: &mut String,
) -> Result<(), AllocError> {
    for number in from..limit {
        writeln!(text, "{}: is not there", wanted.missing(alloc, number)?)?;
    }
    Ok(())
}

/// A line for each of the files, which are in the order of their numbers, and for each shard below
/// the total that none of them has the number of.
pub fn list(
    alloc: Global,
    wanted: &WantedFiles,
    total: u32,
    files: &[ShardFile],
    text: &mut String,
) -> Result<(), AllocError> {
    let mut next = 0u32;
    for shard in files {
        if let Some(number) = shard.number {
            list_missing(alloc, wanted, next, number.min(total), text)?;
            next = number.saturating_add(1);
        }
        writeln!(text, "{}", line_of(alloc, shard)?)?;
    }
    list_missing(alloc, wanted, next, total, text)
}
