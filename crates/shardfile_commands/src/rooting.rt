//! The roots of files, in hexadecimal digits.

use crate::listing::print_unsound;
use crate::refusal::Refusal;
use hash_trees::Digest;
use shard_files::roots::claimed_roots;
use shard_files::wanted::WantedFiles;
use std::alloc::{AllocError, Global};

/// The hexadecimal digits of a root.
pub fn root_line(alloc: Global, root: &Digest) -> Result<String, AllocError> {
    let mut line = String::new(alloc);
    for byte in root {
        write!(line, "{byte:02x}")?;
    }
    Ok(line)
}

/// Prints the roots that the shard files claim that are meant, a line each.
pub fn print_roots(rt: &HostRuntime, wanted: &WantedFiles) -> Result<(), Refusal> {
    let mut files = Vec::new(rt.alloc());
    let roots = claimed_roots(rt, wanted, &mut files);
    print_unsound(rt, &files)?;
    for root in &roots? {
        let line = root_line(rt.alloc(), root)?;
        println!(rt; "{line}")?;
    }
    Ok(())
}
