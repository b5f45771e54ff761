//! The rights that files give.

use crate::fault::{Fault, copy_of};
use std::alloc::Global;
use std::fs::{self, File, Metadata, Permissions};
use std::io::{self, ErrorKind};
use std::os::unix::fs::{MetadataExt, PermissionsExt};

/// The rights that a file can give: to read, write and run it, for its owner, its group and all.
const ALL_RIGHTS: u32 = 0o777;

/// The right that a file that is written gives in any case: to its owner, to read it.
const OWNER_READS: u32 = 0o400;

/// The rights that a file gives.
pub fn rights_of(metadata: &Metadata) -> u32 {
    metadata.mode() & ALL_RIGHTS
}

/// The rights that a file may have under the name: those of the regular file that is to be
/// replaced, or all where nothing is there.
///
/// It refuses where something is there that is not to be replaced, or is no regular file.
pub fn rights_at(rt: &HostRuntime, path: &str, force: bool) -> Result<u32, Fault> {
    match fs::symlink_metadata(rt, path) {
        Ok(metadata) => replaced_rights(rt.alloc(), path, &metadata, force),
        Err(error) if error.kind() == ErrorKind::NotFound => Ok(ALL_RIGHTS),
        Err(error) => Err(Fault::File(copy_of(rt.alloc(), path)?, error)),
    }
}

/// The rights of the file that is there, and that is to be replaced.
fn replaced_rights(
    alloc: Global,
    path: &str,
    metadata: &Metadata,
    force: bool,
) -> Result<u32, Fault> {
    if !metadata.is_file() {
        return Err(Fault::NotRegular(copy_of(alloc, path)?));
    }
    if !force {
        return Err(Fault::Exists(copy_of(alloc, path)?));
    }
    Ok(rights_of(metadata))
}

/// Has the system write all of the file to the device, and takes away each right but these, and but
/// that of its owner to read it.
pub fn settle_file(file: &File, rights: u32) -> io::Result<()> {
    let given = rights_of(&file.metadata()?);
    let kept = (given & rights) | OWNER_READS;
    if kept != given {
        file.set_permissions(Permissions::from_mode(kept))?;
    }
    file.sync_all()
}

/// As `settle_file`, for the file that is there.
pub fn settle_at(rt: &HostRuntime, path: &str, rights: u32) -> io::Result<()> {
    settle_file(&fs::open(rt, path)?, rights)
}
