//! Which file of the system a name leads to.

use crate::fault::{Fault, copy_of};
use std::fs::{self, Metadata};
use std::os::unix::fs::MetadataExt;

/// Which file of the system it is.
#[derive(Clone, Copy, PartialEq, Eq, PartialOrd, Ord)]
pub struct Identity {
    device: u64,
    node: u64,
}

impl Identity {
    /// The identity of the file that this is said of.
    pub fn new(metadata: &Metadata) -> Identity {
        Identity {
            device: metadata.dev(),
            node: metadata.ino(),
        }
    }

    /// The identity of the file or folder that the name leads to, where there is one.
    pub fn at(rt: &HostRuntime, path: &str) -> Option<Identity> {
        match fs::metadata(rt, path) {
            Ok(metadata) => Some(Identity::new(&metadata)),
            Err(_) => None,
        }
    }
}

/// Refuses where the name is that of a file which is read.
pub fn check_no_input(rt: &HostRuntime, path: &str, input: Identity) -> Result<(), Fault> {
    match fs::symlink_metadata(rt, path) {
        Ok(metadata) if Identity::new(&metadata) == input => {
            Err(Fault::Input(copy_of(rt.alloc(), path)?))
        }
        _ => Ok(()),
    }
}
