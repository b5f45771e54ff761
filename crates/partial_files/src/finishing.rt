//! The final names of all files of a run.

ghost use Rattle.std.specs.Prelude.{◌<◌, length};

use crate::fault::Fault;
use crate::names::folder_of;
use crate::partial::Partial;
use std::alloc::{AllocError, Global};
use std::fs;
use std::io::ErrorKind;

/// The folders of the files, each once where files of one folder stand together.
pub fn folders_of(alloc: Global, partials: &[Partial]) -> Result<Vec<String>, AllocError> {
    let mut folders: Vec<String> = Vec::new(alloc);
    for partial in partials {
        let folder = folder_of(alloc, partial.path.as_str())?;
        if folders
            .last()
            .is_none_or(|last| last.as_str() != folder.as_str())
        {
            folders.push(folder)?;
        }
    }
    Ok(folders)
}

/// Removes the files, where they have not their final names yet.
pub fn remove_all(rt: &HostRuntime, partials: &[Partial]) {
    for partial in partials {
        partial.remove(rt);
    }
}

/// Gives the files their final names, the first one last, and has the system write their folders to
/// the device. Where a name cannot be given, and no file has its own yet, all are removed; else
/// those without one are told on standard error. Where second names stay it refuses at the end.
///
/// The folders are those that `folders_of` gives: no memory is taken once a file has its name.
pub fn name_all(rt: &HostRuntime, partials: &[Partial], folders: Vec<String>) -> Result<(), Fault> {
    let mut done = Ok(());
    for place in (0..partials.len()).rev() {
        match partials[place].take_name(rt) {
            Ok(()) => {}
            Err(Fault::SecondNames(error)) => done = Err(Fault::SecondNames(error)),
            Err(fault) => {
                give_up(rt, partials, place);
                return Err(fault);
            }
        }
    }
    for folder in folders {
        sync_folder(rt, folder)?;
    }
    done
}

/// Removes the files where the one at this place, of which the name cannot be given, is the last,
/// so that none has its own; else tells those without one on standard error.
fn give_up(rt: &HostRuntime, partials: &[Partial], place: usize)
    requires { place < length partials.now }
{
    if place + 1 == partials.len() {
        remove_all(rt, partials);
    } else {
        print_unnamed(rt, &partials[..place + 1]);
    }
}

/// Says on standard error of each file which final name it has not, but where it is gone.
fn print_unnamed(rt: &HostRuntime, partials: &[Partial]) {
    for partial in partials {
        let (beside, path) = (partial.beside.as_str(), partial.path.as_str());
        if !is_gone(rt, beside) {
            let _told = eprintln!(rt; "{beside}: is {path}, without its name");
        }
    }
}

/// Whether the system says that nothing has the name.
fn is_gone(rt: &HostRuntime, path: &str) -> bool {
    match fs::symlink_metadata(rt, path) {
        Ok(_) => false,
        Err(error) => error.kind() == ErrorKind::NotFound,
    }
}

/// Has the system write the folder to the device, where it opens folders and does so.
fn sync_folder(rt: &HostRuntime, folder: String) -> Result<(), Fault> {
    let Ok(open) = fs::open(rt, folder.as_str()) else {
        return Ok(());
    };
    match open.sync_all() {
        Err(error) if error.kind() != ErrorKind::InvalidInput => Err(Fault::File(folder, error)),
        _ => Ok(()),
    }
}
