//! A file to shard files.

ghost use Rattle.std.specs.Prelude.{◌≡◌, ◌≤◌, IfOk, OnOk};

use crate::progress::Progress;
use crate::refusal::{Reason, Refusal};
use crate::rooting::root_line;
use partial_files::fault::{Fault as FileFault, copy_of, name_error};
use partial_files::identity::{Identity, check_no_input};
use partial_files::names::name_of;
use partial_files::partial::Manner;
use partial_files::rights::rights_of;
use shard_files::fault::Fault;
use shard_files::names::shard_name;
use shard_files::split::Split;
use shard_files::wanted::numbers_there;
use shard_writing::writer::{Known, ShardWriter};
use std::alloc::{AllocError, Global};
use std::fs::{self, File, Metadata, TryLockError};
use std::io::{self, ErrorKind, Input, Read};

/// The rights that the shard files of a stream give at most: to read and write.
const STREAM_RIGHTS: u32 = 0o666;

/// Nothing is known of a block that is split.
const UNKNOWN: Known = Known {
    mask: None,
    root: None,
};

/// What is to be split: any `min` of `total` shard files give it back.
#[derive(Clone, Copy)]
pub struct Order<'a> {
    pub min: u32,
    pub total: u32,
    /// The name of the file, or what the shard files of a stream are called.
    pub name: &'a str,
    /// The folder that the shard files are written into, where it is not that of the name.
    pub to: Option<&'a str>,
    /// Whether files that are there are replaced.
    pub force: bool,
    /// Whether records have paths, and the root is printed.
    pub has_root: bool,
    pub ghost some: { 1 ≤ min },
    pub ghost within: { min ≤ total },
}

/// Writes the shard files of a file: beside it, or into the folder that is given.
///
/// It refuses, beside what the system refuses, where the file is no regular one, changes meanwhile
/// or is being split by another run, where a shard file is there already and is not to be replaced,
/// and where one is there with a number of `total` or more. Then no new shard file is there. Where
/// it refuses while it names them, those stay that have their names, and so do the others, without.
pub fn split(rt: &HostRuntime, order: &Order) -> Result<(), Refusal> {
    let (mut source, metadata) = open_source(rt, order.name)?;
    let target = target_of(rt.alloc(), order.name, order.to)?;
    let split = Split::draw(rt, order.min, order.total, metadata.len(), order.has_root)?;
    let how = Manner::new(rt, order.force, rights_of(&metadata))?;
    let input = Some(Identity::new(&metadata));
    let mut files = new_files(rt, target.as_str(), input, &split, how)?;
    match write_blocks(rt, &mut source, order.name, &mut files) {
        Ok(()) => finish(rt, files, target),
        Err(refusal) => {
            files.discard(rt);
            Err(refusal)
        }
    }
}

/// Gives the files their names, and prints the root of the file where there is one. Files that have
/// their names stay, though the root is not printed.
fn finish(rt: &HostRuntime, files: ShardWriter, target: String) -> Result<(), Refusal>
    requires { files.left ≡ 0 }
{
    let Some(root) = files.finish(rt)? else {
        return Ok(());
    };
    let printed = match root_line(rt.alloc(), &root) {
        Ok(line) => print_line(rt, line.as_str()),
        Err(_) => Err(io::Error::from(ErrorKind::OutOfMemory)),
    };
    match printed {
        Ok(()) => Ok(()),
        Err(error) => Err(Refusal::Unprinted(target, error)),
    }
}

/// Writes the line to standard output.
fn print_line(rt: &HostRuntime, line: &str) -> io::Result<()> {
    println!(rt; "{line}")
}

/// Writes the shard files of what standard input gives, as `split` does of a file.
pub fn split_stream(rt: &HostRuntime, order: &Order) -> Result<(), Refusal> {
    let target = target_of(rt.alloc(), order.name, order.to)?;
    let split = Split::draw(rt, order.min, order.total, 0, order.has_root)?;
    let how = Manner::new(rt, order.force, STREAM_RIGHTS)?;
    // The first block is read before any file is opened, which could get the number of a standard
    // input that is closed.
    let mut source = rt.reader();
    let mut bytes = Vec::new(rt.alloc());
    read_block(rt.alloc(), &mut source, split.header.block, &mut bytes)?;
    let input = Identity::at(rt, "/dev/stdin");
    let mut files = new_files(rt, target.as_str(), input, &split, how)?;
    match write_stream(rt, &mut source, &mut bytes, &mut files) {
        Ok(()) => finish(rt, files, target),
        Err(fault) => {
            files.discard(rt);
            Err(Refusal::Files(fault))
        }
    }
}

/// The name that the shard files have before their numbers: that of the file, in its folder or in
/// another one.
fn target_of(alloc: Global, file: &str, to: Option<&str>) -> Result<String, AllocError> {
    let Some(folder) = to else {
        return copy_of(alloc, file);
    };
    format!(in alloc; "{folder}/{}", name_of(file))
}

/// The regular file with this name, which no other run is splitting, and what the system says of
/// it.
fn open_source(rt: &HostRuntime, file: &str) -> Result<(File, Metadata), Refusal> {
    let metadata = name_error(rt.alloc(), file, fs::metadata(rt, file))?;
    if !metadata.is_file() {
        let name = copy_of(rt.alloc(), file)?;
        return Err(Refusal::from(FileFault::NotRegular(name)));
    }
    let source = name_error(rt.alloc(), file, fs::open(rt, file))?;
    // Where the system has no locks, there is none.
    match source.try_lock() {
        Err(TryLockError::WouldBlock) => Err(Refusal::Named(
            copy_of(rt.alloc(), file)?,
            Reason::Busy,
        )),
        _ => Ok((source, metadata)),
    }
}

/// Refuses where a shard file of the file is there with a number of `total` or more, which these
/// would not replace.
fn check_beyond(rt: &HostRuntime, file: &str, total: u32) -> Result<(), Refusal> {
    match numbers_there(rt, file)?.last() {
        Some(number) if *number >= total => {
            Err(Refusal::Named(shard_name(rt.alloc(), file, *number)?, Reason::Beyond))
        }
        _ => Ok(()),
    }
}

/// Writes the shards of each block of the file.
fn write_blocks(
    rt: &HostRuntime,
    source: &mut File,
    file: &str,
    files: &mut ShardWriter,
) -> Result<(), Refusal>
    ensures { OnOk result (files.new.left ≡ 0) }
{
    let mut progress = Progress::new(rt, files.left);
    let mut bytes = Vec::new(rt.alloc());
    while files.left > 0 {
        let size = files.left.min(u64::from(files.split.header.block));
        bytes.resize(size as usize, 0)?;
        read_next(rt.alloc(), source, file, &mut bytes)?;
        files.write(rt, &bytes, UNKNOWN)?;
        progress.print_percentage(rt, files.left);
    }
    check_end(rt.alloc(), source, file)
}

/// Writes the shards of the block, and of each further one that standard input gives.
fn write_stream<R: Read>(
    rt: &HostRuntime,
    source: &mut R,
    bytes: &mut Vec<u8>,
    files: &mut ShardWriter,
) -> Result<(), Fault>
    requires { files.old.left ≡ 0 }
    ensures { OnOk result (files.new.left ≡ 0) }
{
    for _block in 0..u64::MAX {
        if bytes.is_empty() {
            return Ok(());
        }
        files.lengthen(bytes.len() as u64)?;
        files.write(rt, bytes, UNKNOWN)?;
        let size = files.split.header.block;
        if bytes.len() < size as usize {
            return Ok(());
        }
        read_block(rt.alloc(), source, size, bytes)?;
    }
    Err(Fault::Cells)
}

/// Reads the next block of standard input in place of the bytes: of this size, or what is left.
fn read_block<R: Read>(
    alloc: Global,
    source: &mut R,
    size: u32,
    bytes: &mut Vec<u8>,
) -> Result<(), FileFault> {
    bytes.resize(size as usize, 0)?;
    let count = fill(alloc, source, bytes)?;
    bytes.truncate(count);
    Ok(())
}

/// Fills the buffer with what standard input gives next, as far as there is so much, and gives how
/// many bytes these are.
fn fill<R: Read>(alloc: Global, source: &mut R, buffer: &mut [u8]) -> Result<usize, FileFault> {
    let mut count = 0;
    for _turn in 0..u64::MAX {
        if count >= buffer.len() {
            return Ok(count);
        }
        match source.read(&mut buffer[count..]) {
            Ok(0) => return Ok(count),
            Ok(more) => count += more,
            Err(error) if error.kind() == ErrorKind::Interrupted => {}
            Err(error) => return Err(FileFault::File(copy_of(alloc, "standard input")?, error)),
        }
    }
    Ok(count)
}

/// New shard files, of which none is the input. It refuses where one is there with a number beyond
/// these.
fn new_files(
    rt: &HostRuntime,
    target: &str,
    input: Option<Identity>,
    split: &Split,
    how: Manner,
) -> Result<ShardWriter, Refusal>
    ensures { IfOk result (λ files. files.left ≡ split.now.header.length) }
{
    check_beyond(rt, target, split.header.total)?;
    let mut files = ShardWriter::new(rt.alloc(), split, how, target)?;
    match add_all(rt, target, input, &mut files) {
        Ok(()) => Ok(files),
        Err(fault) => {
            files.discard(rt);
            Err(Refusal::Files(fault))
        }
    }
}

/// Adds a file for each index.
fn add_all(
    rt: &HostRuntime,
    target: &str,
    input: Option<Identity>,
    files: &mut ShardWriter,
) -> Result<(), Fault>
    ensures { files.new.left ≡ files.old.left }
{
    for index in 0..files.split.header.total {
        let name = shard_name(rt.alloc(), target, index)?;
        if let Some(input) = input {
            check_no_input(rt, name.as_str(), input)?;
        }
        files.add(rt, name, index, files.split.header.keys)?;
    }
    Ok(())
}

/// Fills the buffer with the next bytes of the file.
fn read_next(
    alloc: Global,
    source: &mut File,
    file: &str,
    buffer: &mut [u8],
) -> Result<(), Refusal> {
    match source.read_exact(buffer) {
        Err(error) if error.kind() == ErrorKind::UnexpectedEof => {
            Err(Refusal::Named(copy_of(alloc, file)?, Reason::Changed))
        }
        read => Ok(name_error(alloc, file, read)?),
    }
}

/// Refuses where the file goes on after what was read.
fn check_end(alloc: Global, source: &mut File, file: &str) -> Result<(), Refusal> {
    if name_error(alloc, file, source.read(&mut [0u8; 1]))? > 0 {
        return Err(Refusal::Named(copy_of(alloc, file)?, Reason::Changed));
    }
    Ok(())
}
