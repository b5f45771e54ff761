//! Files that may be shard files, and what their headers say.

use crate::fault::Fault;
use math_codec::codec::{self, Read};
use partial_files::fault::{Fault as FileFault, copy_of};
use partial_files::identity::{Identity, check_no_input};
use partial_files::rights::rights_of;
use shard_format::header::{Header, LARGEST_HEADER};
use std::alloc::{AllocError, Global};
use std::fs::{self, File, Metadata};
use std::io;
use std::os::unix::fs::FileExt;

/// How many shard files are kept open at once, at most. Others are opened again for each block.
pub const MOST_KEPT_OPEN: usize = 24;

/// What is wrong with a file that begins as a shard file does.
const ANOTHER_VERSION: &str = "has a header of another version";

const ANOTHER_FINGERPRINT: &str = "has a header that does not fit its fingerprint";

const DAMAGED_HEADER: &str = "has a damaged header";

pub const IMPOSSIBLE_HEADER: &str = "has a header with numbers of no split";

/// A file that can be read, and what is known of it.
#[derive(Drop)]
pub struct Source {
    /// The open file, where it is kept open.
    file: Option<File>,
    pub header: Header,
    pub metadata: Metadata,
}

/// A file that may hold shards.
#[derive(Drop)]
pub struct ShardFile {
    /// The number in its name; where any name is taken, that of its header, where this is of the
    /// split.
    pub number: Option<u32>,
    /// Its name.
    pub name: String,
    /// The file, where it has a header that belongs to the split.
    pub source: Option<Source>,
    /// What is wrong with all of it.
    pub fault: Option<&'static str>,
    /// In how many blocks its shard is not used, and the first of them.
    pub lost: u64,
    pub first_lost: u64,
    /// What is wrong with the first of them.
    pub why: &'static str,
    /// In how many blocks its shard is used though something is wrong with it, the first of them,
    /// and what.
    pub flawed: u64,
    pub first_flawed: u64,
    pub flaw: &'static str,
    /// Whether a file that is being written takes its place.
    pub is_replaced: bool,
}

impl ShardFile {
    /// The file with this name, which is to be that of the shards with this number, where one is
    /// given. It stays open where it is to be kept so.
    pub fn open(
        rt: &HostRuntime,
        name: String,
        number: Option<u32>,
        is_kept: bool,
    ) -> Result<ShardFile, Fault> {
        let (own, source, fault) = match open_source(rt, name.as_str(), is_kept)? {
            Ok(source) => (Some(source.header.index), Some(source), None),
            Err(fault) => (None, None, Some(fault)),
        };
        Ok(ShardFile {
            number: number.or(own),
            name,
            source,
            fault,
            lost: 0,
            first_lost: 0,
            why: "",
            flawed: 0,
            first_flawed: 0,
            flaw: "",
            is_replaced: false,
        })
    }

    /// Whether it is a file of the split.
    pub fn is_used(&self) -> bool {
        self.source.is_some()
    }

    /// Its header, where it is a file of the split.
    pub fn header(&self) -> Option<Header> {
        let source = self.source.as_ref()?;
        Some(source.header)
    }

    /// The rights that it gives, where it is a file of the split.
    pub fn rights(&self) -> Option<u32> {
        let source = self.source.as_ref()?;
        Some(rights_of(&source.metadata))
    }

    /// Whether nothing was found wrong with it.
    pub fn is_sound(&self) -> bool {
        self.fault.is_none() && self.lost == 0 && self.flawed == 0
    }

    /// Leaves the file out of the split.
    pub fn leave_out(&mut self, fault: &'static str) {
        self.source = None;
        self.fault = Some(fault);
    }

    /// Notes that its shard of a block is not used.
    pub fn add_lost_block(&mut self, block: u64, why: &'static str) {
        if self.lost == 0 {
            self.first_lost = block;
            self.why = why;
        }
        self.lost = self.lost.saturating_add(1);
    }

    /// Notes that its shard of a block is used, though something is wrong with it.
    pub fn add_flawed_block(&mut self, block: u64, flaw: &'static str) {
        if self.flawed == 0 {
            self.first_flawed = block;
            self.flaw = flaw;
        }
        self.flawed = self.flawed.saturating_add(1);
    }

    /// Notes what is wrong with all of it, where nothing was noted yet. Its shards are used.
    pub fn note(&mut self, fault: &'static str) {
        if self.fault.is_none() {
            self.fault = Some(fault);
        }
    }

    /// Reads as many bytes as the buffer has, from there on, and says whether they are there and
    /// could be read.
    pub fn read(&self, rt: &HostRuntime, at: u64, buffer: &mut [u8]) -> Result<bool, Fault> {
        let Some(source) = &self.source else {
            return Ok(false);
        };
        if at.saturating_add(buffer.len() as u64) > source.metadata.len() {
            return Ok(false);
        }
        if let Some(file) = &source.file {
            return Ok(fill_from(file, at, buffer));
        }
        match open_file(rt, self.name.as_str())? {
            Some(file) => Ok(fill_from(&file, at, buffer)),
            None => Ok(false),
        }
    }
}

/// The open file, where it can be opened. It refuses where the system has no room for it.
fn open_file(rt: &HostRuntime, name: &str) -> Result<Option<File>, FileFault> {
    match fs::open(rt, name) {
        Ok(file) => Ok(Some(file)),
        Err(error) if is_want_of_room(&error) => {
            Err(FileFault::File(copy_of(rt.alloc(), name)?, error))
        }
        Err(_) => Ok(None),
    }
}

/// Whether the error says that memory ran out, or that the system has no room for one more open
/// file.
pub fn is_want_of_room(error: &io::Error) -> bool {
    if error.kind() == io::ErrorKind::OutOfMemory {
        return true;
    }
    // No memory, or too many open, of all programs or of this one.
    matches!(error.raw_os_error(), Some(12 | 23 | 24))
}

/// Reads as many bytes of a file as the buffer has, from there on, and says whether it could.
fn fill_from(file: &File, at: u64, buffer: &mut [u8]) -> bool {
    file.read_exact_at(buffer, at).is_ok()
}

/// The file and its header, or what is wrong. It stays open where it is to be kept so.
fn open_source(
    rt: &HostRuntime,
    name: &str,
    is_kept: bool,
) -> Result<Result<Source, &'static str>, FileFault> {
    let Ok(metadata) = fs::metadata(rt, name) else {
        return Ok(Err("cannot be looked at"));
    };
    if !metadata.is_file() {
        return Ok(Err("is not a regular file"));
    }
    let Some(file) = open_file(rt, name)? else {
        return Ok(Err("cannot be opened"));
    };
    let mut bytes = [0u8; LARGEST_HEADER];
    let size = metadata.len().min(LARGEST_HEADER as u64) as usize;
    if !fill_from(&file, 0, &mut bytes[..size]) {
        return Ok(Err("cannot be read"));
    }
    match read_header(rt.alloc(), &bytes[..size])? {
        Ok(header) => Ok(Ok(Source {
            file: is_kept.then_some(file),
            header,
            metadata,
        })),
        Err(why) => Ok(Err(why)),
    }
}

/// The header that the bytes begin with, or what is wrong with them.
fn read_header(alloc: Global, bytes: &[u8]) -> Result<Result<Header, &'static str>, AllocError> {
    let mut rest = bytes;
    match Header::read_cfg(alloc, &mut rest, &()) {
        Ok(header) => Ok(Ok(header)),
        Err(codec::Error::Memory(error)) => Err(error),
        Err(error) => Ok(Err(what_is_wrong(error))),
    }
}

/// What is wrong with the header of a file, of which reading ends with this.
fn what_is_wrong(error: codec::Error) -> &'static str {
    match error {
        codec::Error::EndOfBuffer => "has no whole header",
        codec::Error::Invalid(_, "mark") => "has no header of a shard file",
        codec::Error::Invalid(_, "version") => ANOTHER_VERSION,
        codec::Error::Invalid(_, "number") => IMPOSSIBLE_HEADER,
        codec::Error::Invalid(_, "fingerprint") => ANOTHER_FINGERPRINT,
        _ => DAMAGED_HEADER,
    }
}

/// Whether a regular file with this name begins as a shard file does, of any split, whole or not.
pub fn is_shard_file(rt: &HostRuntime, name: &str) -> Result<bool, FileFault> {
    match open_source(rt, name, false)? {
        Ok(_) => Ok(true),
        Err(why) => Ok(matches!(
            why,
            ANOTHER_VERSION | ANOTHER_FINGERPRINT | DAMAGED_HEADER | IMPOSSIBLE_HEADER
        )),
    }
}

/// Refuses where the name is that of one of the files, also under another name, or of any shard
/// file.
pub fn check_no_source(rt: &HostRuntime, out: &str, files: &[ShardFile]) -> Result<(), FileFault> {
    if fs::symlink_metadata(rt, out).is_err() {
        return Ok(());
    }
    if is_shard_file(rt, out)? {
        return Err(FileFault::Input(copy_of(rt.alloc(), out)?));
    }
    for shard in files {
        if let Some(input) = Identity::at(rt, shard.name.as_str()) {
            check_no_input(rt, out, input)?;
        }
    }
    Ok(())
}
