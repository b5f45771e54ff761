//! Shard files that are missing or unsound, from the others.
//!
//! A block that MIN of its shards gave back has one list of shards: so a shard that is made of it
//! anew is the one that was there, byte for byte. Files that are missing are begun before the first
//! block. A file that turns out unsound is begun then, and takes its records of the blocks before
//! from the file itself.

ghost use Rattle.std.specs.Prelude.{◌≡◌, ◌<◌, length, IfOk, IfSome, OnOk};

use crate::listing::print_unsound;
use crate::progress::Progress;
use crate::refusal::{Reason, Refusal};
use hash_trees::Digest;
use partial_files::fault::copy_of;
use partial_files::partial::Manner;
use shard_files::fault::Fault;
use shard_files::gathering::{check_count, first_rights, split_of};
use shard_files::names::shard_name;
use shard_files::roots::{Reading, gather_split};
use shard_files::sources::{ShardFile, check_no_source};
use shard_files::split::{Block, Split};
use shard_files::wanted::WantedFiles;
use shard_fingerprints::Keys;
use shard_format::records::block_size;
use shard_reading::blocks::{BlockReader, FoundBlock, Look};
use shard_writing::writer::{Known, ShardWriter};
use std::alloc::{AllocError, Global};

/// What is to be repaired.
#[derive(Drop)]
pub struct Order<'a> {
    /// The shard files that are there.
    pub wanted: WantedFiles<'a>,
    /// What missing shard files are called, before a point and their numbers.
    pub name: &'a str,
    /// The numbers of the shards that are written; none where all are.
    pub only: Option<Vec<u32>>,
    /// Whether unsound files are replaced.
    pub force: bool,
    /// Whether all shards of a block are compared.
    pub compares_all: bool,
    /// The root of the file, if one is asked for.
    pub root: Option<Digest>,
}

impl<'a> Order<'a> {
    /// Whether the shard with this number is to be written where it is not there or unsound.
    fn is_meant(&self, number: u32) -> bool {
        match &self.only {
            Some(numbers) => numbers.contains(&number),
            None => true,
        }
    }

    /// The number of the shards that are written in place of the file: none where it is sound, or
    /// where it has the place of no shard that is meant.
    fn number_to_replace(&self, file: &ShardFile, total: u32) -> Option<u32>
        ensures { IfSome result (λ number. number < total) }
    {
        if file.is_sound() {
            return None;
        }
        let number = file.number?;
        (number < total && self.is_meant(number)).then_some(number)
    }

    /// Whether the file is unsound and stays, though it is among those that are meant.
    fn is_left(&self, file: &ShardFile) -> bool {
        let is_meant = match file.number {
            Some(number) => self.is_meant(number),
            None => self.only.is_none(),
        };
        is_meant && !file.is_sound() && !file.is_replaced
    }

    /// Whether the file is unsound and stays, and would be replaced where unsound files may be.
    fn is_spared(&self, file: &ShardFile, total: u32) -> bool {
        !file.is_replaced && self.number_to_replace(file, total).is_some()
    }
}

/// Shard files that are written in the places of missing and of unsound ones.
#[derive(Drop)]
struct NewFiles {
    writer: ShardWriter,
    /// The number of the shards of each, and its name.
    names: Vec<(u32, String)>,
}

impl NewFiles {
    /// None, of a split.
    fn new(
        rt: &HostRuntime,
        order: &Order,
        split: &Split,
        files: &[ShardFile],
    ) -> Result<NewFiles, Refusal> {
        let how = Manner::new(rt, order.force, first_rights(files))?;
        Ok(NewFiles {
            writer: ShardWriter::new(rt.alloc(), split, how, order.name)?,
            names: Vec::new(rt.alloc()),
        })
    }

    /// Begins the file with this name, for the shards with this number.
    fn add(&mut self, rt: &HostRuntime, name: &str, number: u32, keys: Keys) -> Result<(), Fault>
        requires { number < self.old.writer.split.header.total }
        ensures { self.new.writer.left ≡ self.old.writer.left }
    {
        self.names.push((number, copy_of(rt.alloc(), name)?))?;
        self.writer
            .add(rt, copy_of(rt.alloc(), name)?, number, keys)
    }

    /// Gives the files their names, and gives the numbers and names, where all was written; else
    /// removes the files.
    fn finish(
        self,
        rt: &HostRuntime,
        written: Result<(), Refusal>,
    ) -> Result<Vec<(u32, String)>, Refusal>
        requires { OnOk written (self.writer.left ≡ 0) }
    {
        let NewFiles { writer, names } = self;
        match written {
            Ok(()) => {
                writer.finish(rt)?;
                Ok(names)
            }
            Err(refusal) => {
                writer.discard(rt);
                Err(refusal)
            }
        }
    }
}

/// Writes the shard files that are missing, and where unsound ones may be replaced, these; names on
/// standard error each unsound file, and each that was written.
///
/// It refuses as `join` does, and then no file is written or replaced. Where unsound files stay it
/// refuses once the others are written.
pub fn repair(rt: &HostRuntime, order: &Order) -> Result<(), Refusal> {
    let mut files = Vec::new(rt.alloc());
    let done = repair_files(rt, order, &mut files);
    print_unsound(rt, &files)?;
    let (total, mut names) = done?;
    names.sort_by_key(|named: &(u32, String)| named.0)?;
    for (_, name) in &names {
        let _told = eprintln!(rt; "{name}: written");
    }
    check_left(rt.alloc(), order, total, &files)
}

/// Refuses where unsound files stay that are among those that are meant.
fn check_left(
    alloc: Global,
    order: &Order,
    total: u32,
    files: &[ShardFile],
) -> Result<(), Refusal> {
    if !files.iter().any(|file| order.is_left(file)) {
        return Ok(());
    }
    let label = copy_of(alloc, order.wanted.label())?;
    if files.iter().any(|file| order.is_spared(file, total)) {
        Err(Refusal::Named(label, Reason::Stays))
    } else {
        Err(Refusal::Named(label, Reason::Strays))
    }
}

/// Writes the files. It answers how many shards there are, and the numbers and names of the files.
fn repair_files(
    rt: &HostRuntime,
    order: &Order,
    files: &mut Vec<ShardFile>,
) -> Result<(u32, Vec<(u32, String)>), Refusal> {
    let mut reader = reader_of(rt, order, files)?;
    let names = write_new(rt, order, &mut reader, files)?;
    Ok((reader.split.header.total, names))
}

/// Writes the files from the blocks that are read. It answers their numbers and names.
fn write_new(
    rt: &HostRuntime,
    order: &Order,
    reader: &mut BlockReader,
    files: &mut [ShardFile],
) -> Result<Vec<(u32, String)>, Refusal> {
    let mut new = NewFiles::new(rt, order, &reader.split, files)?;
    let written = write_files(rt, order, reader, files, &mut new);
    new.finish(rt, written)
}

/// What reads the blocks of the split that the files are of, and that new ones will be. The files
/// are added.
fn reader_of(
    rt: &HostRuntime,
    order: &Order,
    files: &mut Vec<ShardFile>,
) -> Result<BlockReader, Refusal> {
    let reading = Reading {
        root: order.root,
        may_end_before: false,
        compares_pairs: true,
        follows_claim: false,
    };
    let (found, tree) = gather_split(rt, &order.wanted, &reading, files)?;
    let split = split_of_new(rt, order, &found, files)?;
    Ok(BlockReader::new(rt.alloc(), &split, tree, true))
}

/// The split that new files are of, where the files can be repaired. Under a root files may have
/// several pairs of keys: new ones have those of the most.
fn split_of_new(
    rt: &HostRuntime,
    order: &Order,
    found: &Split,
    files: &[ShardFile],
) -> Result<Split, Refusal> {
    check_count(rt.alloc(), &order.wanted, found, files)?;
    check_numbers(order, found.header.total)?;
    if needs_keys(rt.alloc(), order, found, files)? {
        return Ok(split_of(rt, &order.wanted, files)?);
    }
    Ok(*found)
}

/// Whether a file may be written that is not there, or of which no header is known.
fn needs_keys(
    alloc: Global,
    order: &Order,
    split: &Split,
    files: &[ShardFile],
) -> Result<bool, AllocError> {
    let total = split.header.total;
    if !missing_numbers(alloc, order, total, files)?.is_empty() {
        return Ok(true);
    }
    let is_new = |file: &ShardFile| !file.is_used() && order.is_spared(file, total);
    Ok(order.force && files.iter().any(is_new))
}

/// Refuses where a number is given that no shard has.
fn check_numbers(order: &Order, total: u32) -> Result<(), Refusal> {
    if let Some(numbers) = &order.only {
        for number in numbers {
            if *number >= total {
                return Err(Refusal::NoNumber(*number, total));
            }
        }
    }
    Ok(())
}

/// Adds the numbers from one on, below another, that are meant.
fn add_numbers(
    order: &Order,
    from: u32,
    limit: u32,
    missing: &mut Vec<u32>,
) -> Result<(), AllocError> {
    for number in from..limit {
        if order.is_meant(number) {
            missing.push(number)?;
        }
    }
    Ok(())
}

/// The numbers of the shards that are meant and of which no file has the place. The files are in
/// the order of their numbers.
fn missing_numbers(
    alloc: Global,
    order: &Order,
    total: u32,
    files: &[ShardFile],
) -> Result<Vec<u32>, AllocError> {
    let mut missing = Vec::new(alloc);
    let mut next = 0u32;
    for file in files {
        if let Some(number) = file.number {
            add_numbers(order, next, number.min(total), &mut missing)?;
            next = number.saturating_add(1);
        }
    }
    add_numbers(order, next, total, &mut missing)?;
    Ok(missing)
}

/// Begins the files of the shards that are missing.
fn add_missing(
    rt: &HostRuntime,
    order: &Order,
    files: &[ShardFile],
    new: &mut NewFiles,
) -> Result<(), Fault>
    ensures { new.new.writer.left ≡ new.old.writer.left }
{
    let total = new.writer.split.header.total;
    for number in &missing_numbers(rt.alloc(), order, total, files)? {
        if *number < new.writer.split.header.total {
            let name = shard_name(rt.alloc(), order.name, *number)?;
            check_no_source(rt, name.as_str(), files)?;
            let keys = new.writer.split.header.keys;
            new.add(rt, name.as_str(), *number, keys)?;
        }
    }
    Ok(())
}

/// Begins a file in place of each that is unsound and may be replaced, with its records of the
/// blocks before this one.
fn add_unsound(
    rt: &HostRuntime,
    order: &Order,
    files: &mut [ShardFile],
    before: u64,
    reader: &mut BlockReader,
    new: &mut NewFiles,
) -> Result<(), Refusal>
    ensures { new.new.writer.left ≡ new.old.writer.left }
{
    if !order.force {
        return Ok(());
    }
    for file in files.iter_mut().filter(|file| !file.is_replaced) {
        if let Some(number) = order.number_to_replace(file, new.writer.split.header.total) {
            file.is_replaced = true;
            let own = file.header().map(|header| header.keys);
            let keys = own.unwrap_or(new.writer.split.header.keys);
            new.add(rt, file.name.as_str(), number, keys)?;
            copy_records(rt, file, before, reader, &mut new.writer)?;
        }
    }
    Ok(())
}

/// Writes the records of the blocks before this one, which fitted, at the end of the file that was
/// begun last. It refuses where one fits no more.
fn copy_records(
    rt: &HostRuntime,
    file: &ShardFile,
    before: u64,
    reader: &mut BlockReader,
    writer: &mut ShardWriter,
) -> Result<(), Refusal>
    ensures { writer.new.left ≡ writer.old.left }
{
    for number in 0..before {
        let block = Block {
            number,
            bytes: block_size(&reader.split.header, number),
        };
        let root = writer.root_before(rt, number as usize)?;
        match reader.record(rt, file, block, root.as_ref())? {
            Some(record) => writer.append_to_last(rt, record)?,
            None => return Err(Refusal::Named(
                copy_of(rt.alloc(), file.name.as_str())?,
                Reason::Changed,
            )),
        }
    }
    Ok(())
}

/// Writes the records of all blocks, each block from the first shards that fit, or from all
/// compared.
fn write_files(
    rt: &HostRuntime,
    order: &Order,
    reader: &mut BlockReader,
    files: &mut [ShardFile],
    new: &mut NewFiles,
) -> Result<(), Refusal>
    ensures { OnOk result (new.new.writer.left ≡ 0) }
{
    let look = Look::compared_or(order.compares_all, Look::Each);
    let mut progress = Progress::new(rt, new.writer.left);
    let mut number = 0u64;
    add_missing(rt, order, files, new)?;
    add_unsound(rt, order, files, 0, reader, new)?;
    while new.writer.left > 0 {
        let block = reader.split.block_of(number, new.writer.left);
        let found = read_block(rt, reader, files, block, look, &mut new.writer)?;
        add_unsound(rt, order, files, number, reader, new)?;
        new.writer.write(rt, &found.bytes, known_of(&found))?;
        progress.print_percentage(rt, new.writer.left);
        number = number.saturating_add(1);
    }
    new.writer.note_pairs(rt, files)?;
    add_unsound(rt, order, files, number, reader, new)
}

/// What is known of a block that shards gave.
fn known_of(found: &FoundBlock) -> Known {
    Known {
        mask: Some(found.mask),
        root: found.root,
    }
}

/// The next block, which is to be written. Paths of its rows that do not fit are noted.
fn read_block(
    rt: &HostRuntime,
    reader: &mut BlockReader,
    files: &mut [ShardFile],
    block: Block,
    look: Look,
    writer: &mut ShardWriter,
) -> Result<FoundBlock, Fault>
    ensures size { IfOk result (λ found. length found.bytes.items ≡ block.bytes) }
    ensures left { writer.new.left ≡ writer.old.left }
{
    let found = reader.block(rt, files, block, look)?;
    let root = writer.root_of(rt.alloc(), &found.bytes, known_of(&found))?;
    reader.note_paths(files, block, root);
    Ok(found)
}
