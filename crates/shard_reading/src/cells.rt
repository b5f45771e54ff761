//! Blocks of the file from shards of cells, which version 2 has.

ghost use Rattle.std.specs.Prelude.{◌≡◌, All, length, IfOk, IfSome};
ghost use Rattle.shard_reading.specs.Shards.{IsOfSplit};

use crate::blocks::Look;
use math_codec::codec::{self, decode};
use math_fields::goldilocks::F;
use shard_blocks::{Error, JoinedBlock, Shard, join_block, join_block_corrected};
use shard_files::fault::Fault;
use shard_files::sources::ShardFile;
use shard_files::split::{Block, Split};
use shard_format::header::Header;
use shard_format::indices::count_distinct;
use shard_format::records::{
    FINGERPRINTS_SIZE, is_record_of, is_shard_of, record_place, record_size,
};
use std::alloc::{AllocError, Global};
use std::mem;

/// What reads blocks of cells.
#[derive(Drop)]
pub struct CellReader {
    split: Split,
    room: RecordRoom,
}

impl CellReader {
    /// One whose room grows with the first record.
    pub fn new(alloc: Global, split: &Split) -> CellReader {
        CellReader {
            split: *split,
            room: RecordRoom {
                bytes: Vec::new(alloc),
                elements: Vec::new(alloc),
            },
        }
    }

    /// The bytes of a block, as `BlockReader::block` gives them.
    pub fn block(
        &mut self,
        rt: &HostRuntime,
        files: &mut [ShardFile],
        block: Block,
        look: Look,
    ) -> Result<Vec<u8>, Fault>
        ensures { IfOk result (λ bytes. length bytes.items ≡ block.bytes) }
    {
        let mut found = FoundShards::new(rt.alloc(), &self.split);
        block_in(rt, files, block, look, &mut self.room, &mut found)
    }

    /// Looks at all shards of a block, as `BlockReader::check` does.
    pub fn check(
        &mut self,
        rt: &HostRuntime,
        files: &mut [ShardFile],
        block: Block,
    ) -> Result<(), Fault> {
        let (min, total) = (self.split.header.min, self.split.header.total);
        let mut indices = Vec::new(rt.alloc());
        for file in files.iter_mut() {
            if let Some(index) = sound_index(rt, &self.split, file, block, &mut self.room)? {
                indices.push(index)?;
            }
        }
        if count_distinct(rt.alloc(), total, &indices)? < min as usize {
            return Err(Fault::Block(block.number, Error::TooFew));
        }
        Ok(())
    }

    /// The bytes of the record of a block that the file has, as they stand there, where it fits.
    pub fn record(
        &mut self,
        rt: &HostRuntime,
        file: &ShardFile,
        block: Block,
    ) -> Result<Option<&[u8]>, Fault> {
        match read_record(rt, &self.split, file, block, &mut self.room)? {
            Record::Fits(_) => Ok(Some(self.room.bytes.as_slice())),
            _ => Ok(None),
        }
    }
}

/// Room for one record, and for its elements.
#[derive(Drop)]
struct RecordRoom {
    bytes: Vec<u8>,
    elements: Vec<F>,
}

/// What a file has of a block.
#[derive(Clone, Copy)]
enum Record {
    /// None, since it is no file of the split.
    None,
    /// The record of the shard with this index, which fits. Its elements are those of the room: the
    /// cells, and two fingerprints.
    Fits(u32),
    /// Another one or none, and what is wrong with it.
    Unfit(&'static str),
}

/// Reads the record of a block that the file has.
fn read_record(
    rt: &HostRuntime,
    split: &Split,
    file: &ShardFile,
    block: Block,
    room: &mut RecordRoom,
) -> Result<Record, Fault> {
    let Some(Header { index, .. }) = file.header() else {
        return Ok(Record::None);
    };
    let header = split.header_of(index);
    let cells = split.cells_of(block.bytes as usize)?;
    let RecordRoom { bytes, elements } = room;
    let Ok(size) = usize::try_from(record_size(&header, cells as usize)) else {
        return Err(Fault::Cells);
    };
    bytes.resize(size, 0)?;
    let whole = split.cells_of(header.block as usize)?;
    if !file.read(
        rt,
        record_place(&header, whole as usize, block.number),
        bytes,
    )? {
        return Ok(Record::Unfit("it ends before, or cannot be read"));
    }
    if is_record_of(rt.alloc(), &header, block.number, cells, bytes, elements)? {
        return Ok(Record::Fits(index));
    }
    Ok(Record::Unfit(what_is_wrong(rt.alloc(), &header, cells, bytes)?))
}

/// Why the bytes are not the record of a block that has to stand there.
fn what_is_wrong(
    alloc: Global,
    header: &Header,
    cells: u32,
    record: &[u8],
) -> Result<&'static str, AllocError> {
    let Some((encoded, _)) = record.split_at_checked(record.len().saturating_sub(FINGERPRINTS_SIZE))
    else {
        return Ok("no shard stands there");
    };
    let shard = match decode::<Shard>(alloc, encoded, &cells) {
        Ok(shard) => shard,
        Err(codec::Error::Memory(error)) => return Err(error),
        Err(_) => return Ok("no shard stands there"),
    };
    let (index, min, total) = (shard.index, shard.min, shard.total);
    if !is_shard_of(header, index, min, total, shard.cells.len(), cells as usize) {
        return Ok("its numbers are not those of the header");
    }
    Ok("it does not fit its fingerprint")
}

/// The index of the shard of a block that the file has, where it is a file of the split and the
/// shard fits its fingerprints. What is wrong with that is noted.
fn sound_index(
    rt: &HostRuntime,
    split: &Split,
    file: &mut ShardFile,
    block: Block,
    room: &mut RecordRoom,
) -> Result<Option<u32>, Fault> {
    match read_record(rt, split, file, block, room)? {
        Record::None => Ok(None),
        Record::Fits(index) => Ok(Some(index)),
        Record::Unfit(why) => {
            file.add_lost_block(block.number, why);
            Ok(None)
        }
    }
}

/// The shard of a block that the file has, where it is a file of the split and has one that fits.
/// What is wrong with it is noted.
fn sound_shard(
    rt: &HostRuntime,
    split: &Split,
    file: &mut ShardFile,
    block: Block,
    room: &mut RecordRoom,
) -> Result<Option<Shard>, Fault>
    ensures { IfOk result (λ answer. IfSome answer (IsOfSplit split.now.header)) }
{
    let Some(index) = sound_index(rt, split, file, block, room)? else {
        return Ok(None);
    };
    let mut cells = mem::replace(&mut room.elements, Vec::new(rt.alloc()));
    cells.truncate(cells.len().saturating_sub(FINGERPRINTS_SIZE / 8));
    Ok(Some(Shard {
        index,
        min: split.header.min,
        total: split.header.total,
        cells,
    }))
}

/// The shards of a block that were found so far.
#[derive(Drop)]
struct FoundShards {
    split: Split,
    /// By rising index, each index once.
    shards: Vec<Shard>,
    /// At which of the files each of them is.
    places: Vec<usize>,
    /// How many of the files were looked at.
    looked_at: usize,
    /// How many shards are wanted.
    wanted: usize,
    ghost of: { All (IsOfSplit split.header) shards.items },
}

impl FoundShards {
    /// None yet, where as many are wanted as give a block of the split.
    fn new(alloc: Global, split: &Split) -> FoundShards {
        FoundShards {
            split: *split,
            shards: Vec::new(alloc),
            places: Vec::new(alloc),
            looked_at: 0,
            wanted: split.header.min as usize,
        }
    }

    /// Adds the shard that the file at this place has, unless its index is there already.
    fn add(&mut self, shard: Shard, place: usize) -> Result<(), AllocError>
        requires { IsOfSplit self.old.split.header shard }
        ensures { self.new.split ≡ self.old.split }
    {
        if !is_there(&self.shards, shard.index) {
            self.shards.push(shard)?;
            self.places.push(place)?;
        }
        Ok(())
    }
}

/// Looks for shards of a block in the files that were not looked at yet, until as many are found as
/// are wanted. What is wrong with others is noted.
fn find_shards(
    rt: &HostRuntime,
    files: &mut [ShardFile],
    block: Block,
    room: &mut RecordRoom,
    found: &mut FoundShards,
) -> Result<(), Fault> {
    let split = found.split;
    for place in found.looked_at..files.len() {
        if found.shards.len() >= found.wanted {
            return Ok(());
        }
        found.looked_at = place + 1;
        if let Some(shard) = sound_shard(rt, &split, &mut files[place], block, room)? {
            found.add(shard, place)?;
        }
    }
    Ok(())
}

/// Whether the last of the shards has this index.
fn is_there(shards: &[Shard], index: u32) -> bool {
    matches!(shards.last(), Some(shard) if shard.index == index)
}

/// The bytes of a block that these shards give, where they give so many.
fn bytes_given(
    alloc: Global,
    found: &FoundShards,
    bytes: u32,
) -> Result<Option<Vec<u8>>, AllocError>
    ensures { IfOk result (λ answer. IfSome answer (λ block. length block.items ≡ bytes)) }
{
    match join_block(alloc, &found.shards) {
        Ok(block) if block.len() == bytes as usize => Ok(Some(block)),
        Err(Error::Memory(error)) => Err(error),
        _ => Ok(None),
    }
}

/// The bytes of a block that all shards but a few give. Those few are noted at their files.
fn corrected_bytes(
    alloc: Global,
    files: &mut [ShardFile],
    block: Block,
    found: &FoundShards,
) -> Result<Vec<u8>, Fault>
    ensures { IfOk result (λ bytes. length bytes.items ≡ block.bytes) }
{
    let JoinedBlock { bytes, left_out } = match join_block_corrected(alloc, &found.shards) {
        Ok(joined) => joined,
        Err(Error::Memory(error)) => return Err(Fault::from(error)),
        Err(error) => return Err(Fault::Block(block.number, error)),
    };
    for position in &left_out {
        note_at(files, &found.places, *position, block.number);
    }
    if bytes.len() != block.bytes as usize {
        return Err(Fault::Block(block.number, Error::Inconsistent));
    }
    Ok(bytes)
}

/// Notes that the shard at this position among those of a block does not fit the others.
fn note_at(files: &mut [ShardFile], places: &[usize], position: usize, number: u64) {
    let Some(place) = places.get(position) else {
        return;
    };
    if let Some(file) = files.get_mut(*place) {
        file.add_lost_block(number, "it does not fit the others");
    }
}

/// The bytes of a block of the split, as `BlockReader::block` gives them.
fn block_in(
    rt: &HostRuntime,
    files: &mut [ShardFile],
    block: Block,
    look: Look,
    room: &mut RecordRoom,
    found: &mut FoundShards,
) -> Result<Vec<u8>, Fault>
    ensures { IfOk result (λ bytes. length bytes.items ≡ block.bytes) }
{
    if look != Look::Compared {
        find_shards(rt, files, block, room, found)?;
        if let Some(bytes) = bytes_given(rt.alloc(), found, block.bytes)? {
            if look == Look::Each {
                look_at_others(rt, files, block, room, found)?;
            }
            return Ok(bytes);
        }
    }
    found.wanted = usize::MAX;
    find_shards(rt, files, block, room, found)?;
    corrected_bytes(rt.alloc(), files, block, found)
}

/// Looks at the shards of a block in the files that were not looked at yet, and notes what is wrong
/// with them.
fn look_at_others(
    rt: &HostRuntime,
    files: &mut [ShardFile],
    block: Block,
    room: &mut RecordRoom,
    found: &FoundShards,
) -> Result<(), Fault> {
    for file in files.iter_mut().skip(found.looked_at) {
        sound_index(rt, &found.split, file, block, room)?;
    }
    Ok(())
}
