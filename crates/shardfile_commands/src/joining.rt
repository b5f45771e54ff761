//! Shard files to the file.

ghost use Rattle.std.specs.Prelude.{◌≡◌, ◌+◌, ◌≤◌, length, IfOk, IfSome, OnOk};

use crate::listing::print_unsound;
use crate::progress::Progress;
use crate::refusal::{Reason, Refusal};
use hash_trees::Digest;
use partial_files::fault::{Fault as FileFault, copy_of};
use partial_files::partial::Manner;
use partial_files::restored::Restored;
use shard_files::fault::Fault;
use shard_files::gathering::{check_count, first_rights};
use shard_files::roots::{Reading, gather_split};
use shard_files::sources::{ShardFile, check_no_source};
use shard_files::split::{Block, Split};
use shard_files::wanted::{WantedFiles, is_shard_name};
use shard_reading::blocks::{BlockReader, Look};
use shard_reading::wasted::WastedReads;
use std::alloc::AllocError;

/// The name that stands for standard output.
pub const STANDARD_OUTPUT: &str = "-";

/// The most bytes of a file that the system can count, whatever the file system.
const MOST_BYTES: u64 = i64::MAX as u64;

/// What is to be joined.
#[derive(Clone, Copy)]
pub struct Order<'a> {
    /// The shard files that are there.
    pub wanted: WantedFiles<'a>,
    /// The name of the file, or `-` for standard output.
    pub out: &'a str,
    /// Whether a file that is there is replaced.
    pub force: bool,
    /// Whether all shards of a block are compared.
    pub compares_all: bool,
    /// Whether bytes that cannot be restored are left out, as zeros.
    pub is_partial: bool,
    /// The root of the file, if one is asked for.
    pub root: Option<Digest>,
}

/// Restores the file from the shard files that are there, and names on standard error those with
/// which something was found wrong.
///
/// It refuses where too few are there, where too few shards of a block fit, or these are no block,
/// and where the file would replace a shard, or have the name of one.
pub fn join(rt: &HostRuntime, order: &Order) -> Result<(), Refusal> {
    let mut files = Vec::new(rt.alloc());
    let mut holes = Vec::new(rt.alloc());
    let done = restore_file(rt, order, &mut files, &mut holes);
    print_unsound(rt, &files)?;
    done?;
    for (from, to) in &holes {
        println!(rt; "{from} {to}")?;
    }
    if !holes.is_empty() {
        let label = copy_of(rt.alloc(), order.wanted.label())?;
        return Err(Refusal::Named(label, Reason::Holes));
    }
    Ok(())
}

/// Refuses where the name is that of a shard of the file, whether it is there or not, of one of the
/// files under another name, or of any shard file.
fn check_out(
    rt: &HostRuntime,
    wanted: &WantedFiles,
    out: &str,
    files: &[ShardFile],
) -> Result<(), FileFault> {
    if let WantedFiles::Beside(file) = wanted {
        if is_shard_name(rt, file, out)? {
            return Err(FileFault::Input(copy_of(rt.alloc(), out)?));
        }
    }
    check_no_source(rt, out, files)
}

/// Restores the file, and notes what is wrong at the files, and which bytes are left out.
fn restore_file(
    rt: &HostRuntime,
    order: &Order,
    files: &mut Vec<ShardFile>,
    holes: &mut Vec<(u64, u64)>,
) -> Result<(), Fault> {
    let mut reader = reader_of(rt, order, files)?;
    restore_from(rt, order, &mut reader, files, holes)
}

/// Restores the file from the blocks that are read.
fn restore_from(
    rt: &HostRuntime,
    order: &Order,
    reader: &mut BlockReader,
    files: &mut [ShardFile],
    holes: &mut Vec<(u64, u64)>,
) -> Result<(), Fault> {
    let mut restored = new_output(rt, order, files, reader.split.header.length)?;
    match restore_blocks(rt, order, reader, files, &mut restored, holes) {
        Ok(()) => Ok(restored.finish(rt)?),
        Err(fault) => {
            restored.discard(rt);
            Err(fault)
        }
    }
}

/// What reads the blocks of the split that the files are of. These are added.
fn reader_of(
    rt: &HostRuntime,
    order: &Order,
    files: &mut Vec<ShardFile>,
) -> Result<BlockReader, Fault> {
    let reading = Reading {
        root: order.root,
        may_end_before: order.is_partial,
        compares_pairs: false,
        follows_claim: false,
    };
    let (split, tree) = gather_split(rt, &order.wanted, &reading, files)?;
    let reader = BlockReader::new(rt.alloc(), &split, tree, false);
    check_split(rt, order, &split, files)?;
    Ok(reader)
}

/// Refuses where the file cannot be restored, or cannot have its name.
fn check_split(
    rt: &HostRuntime,
    order: &Order,
    split: &Split,
    files: &[ShardFile],
) -> Result<(), Fault> {
    if order.out != STANDARD_OUTPUT {
        check_out(rt, &order.wanted, order.out, files)?;
    }
    // Rows of data are pieces of the file, so some of its bytes stand in fewer shards too.
    if !order.is_partial || split.header.format.has_cells() {
        check_count(rt.alloc(), &order.wanted, split, files)?;
    }
    Ok(())
}

/// The file, none of which is written, or standard output.
fn new_output(
    rt: &HostRuntime,
    order: &Order,
    files: &[ShardFile],
    length: u64,
) -> Result<Restored, FileFault>
    ensures { IfOk result (λ r. r.left ≡ length) }
{
    if order.out == STANDARD_OUTPUT {
        return Ok(Restored::to_standard_output(length));
    }
    if length > MOST_BYTES {
        return Err(FileFault::TooLong(copy_of(rt.alloc(), order.out)?));
    }
    let how = Manner::new(rt, order.force, first_rights(files))?;
    Restored::create(rt, copy_of(rt.alloc(), order.out)?, &how, length)
}

/// Writes the blocks in order, each from the first shards that fit, or from all compared; where
/// blocks may be lost, leaves out those that cannot be restored, and all that is left once too much
/// was read for nothing.
fn restore_blocks(
    rt: &HostRuntime,
    order: &Order,
    reader: &mut BlockReader,
    files: &mut [ShardFile],
    restored: &mut Restored,
    holes: &mut Vec<(u64, u64)>,
) -> Result<(), Fault>
    ensures { OnOk result (restored.new.left ≡ 0) }
{
    let look = Look::compared_or(order.compares_all, Look::First);
    let split = reader.split;
    let length = split.header.length;
    let mut progress = Progress::new(rt, length);
    let mut wasted = WastedReads::new(files);
    let mut number = 0u64;
    while restored.left > 0 {
        let block = split.block_of(number, restored.left);
        let given = block_or_none(rt, order.is_partial, reader, files, block, look)?;
        wasted.add_block(&split, files, block, given.is_none());
        match given {
            Some(bytes) => restored.write(rt, &bytes)?,
            None if wasted.is_too_much() => {
                let count = restored.left;
                leave_out(rt, length, count, restored, holes)?;
            }
            None => write_rows(rt, reader, block, restored, holes)?,
        }
        progress.print_percentage(rt, restored.left);
        number = number.saturating_add(1);
    }
    Ok(())
}

/// The bytes of a block; none where it cannot be restored, and blocks may be lost.
fn block_or_none(
    rt: &HostRuntime,
    is_partial: bool,
    reader: &mut BlockReader,
    files: &mut [ShardFile],
    block: Block,
    look: Look,
) -> Result<Option<Vec<u8>>, Fault>
    ensures { IfOk result (λ answer. IfSome answer (λ bytes. length bytes.items ≡ block.bytes)) }
{
    match reader.block(rt, files, block, look) {
        Ok(found) => Ok(Some(found.bytes)),
        Err(Fault::Block(..) | Fault::BlockRoot(_)) if is_partial => Ok(None),
        Err(fault) => Err(fault),
    }
}

/// Writes the rows of data that are left of a block that cannot be restored, and leaves out its
/// other bytes.
fn write_rows(
    rt: &HostRuntime,
    reader: &BlockReader,
    block: Block,
    restored: &mut Restored,
    holes: &mut Vec<(u64, u64)>,
) -> Result<(), Fault>
    requires { block.bytes ≤ restored.old.left }
    ensures { OnOk result (restored.new.left + block.bytes ≡ restored.old.left) }
{
    let length = reader.split.header.length;
    let size = reader.row_bytes(block);
    let mut index = 0u32;
    let mut at = 0u32;
    while at < block.bytes {
        let count = size.min(block.bytes - at);
        match reader.row_left(index, count as usize) {
            Some(bytes) => restored.write(rt, bytes)?,
            None => leave_out(rt, length, u64::from(count), restored, holes)?,
        }
        at += count;
        index = index.saturating_add(1);
    }
    Ok(())
}

/// Leaves out the next bytes of a file of this length, and notes where they are.
fn leave_out(
    rt: &HostRuntime,
    length: u64,
    count: u64,
    restored: &mut Restored,
    holes: &mut Vec<(u64, u64)>,
) -> Result<(), FileFault>
    requires { count ≤ restored.old.left }
    ensures { OnOk result (restored.new.left + count ≡ restored.old.left) }
{
    let from = length.saturating_sub(restored.left);
    restored.pass_over(rt, count)?;
    add_hole(holes, from, length.saturating_sub(restored.left))?;
    Ok(())
}

/// Adds bytes that are left out, to the last ones where they follow these.
fn add_hole(holes: &mut Vec<(u64, u64)>, from: u64, to: u64) -> Result<(), AllocError> {
    match holes.last_mut() {
        Some(last) if last.1 == from => last.1 = to,
        _ => holes.push((from, to))?,
    }
    Ok(())
}
