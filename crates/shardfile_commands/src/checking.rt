//! Whether shard files fit.

ghost use Rattle.std.specs.Prelude.{◌≡◌, ◌↔◌, false, IsOk, IsTrue, IfErr};
ghost use Rattle.shardfile_commands.specs.Statuses.{judged};
ghost use Rattle.shardfile_commands.specs.declared.status.Status.TheVariants.{Lost};

use crate::listing::{list, list_unsound};
use crate::print;
use crate::progress::Progress;
use crate::refusal::{Reason, Refusal};
use hash_trees::Digest;
use partial_files::fault::copy_of;
use shard_files::fault::Fault;
use shard_files::gathering::{check_count, count_there};
use shard_files::roots::{BlockTree, Reading, gather_split};
use shard_files::sources::{ShardFile, is_want_of_room};
use shard_files::split::{Block, Split};
use shard_files::wanted::WantedFiles;
use shard_format::records::block_count;
use shard_reading::blocks::{BlockReader, Look};
use shard_reading::wasted::WastedReads;
use std::alloc::{AllocError, Global};

/// What was found of the blocks that were looked at.
#[derive(Drop)]
struct Findings {
    blocks: u64,
    refused: u64,
    first: Option<Fault>,
    wasted: WastedReads,
}

impl Findings {
    /// Notes that a block is refused. Where memory or room for an open file ran out nothing is
    /// found.
    fn add_refused_block(&mut self, fault: Fault) -> Result<(), Fault> {
        if !matches!(fault, Fault::Block(..) | Fault::BlockRoot(_)) {
            return Err(fault);
        }
        self.refused = self.refused.saturating_add(1);
        if self.first.is_none() {
            self.first = Some(fault);
        }
        Ok(())
    }
}

/// Looks at all shards of each block, notes what is wrong, and which blocks have too few that fit
/// their fingerprints. Only where all are to be compared are the shards of a block joined too.
///
/// It gives up where it has read too much for nothing; then the first block was looked at, and is
/// one of those that cannot be restored.
fn try_blocks(
    rt: &HostRuntime,
    split: &Split,
    tree: Option<BlockTree>,
    files: &mut [ShardFile],
    compares_all: bool,
) -> Result<Findings, Fault> {
    let mut findings = Findings {
        blocks: 0,
        refused: 0,
        first: None,
        wasted: WastedReads::new(files),
    };
    let mut progress = Progress::new(rt, split.header.length);
    let mut reader = BlockReader::new(rt.alloc(), split, tree, true);
    let mut left = split.header.length;
    while left > 0 {
        let block = split.block_of(findings.blocks, left);
        let tried = try_block(rt, &mut reader, files, block, compares_all);
        findings
            .wasted
            .add_block(split, files, block, tried.is_err());
        if let Err(fault) = tried {
            findings.add_refused_block(fault)?;
        }
        reader.note_paths(files, block, None);
        findings.blocks = findings.blocks.saturating_add(1);
        if findings.wasted.is_too_much() {
            break;
        }
        left -= u64::from(block.bytes);
        progress.print_percentage(rt, left);
    }
    Ok(findings)
}

/// Looks at all shards of a block, joins them where they are to be compared, and refuses where they
/// do not give it.
fn try_block(
    rt: &HostRuntime,
    reader: &mut BlockReader,
    files: &mut [ShardFile],
    block: Block,
    compares_all: bool,
) -> Result<(), Fault> {
    if compares_all {
        reader.block(rt, files, block, Look::Compared)?;
        return Ok(());
    }
    reader.check(rt, files, block)
}

/// The reason alone that a fault gives.
fn reason_of(alloc: Global, fault: &Fault) -> Result<String, AllocError> {
    let text = format!(in alloc; "{fault}")?;
    let reason = text.as_str().strip_prefix("refused: ");
    copy_of(alloc, reason.unwrap_or(text.as_str()))
}

/// Prints a line for each shard of the split and each other file that is meant, and one for what
/// they give. Then it refuses, where not all shards are there and fit.
pub fn check(
    rt: &HostRuntime,
    wanted: &WantedFiles,
    root: Option<Digest>,
    compares_all: bool,
) -> Result<(), Refusal> {
    let mut files = Vec::new(rt.alloc());
    let reading = Reading {
        root,
        may_end_before: false,
        compares_pairs: true,
        follows_claim: true,
    };
    match gather_split(rt, wanted, &reading, &mut files) {
        Ok((split, tree)) => check_split(rt, wanted, &split, tree, &mut files, compares_all),
        Err(fault) => {
            if is_of_headers(&fault) {
                print_headers(rt, &files, &fault)?;
            }
            Err(Refusal::Files(fault))
        }
    }
}

/// Whether the fault is one of the folder, or of the headers and lengths of the files. Where memory
/// or room for an open file ran out nothing is found.
fn is_of_headers(fault: &Fault) -> bool {
    match fault {
        Fault::Folder(_, error) => !is_want_of_room(error),
        fault => matches!(
            fault,
            Fault::NoShard(_)
                | Fault::IsShard(..)
                | Fault::Tie(..)
                | Fault::Length(_)
                | Fault::NoRoot(..)
                | Fault::NoPaths(_)
        ),
    }
}

/// Prints a line for each of the files with which something is wrong, and one for this fault of
/// all.
fn print_headers(rt: &HostRuntime, files: &[ShardFile], fault: &Fault) -> Result<(), Refusal> {
    let mut text = String::new(rt.alloc());
    list_unsound(rt.alloc(), files, &mut text)?;
    add_lost_line(rt.alloc(), fault, &mut text)?;
    print(rt, text.as_str())
}

/// Adds the line that says for what reason the file cannot be restored.
fn add_lost_line(alloc: Global, fault: &Fault, text: &mut String) -> Result<(), AllocError> {
    let reason = reason_of(alloc, fault)?;
    writeln!(text, "cannot be restored: {reason}")
}

/// As `check`, of the files of a split.
fn check_split(
    rt: &HostRuntime,
    wanted: &WantedFiles,
    split: &Split,
    tree: Option<BlockTree>,
    files: &mut [ShardFile],
    compares_all: bool,
) -> Result<(), Refusal> {
    let findings = try_blocks(rt, split, tree, files, compares_all)?;
    print_split(rt, wanted, split, files, &findings)
}

/// As `check`, of the files of a split of whose blocks this was found. All memory is taken before
/// anything is printed.
fn print_split(
    rt: &HostRuntime,
    wanted: &WantedFiles,
    split: &Split,
    files: &[ShardFile],
    findings: &Findings,
) -> Result<(), Refusal> {
    let mut text = String::new(rt.alloc());
    list(rt.alloc(), wanted, split.header.total, files, &mut text)?;
    let is_restored = write_findings(rt.alloc(), wanted, split, files, findings, &mut text)?;
    let is_whole = count_there(files) == split.header.total as usize
        && files.iter().all(|shard| shard.is_sound());
    let label = copy_of(rt.alloc(), wanted.label())?;
    print(rt, text.as_str())?;
    verdict(label, is_restored, is_whole)
}

/// Refuses shard files, by this name, that do not give the file, or are not whole.
fn verdict(label: String, is_restored: bool, is_whole: bool) -> Result<(), Refusal>
    ensures whole { IsOk result ↔ (IsTrue is_restored × IsTrue is_whole) }
    ensures lost { IfErr result (λ refusal. judged refusal ≡ Lost ↔ is_restored ≡ false) }
{
    if !is_restored {
        Err(Refusal::Named(label, Reason::Lost))
    } else if !is_whole {
        Err(Refusal::Named(label, Reason::Unsound))
    } else {
        Ok(())
    }
}

/// Two lines: what the split is, and what `join` does; between them one where not all blocks were
/// looked at. And whether that restores the file.
fn write_findings(
    alloc: Global,
    wanted: &WantedFiles,
    split: &Split,
    files: &[ShardFile],
    findings: &Findings,
    text: &mut String,
) -> Result<bool, AllocError> {
    write_split(split, findings, text)?;
    if let Err(fault) = check_count(alloc, wanted, split, files) {
        add_lost_line(alloc, &fault, text)?;
        return Ok(false);
    }
    if let Some(fault) = &findings.first {
        write_lost_blocks(alloc, findings.refused, fault, text)?;
        return Ok(false);
    }
    writeln!(text, "can be restored")?;
    Ok(true)
}

/// The line that says what the split is, and where not all blocks were looked at another one.
fn write_split(split: &Split, findings: &Findings, text: &mut String) -> Result<(), AllocError> {
    let (min, total, length) = (split.header.min, split.header.total, split.header.length);
    let blocks = block_count(&split.header);
    writeln!(
        text,
        "any {min} of {total} give back {length} bytes in {blocks} blocks"
    )?;
    if findings.blocks < blocks {
        let (from, without) = (findings.blocks, findings.wasted.blocks);
        writeln!(
            text,
            "given up at block {from}, since {without} blocks before it have no shard that fits"
        )?;
    }
    Ok(())
}

/// The line that says how many blocks cannot be restored, and why the first of these cannot.
fn write_lost_blocks(
    alloc: Global,
    refused: u64,
    first: &Fault,
    text: &mut String,
) -> Result<(), AllocError> {
    let reason = reason_of(alloc, first)?;
    writeln!(
        text,
        "cannot be restored: {refused} blocks cannot, the first is {reason}"
    )
}
