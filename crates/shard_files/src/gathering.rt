//! The shard files that are there, and which split they are of.

ghost use Rattle.std.specs.Prelude.{IfOk, IfSome};
ghost use Rattle.shard_format.specs.Splits.{IsPossible};

use crate::fault::Fault;
use crate::names::{name_before_number, shard_name};
use crate::sources::{IMPOSSIBLE_HEADER, MOST_KEPT_OPEN, ShardFile, is_shard_file};
use crate::split::Split;
use crate::wanted::{WantedFiles, distinct, numbers_there};
use partial_files::fault::copy_of;
use shard_format::header::{Header, Verdict};
use shard_format::splits::{Choice, chosen_split};
use std::alloc::{AllocError, Global};

/// Adds the files that are meant, by rising numbers; those with no number come first. It leaves out
/// those whose headers say by themselves that they are no shards with their numbers.
pub(crate) fn open_files(
    rt: &HostRuntime,
    wanted: &WantedFiles,
    files: &mut Vec<ShardFile>,
) -> Result<(), Fault> {
    match wanted {
        WantedFiles::Beside(file) => open_beside(rt, file, files)?,
        WantedFiles::Named(names) => open_named(rt, names, files)?,
    }
    for shard in files.iter_mut() {
        leave_out_wrong(shard);
    }
    Ok(())
}

/// Adds the files that lie beside the file under names of its shards.
fn open_beside(rt: &HostRuntime, file: &str, files: &mut Vec<ShardFile>) -> Result<(), Fault> {
    for number in &numbers_there(rt, file)? {
        let is_kept = files.len() < MOST_KEPT_OPEN;
        let name = shard_name(rt.alloc(), file, *number)?;
        files.push(ShardFile::open(rt, name, Some(*number), is_kept)?)?;
    }
    Ok(())
}

/// Adds the files with these names, each once.
fn open_named(rt: &HostRuntime, names: &[&str], files: &mut Vec<ShardFile>) -> Result<(), Fault> {
    for name in &distinct(rt, names)? {
        let is_kept = files.len() < MOST_KEPT_OPEN;
        files.push(ShardFile::open(rt, copy_of(rt.alloc(), name)?, None, is_kept)?)?;
    }
    files.sort_by_key(|file| file.number)?;
    Ok(())
}

/// Leaves out each file whose header says by itself that it is not of the shard with that number.
fn leave_out_wrong(file: &mut ShardFile) {
    if let Some(header) = file.header() {
        leave_out_others(file, &header);
    }
}

/// Leaves out each file whose header is not that of the shard with its number of the split.
fn leave_out_others(file: &mut ShardFile, split: &Header) {
    let Some(header) = file.header() else {
        return;
    };
    match header.judge(file.number.unwrap_or(header.index), split) {
        Verdict::Fits => {}
        Verdict::Impossible => file.leave_out(IMPOSSIBLE_HEADER),
        Verdict::OtherIndex => file.leave_out("has the header of a shard with another number"),
        Verdict::OtherSplit => file.leave_out("has a header of another split"),
    }
}

/// Adds the shard files that are meant, and gives the split that they are of; those that belong to
/// no split, or to another one, are left out.
///
/// Of the splits of which MIN shards or more are there, each number counted once, it is that of
/// which the most are there, and where there is none such, one of which the most are there. It
/// refuses where no shard is there, where equally many of two such splits are, and, unless the last
/// blocks may be missing or fewer than MIN shards are there, where no file of the split is as long
/// as its header says or longer: then its last block is in none.
pub fn gather(
    rt: &HostRuntime,
    wanted: &WantedFiles,
    files: &mut Vec<ShardFile>,
    may_end_before: bool,
) -> Result<Split, Fault>
    ensures { IfOk result (λ split. IsPossible split.header) }
{
    open_files(rt, wanted, files)?;
    let split = split_of(rt, wanted, files)?;
    for shard in files.iter_mut() {
        leave_out_others(shard, &split.header);
    }
    forget_numbers(wanted, files);
    let is_long = may_end_before || files.iter().any(|shard| is_whole(shard));
    for shard in files.iter_mut() {
        note_length(shard, is_long);
    }
    if !is_long && count_there(files) >= split.header.min as usize {
        return Err(Fault::Length(copy_of(rt.alloc(), wanted.label())?));
    }
    Ok(split)
}

/// Forgets the numbers of files that are not of the split, where any name is taken.
pub(crate) fn forget_numbers(wanted: &WantedFiles, files: &mut [ShardFile]) {
    for shard in files.iter_mut() {
        if matches!(wanted, WantedFiles::Named(_)) && !shard.is_used() {
            shard.number = None;
        }
    }
}

/// The split that the files give.
pub fn split_of(rt: &HostRuntime, wanted: &WantedFiles, files: &[ShardFile]) -> Result<Split, Fault>
    ensures { IfOk result (λ split. IsPossible split.header) }
{
    let headers = headers_of(rt.alloc(), files)?;
    match chosen_split(&headers) {
        Choice::Taken(header) => Ok(Split::new(&header)),
        Choice::Tied(one, other) => Err(tie(rt.alloc(), wanted, files, &one, &other)?),
        Choice::None => match most_common(&headers) {
            Some(split) => Ok(split),
            None => Err(no_shard(rt, wanted)?),
        },
    }
}

/// The fault of files of two splits, of which equally many are there.
fn tie(
    alloc: Global,
    wanted: &WantedFiles,
    files: &[ShardFile],
    one: &Header,
    other: &Header,
) -> Result<Fault, AllocError> {
    Ok(Fault::Tie(
        copy_of(alloc, wanted.label())?,
        copy_of(alloc, name_of(files, one))?,
        copy_of(alloc, name_of(files, other))?,
    ))
}

/// The fault of files of which none counts. Where the name that is meant is that of a shard file,
/// it says what is to be given in its place.
pub(crate) fn no_shard(rt: &HostRuntime, wanted: &WantedFiles) -> Result<Fault, Fault> {
    let label = copy_of(rt.alloc(), wanted.label())?;
    let WantedFiles::Beside(name) = wanted else {
        return Ok(Fault::NoShard(label));
    };
    if let Some(file) = file_of_shard(rt, name)? {
        let named = format!(in rt.alloc();
            "{file}, without a number, or --shards and shard files"
        )?;
        return Ok(Fault::IsShard(label, named));
    }
    if is_shard_file(rt, name)? {
        let named = copy_of(rt.alloc(), "--shards and shard files")?;
        return Ok(Fault::IsShard(label, named));
    }
    Ok(Fault::NoShard(label))
}

/// What a name has before the number of a shard, where a shard file of that is there.
fn file_of_shard<'a>(rt: &HostRuntime, name: &'a str) -> Result<Option<&'a str>, Fault> {
    let Some(file) = name_before_number(rt.alloc(), name)? else {
        return Ok(None);
    };
    for number in &numbers_there(rt, file)? {
        if is_shard_file(rt, shard_name(rt.alloc(), file, *number)?.as_str())? {
            return Ok(Some(file));
        }
    }
    Ok(None)
}

/// The name of the first file of this split.
fn name_of<'a>(files: &'a [ShardFile], split: &Header) -> &'a str {
    for shard in files {
        if let Some(header) = shard.header() {
            if header.is_of_split(split) {
                return shard.name.as_str();
            }
        }
    }
    ""
}

/// A split that is possible and of which no fewer of the headers are than of any other.
fn most_common(headers: &[Header]) -> Option<Split>
    ensures { IfSome result (λ split. IsPossible split.header) }
{
    let mut best: Option<Header> = None;
    let mut most = 0;
    for header in headers {
        if best.is_some_and(|split| header.is_of_split(&split)) {
            continue;
        }
        let count = headers
            .iter()
            .filter(|other| other.is_of_split(header))
            .count();
        if count > most {
            best = Some(*header);
            most = count;
        }
    }
    Split::possible(&best?)
}

/// The headers of the files, but those that another file with the same number has too.
fn headers_of(alloc: Global, files: &[ShardFile]) -> Result<Vec<Header>, AllocError> {
    let mut headers = Vec::new(alloc);
    for shard in files {
        if let Some(header) = shard.header() {
            if !has_copy(&headers, &header) {
                headers.push(header)?;
            }
        }
    }
    Ok(headers)
}

/// Whether the last of the headers, those with the number of this one, have one of its split.
fn has_copy(headers: &[Header], header: &Header) -> bool {
    for other in headers.iter().rev() {
        if other.index != header.index {
            return false;
        }
        if other.is_of_split(header) {
            return true;
        }
    }
    false
}

/// How many shards of the split are there, where copies count once.
pub fn count_there(files: &[ShardFile]) -> usize {
    let mut count = 0usize;
    let mut last = None;
    for shard in files {
        if shard.is_used() {
            if shard.number != last {
                count = count.saturating_add(1);
            }
            last = shard.number;
        }
    }
    count
}

/// Refuses where fewer shards of the split are there than give the file back.
pub fn check_count(
    alloc: Global,
    wanted: &WantedFiles,
    split: &Split,
    files: &[ShardFile],
) -> Result<(), Fault> {
    let there = count_there(files);
    let min = split.header.min;
    if there < min as usize {
        return Err(Fault::TooFew(copy_of(alloc, wanted.label())?, there, min));
    }
    Ok(())
}

/// The rights that the first file of the split gives.
pub fn first_rights(files: &[ShardFile]) -> u32 {
    for shard in files {
        if let Some(rights) = shard.rights() {
            return rights;
        }
    }
    0
}

/// Whether it is a file of the split that has all records that its header says, by its length.
fn is_whole(file: &ShardFile) -> bool {
    let Some(source) = &file.source else {
        return false;
    };
    match Split::possible(&source.header) {
        Some(split) => source.metadata.len() >= split.records_end(source.header.index),
        None => false,
    }
}

/// Notes a file that goes on after the shard of its last block; its shards are used. One that ends
/// before is noted too, but where others are as long as they say: then its blocks that are not
/// there are counted.
pub(crate) fn note_length(file: &mut ShardFile, is_long: bool) {
    let Some(source) = &file.source else {
        return;
    };
    let Some(split) = Split::possible(&source.header) else {
        return;
    };
    let (end, size) = (split.records_end(source.header.index), split.size_of_file());
    if source.metadata.len() > size {
        file.fault = Some("goes on after its last block");
    } else if source.metadata.len() < end && !is_long {
        file.fault = Some("ends before its last block");
    }
}
