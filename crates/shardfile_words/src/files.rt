//! The shard files that words mean.

use crate::fault::{Fault, WrongWord};
use crate::options::Options;
use partial_files::fault::copy_of;
use shard_files::names::{can_be_file, name_before_number};
use shard_files::wanted::WantedFiles;
use std::alloc::Global;

/// What is wrong with a name before the numbers of shard files.
const NO_NAME: &str = "no file can have this name: its last part is empty, or . or ..";

/// What is wrong where standard input is split, and has no name.
const STREAM_WITHOUT_NAME: &str = "-: --name NAME says what its shard files are called";

/// What is wrong where a file is split, and a name is given.
const NAME_OF_FILE: &str = "--name: goes with - alone, which is standard input";

/// Refuses a name before the numbers of shard files that no file can have.
fn check_name(alloc: Global, name: &str) -> Result<(), Fault> {
    if can_be_file(name) {
        return Ok(());
    }
    Err(Fault::Word(WrongWord::Word(copy_of(alloc, name)?, NO_NAME)))
}

/// The name of the file that is split, or what the shard files of standard input are called, and
/// whether it is this, as `FILE` or `-` and the word after `--name` mean it.
pub fn file_or_stream<'a>(
    alloc: Global,
    file: &'a str,
    name: Option<&'a str>,
) -> Result<(&'a str, bool), Fault> {
    match (file, name) {
        ("-", Some(name)) => {
            check_name(alloc, name)?;
            Ok((name, true))
        }
        ("-", None) => Err(Fault::Word(WrongWord::Words(STREAM_WITHOUT_NAME))),
        (_, Some(_)) => Err(Fault::Word(WrongWord::Words(NAME_OF_FILE))),
        (file, None) => Ok((file, false)),
    }
}

/// The fault of words that are not as many as are wanted.
pub fn wrong_count(wanted: &'static str, options: &Options) -> Fault {
    Fault::Word(WrongWord::Count(wanted, options.words.len()))
}

/// The fault of words that are not as many as are wanted, or as `--shards` wants. Where the first
/// is named as a shard file, in place of the file, it says what is to be given.
fn wrong_files(
    alloc: Global,
    wanted: &'static str,
    with_shards: &'static str,
    options: &Options,
) -> Result<Fault, Fault> {
    if options.shards {
        return Ok(wrong_count(with_shards, options));
    }
    let Some(first) = options.words.first() else {
        return Ok(wrong_count(wanted, options));
    };
    match name_before_number(alloc, first)? {
        Some(file) => Ok(Fault::Word(WrongWord::Shards(
            wanted,
            options.words.len(),
            copy_of(alloc, file)?,
            with_shards,
        ))),
        None => Ok(wrong_count(wanted, options)),
    }
}

/// The shard files that the words mean: those beside the one file, or with these names. There is
/// none where the words are none, or more than one file.
fn wanted_of<'a>(words: &'a [&'a str], is_named: bool) -> Option<WantedFiles<'a>> {
    match words {
        [] => None,
        names if is_named => Some(WantedFiles::Named(names)),
        [file] => Some(WantedFiles::Beside(file)),
        _ => None,
    }
}

/// The shard files that `FILE` or `SHARD ..` means.
pub fn shards<'a>(alloc: Global, options: &'a Options<'a>) -> Result<WantedFiles<'a>, Fault> {
    match wanted_of(&options.words, options.shards) {
        Some(wanted) => Ok(wanted),
        None => Err(wrong_files(alloc, "FILE", "SHARD ..", options)?),
    }
}

/// As `output_and_shards`; none where the words are others.
fn output_of<'a>(words: &'a [&'a str], is_named: bool) -> Option<(&'a str, WantedFiles<'a>)> {
    let (out, rest) = if is_named {
        words.split_first()?
    } else {
        words.split_last()?
    };
    Some((*out, wanted_of(rest, is_named)?))
}

/// The name of the file that is restored, and the shard files, as `FILE OUT` or `OUT SHARD ..`
/// means them.
pub fn output_and_shards<'a>(
    alloc: Global,
    options: &'a Options<'a>,
) -> Result<(&'a str, WantedFiles<'a>), Fault> {
    match output_of(&options.words, options.shards) {
        Some(meant) => Ok(meant),
        None => Err(wrong_files(alloc, "FILE OUT", "OUT SHARD ..", options)?),
    }
}

/// As `name_and_shards`, where the name may be none that files can have; none where the words are
/// others.
fn name_of<'a>(words: &'a [&'a str], is_named: bool) -> Option<(&'a str, WantedFiles<'a>)> {
    match words {
        [file] if !is_named => Some((file, WantedFiles::Beside(file))),
        [name, shards @ ..] if is_named && !shards.is_empty() => {
            Some((name, WantedFiles::Named(shards)))
        }
        _ => None,
    }
}

/// What missing shard files are called, before a point and their numbers, and the shard files that
/// are there, as `FILE` or `NAME SHARD ..` means them.
pub fn name_and_shards<'a>(
    alloc: Global,
    options: &'a Options<'a>,
) -> Result<(&'a str, WantedFiles<'a>), Fault> {
    let Some((name, wanted)) = name_of(&options.words, options.shards) else {
        return Err(wrong_files(alloc, "FILE", "NAME SHARD ..", options)?);
    };
    if options.shards {
        check_name(alloc, name)?;
    }
    Ok((name, wanted))
}
