//! The commands of `shardfile`: a file in shards, any MIN of which give it back.
//!
//! `shardfile split MIN TOTAL FILE` writes `FILE.0` and on beside it, TOTAL in all; `shardfile join
//! FILE OUT` restores the file from those that are there, however others are damaged; `shardfile
//! repair FILE` writes those that are lost; `shardfile check FILE` says which are there and whether
//! they fit; `shardfile root FILE` prints the roots that they claim; `shardfile clean FOLDER`
//! removes what stopped and refused runs left.
#![tactic(auto)]

mod checking;
mod cleaning;
mod joining;
mod listing;
mod orders;
mod progress;
mod refusal;
mod repairing;
mod rooting;
mod splitting;
mod status;

use partial_files::fault::copy_of;
use refusal::Refusal;
use shardfile_words::command::{Command, print_usage};
use shardfile_words::fault::WrongWord;
use shardfile_words::options::{Options, read_options};
use status::Status;
use std::alloc::{AllocError, Global};
use std::env::{self, Env};
use std::io::ErrorKind;
use std::process::ExitCode;

/// What is wrong with a word that names no command.
const NO_COMMAND: &str = "no such command";

/// The version of the repository.
const VERSION: &str = "shardfile 1.0.0";

/// What `--help` prints.
const HELP: &str = "\
shardfile: a file in TOTAL shard files, any MIN of which give it back; it hides nothing
  shardfile split [--force] [--root] [--to FOLDER] MIN TOTAL FILE
      writes FILE.0, FILE.1 and on, TOTAL in all, beside FILE or into FOLDER
  shardfile join [--force] [--all] [--partial] [--root HEX] FILE OUT
      restores the file as OUT from the shard files that are there
  shardfile repair [--force] [--all] [--only N,M] [--root HEX] FILE
      writes the shard files that are not there, or only those with these numbers
  shardfile check [--all] [--root HEX] FILE
      says which shard files are there, whether they fit, and what join would do
  shardfile root FILE | shardfile clean FOLDER
      prints the roots that shard files claim | removes what stopped runs left there

  --force   replaces files that are there; of repair, those that do not fit
  --all     compares all shards of each block, and with --root the root of its data
  --partial writes zeros for bytes that are lost, and prints where they are
  --root    of split: prints the root of the file; of others: takes only its shards.
            Without a root, who can write shards can forge them
  --shards  takes shard files with any names, after OUT (join) or NAME (repair)
  -         standard input, as FILE of split --name NAME; or as OUT, standard output
  --        ends the options: each word after it is a name
For example, any 6 of the 16 files photos.tar.0 to photos.tar.15 may be lost:
  shardfile split 10 16 photos.tar
  shardfile join photos.tar restored.tar
Status: 0 done, 1 refused, 2 usage error. Of check and repair: 0 all fits, 1 not all
fits, but it can be restored, 3 it cannot be restored, 4 nothing could be judged.
";

/// Writes the text to standard output.
fn print(rt: &HostRuntime, text: &str) -> Result<(), Refusal> {
    print!(rt; "{text}")?;
    Ok(())
}

/// Prints the version, and the level of processor that the program is built for.
fn print_version(rt: &HostRuntime, level: &str) -> Result<(), Refusal> {
    println!(rt; "{VERSION} ({level})")?;
    Ok(())
}

/// The words after the program's name. It refuses one that is no text.
fn words_given(rt: &HostRuntime) -> Result<Vec<String>, Refusal> {
    match env::args(rt) {
        Ok(words) => Ok(words.skip(1).collect(rt.alloc())?),
        Err(error) if error.kind() == ErrorKind::InvalidData => Err(Refusal::Words),
        Err(error) => Err(Refusal::from(error)),
    }
}

/// The command that the first word names, where it names one. No memory is taken.
fn command_given(rt: &HostRuntime) -> Option<Command> {
    let mut room = [0u8; 8];
    match rt.arg(1, &mut room) {
        Ok(length) => Command::from_word(&room[..length]),
        Err(_) => None,
    }
}

/// Does what the words ask for, of which the first names this command, or none.
fn run_words(rt: &HostRuntime, command: Option<Command>, level: &str) -> Result<(), Refusal> {
    let words = words_given(rt)?;
    let Some((first, rest)) = words.split_first() else {
        return Err(Refusal::Usage(WrongWord::Words("no command is given")));
    };
    match command {
        Some(command) => run_command(rt, command, rest),
        None => answer(rt, first.as_str(), rest, level),
    }
}

/// Does what the command asks for. Options may stand anywhere among the words.
fn run_command(rt: &HostRuntime, command: Command, words: &[String]) -> Result<(), Refusal> {
    let options = read_options(rt.alloc(), words, command)?;
    run_order(rt, command, &options)
}

/// Does what the command asks for with these options.
fn run_order(rt: &HostRuntime, command: Command, options: &Options) -> Result<(), Refusal> {
    if options.help {
        return print(rt, HELP);
    }
    match command {
        Command::Split => orders::split(rt, options),
        Command::Join => orders::join(rt, options),
        Command::Repair => orders::repair(rt, options),
        Command::Check => orders::check(rt, options),
        Command::Root => orders::root_of(rt, options),
        Command::Clean => orders::clean(rt, options),
    }
}

/// Answers a first word that is no command: it asks what the program is, or how it is used.
fn answer(rt: &HostRuntime, word: &str, rest: &[String], level: &str) -> Result<(), Refusal> {
    match (word, rest) {
        ("help" | "--help" | "-h", []) => print(rt, HELP),
        ("--version" | "-V", []) => print_version(rt, level),
        ("help", [name]) => explain(rt, name.as_str()),
        ("help" | "--help" | "-h" | "--version" | "-V", _) => {
            Err(wrong_word(rt.alloc(), word, "more words stand after it than it takes")?)
        }
        _ => Err(wrong_word(rt.alloc(), word, NO_COMMAND)?),
    }
}

/// Says how the command with this name is used.
fn explain(rt: &HostRuntime, name: &str) -> Result<(), Refusal> {
    match Command::from_word(name.as_bytes()) {
        Some(command) => {
            print!(rt; "usage: {}", command.usage())?;
            Ok(())
        }
        None => Err(wrong_word(rt.alloc(), name, NO_COMMAND)?),
    }
}

/// The refusal of a word, and what is wrong with it.
fn wrong_word(alloc: Global, word: &str, why: &'static str) -> Result<Refusal, AllocError> {
    Ok(Refusal::Usage(WrongWord::Word(copy_of(alloc, word)?, why)))
}

/// Says on standard error why the work was not done, and where the words are wrong how the program
/// is used; and gives the status.
fn refuse(rt: &HostRuntime, refusal: &Refusal, command: Option<Command>) -> Status {
    let _told = eprintln!(rt; "{refusal}");
    let status = refusal.status(command.is_some_and(|command| command.is_judging()));
    if status == Status::Usage {
        print_usage(rt, command);
    }
    status
}

/// Does what the words after the program's name ask for, and gives what the program ends with.
///
/// `level` is the level of processor that the program is built for, which `--version` prints.
pub fn run(rt: &HostRuntime, level: &str) -> ExitCode {
    let command = command_given(rt);
    let status = match run_words(rt, command, level) {
        Ok(()) => Status::Done,
        Err(refusal) => refuse(rt, &refusal, command),
    };
    ExitCode::from(status.code())
}
