//! The words after a command: options, and the others.

ghost use Rattle.std.specs.Prelude.{◌≡◌, None, OnOk};

use crate::command::Command;
use crate::fault::{Fault, WrongWord};
use partial_files::fault::copy_of;
use std::alloc::Global;

/// An option that wants a word after it.
#[derive(Clone, Copy)]
enum Wanting {
    Folder,
    Name,
    Numbers,
    Root,
}

impl Wanting {
    /// The one that the word is. Of `split` the root is what is printed, and not what is given.
    fn from_word(word: &str, command: Command) -> Option<Wanting> {
        match word {
            "--root" if command != Command::Split => Some(Wanting::Root),
            "--to" => Some(Wanting::Folder),
            "--name" => Some(Wanting::Name),
            "--only" => Some(Wanting::Numbers),
            _ => None,
        }
    }

    /// The fault that no word follows it.
    fn without_word(self) -> WrongWord {
        match self {
            Wanting::Folder => WrongWord::NoWord("--to", "folder"),
            Wanting::Name => WrongWord::NoWord("--name", "name"),
            Wanting::Numbers => WrongWord::NoWord("--only", "number"),
            Wanting::Root => WrongWord::NoWord("--root", "root"),
        }
    }
}

/// What the words after the command ask for.
#[derive(Drop)]
pub struct Options<'a> {
    /// The words that are no option.
    pub words: Vec<&'a str>,
    pub force: bool,
    pub all: bool,
    pub shards: bool,
    pub partial: bool,
    pub to: Option<&'a str>,
    pub name: Option<&'a str>,
    /// The lists of numbers, which add up.
    pub only: Vec<&'a str>,
    /// Whether a root is asked for, and which, where one is given.
    pub has_root: bool,
    pub root: Option<&'a str>,
    pub help: bool,
}

impl<'a> Options<'a> {
    /// None, and no word.
    fn new(alloc: Global) -> Options<'a> {
        Options {
            words: Vec::new(alloc),
            force: false,
            all: false,
            shards: false,
            partial: false,
            to: None,
            name: None,
            only: Vec::new(alloc),
            has_root: false,
            root: None,
            help: false,
        }
    }

    /// Takes the word after an option that wants one.
    fn take(&mut self, option: Wanting, word: &'a str) -> Result<(), Fault> {
        match option {
            Wanting::Folder => self.to = Some(only_one(self.to, "--to", word)?),
            Wanting::Name => self.name = Some(only_one(self.name, "--name", word)?),
            Wanting::Numbers => self.only.push(word)?,
            Wanting::Root => {
                self.root = Some(only_one(self.root, "--root", word)?);
                self.has_root = true;
            }
        }
        Ok(())
    }

    /// Takes an option that wants no word. It refuses one that is none.
    fn set(&mut self, alloc: Global, option: &str) -> Result<(), Fault> {
        match option {
            "--force" => self.force = true,
            "--all" => self.all = true,
            "--shards" => self.shards = true,
            "--partial" => self.partial = true,
            "--root" => self.has_root = true,
            "--help" | "-h" => self.help = true,
            _ => return Err(Fault::Word(WrongWord::Word(
                copy_of(alloc, option)?,
                "no such option",
            ))),
        }
        Ok(())
    }
}

/// The word after an option, which has none before.
fn only_one<'a>(
    before: Option<&'a str>,
    option: &'static str,
    word: &'a str,
) -> Result<&'a str, Fault>
    ensures { OnOk result (before.entry ≡ None) }
{
    match before {
        None => Ok(word),
        Some(_) => Err(Fault::Word(WrongWord::Twice(option))),
    }
}

/// Sorts the words. It refuses an option that is none, an empty word, and an option that wants a
/// word and has none, or has two. After `--` no word is an option.
pub fn read_options<'a>(
    alloc: Global,
    words: &'a [String],
    command: Command,
) -> Result<Options<'a>, Fault> {
    let mut options = Options::new(alloc);
    let mut wanting = None;
    let mut have_ended = false;
    for word in words {
        let word = word.as_str();
        if word.is_empty() {
            return Err(Fault::Word(WrongWord::Words("a word is empty")));
        }
        if let Some(option) = wanting {
            options.take(option, word)?;
            wanting = None;
        } else if have_ended || !is_option(word) {
            options.words.push(word)?;
        } else if word == "--" {
            have_ended = true;
        } else {
            wanting = Wanting::from_word(word, command);
            if wanting.is_none() {
                options.set(alloc, word)?;
            }
        }
    }
    match wanting {
        Some(option) => Err(Fault::Word(option.without_word())),
        None => Ok(options),
    }
}

/// Whether a word is an option, where it does not stand behind `--`.
fn is_option(word: &str) -> bool {
    word.starts_with("--") || word == "-h"
}

/// Refuses an option that is given, and that the command does not take.
pub fn check_options(
    options: &Options,
    command: &'static str,
    taken: &[&'static str],
) -> Result<(), Fault> {
    let given = [
        (options.force, "--force"),
        (options.all, "--all"),
        (options.shards, "--shards"),
        (options.partial, "--partial"),
        (options.to.is_some(), "--to"),
        (options.name.is_some(), "--name"),
        (!options.only.is_empty(), "--only"),
        (options.has_root, "--root"),
    ];
    for (is_given, option) in &given {
        if *is_given && !taken.contains(option) {
            return Err(Fault::Word(WrongWord::OptionOf(option, command)));
        }
    }
    Ok(())
}
