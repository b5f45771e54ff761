//! The numbers and roots that words are.

ghost use Rattle.std.specs.Prelude.{◌≤◌, ◌<◌, IfOk, IfSome};

use crate::fault::{Fault, WrongWord};
use crate::options::Options;
use hash_trees::Digest;
use partial_files::fault::copy_of;
use shard_files::names::number_written;
use shard_format::header::MOST_SHARDS;
use std::alloc::Global;

/// What is wrong with a list of numbers.
const NO_NUMBERS: &str = "--only takes numbers below 65536, with commas between them";

/// What is wrong with a root.
const NO_ROOT: &str = "a root has 64 hexadecimal digits";

/// The number from 1 to the most shards that a word writes in decimal.
pub fn number(alloc: Global, name: &'static str, word: &str) -> Result<u32, Fault>
    ensures { IfOk result (λ number. 1 ≤ number) }
{
    match number_written(alloc, word)? {
        Some(number) if number >= 1 && number <= MOST_SHARDS => Ok(number),
        _ => Err(Fault::Word(WrongWord::Number(name, copy_of(alloc, word)?))),
    }
}

/// The numbers that the words after `--only` list, where it is given.
pub fn numbers(alloc: Global, options: &Options) -> Result<Option<Vec<u32>>, Fault> {
    if options.only.is_empty() {
        return Ok(None);
    }
    let mut numbers = Vec::new(alloc);
    for list in &options.only {
        add_numbers(alloc, list, &mut numbers)?;
    }
    Ok(Some(numbers))
}

/// Adds the numbers that the word lists, with commas between them.
fn add_numbers(alloc: Global, list: &str, numbers: &mut Vec<u32>) -> Result<(), Fault> {
    for part in list.split(',') {
        match number_written(alloc, part)? {
            Some(number) if number < MOST_SHARDS => numbers.push(number)?,
            _ => return Err(Fault::Word(WrongWord::Word(copy_of(alloc, list)?, NO_NUMBERS))),
        }
    }
    Ok(())
}

/// The root that the word after `--root` is, where it is given.
pub fn root_asked(alloc: Global, options: &Options) -> Result<Option<Digest>, Fault> {
    let Some(word) = options.root else {
        return Ok(None);
    };
    match root_of_word(word) {
        Some(root) => Ok(Some(root)),
        None => Err(Fault::Word(WrongWord::Word(copy_of(alloc, word)?, NO_ROOT))),
    }
}

/// The number that a hexadecimal digit has.
fn digit(byte: u8) -> Option<u8>
    ensures { IfSome result (λ digit. digit < 16) }
{
    match byte {
        b'0'..=b'9' => Some(byte - b'0'),
        b'a'..=b'f' => Some(byte - b'a' + 10),
        b'A'..=b'F' => Some(byte - b'A' + 10),
        _ => None,
    }
}

/// The root that a word has the 64 hexadecimal digits of.
fn root_of_word(word: &str) -> Option<Digest> {
    let (pairs, rest) = word.as_bytes().as_chunks::<2>();
    if pairs.len() != 32 || !rest.is_empty() {
        return None;
    }
    let mut root = [0u8; 32];
    for place in 0..32 {
        let [high, low] = pairs[place];
        root[place] = 16 * digit(high)? + digit(low)?;
    }
    Some(root)
}
