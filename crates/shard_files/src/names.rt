//! The names of shard files.

ghost use Rattle.std.specs.Prelude.{◌≡◌, IfOk, IfSome};
ghost use Rattle.std.specs.Fmt.{decimal};

use shard_format::header::MOST_SHARDS;
use std::alloc::{AllocError, Global};

/// The name of the shard with this number: the file's, a point, and the number.
pub fn shard_name(alloc: Global, file: &str, number: u32) -> Result<String, AllocError> {
    format!(in alloc; "{file}.{number}")
}

/// The number that a name ends with after the file's own and a point, as `shard_name` writes it.
pub fn number_in(alloc: Global, file: &str, name: &str) -> Result<Option<u32>, AllocError> {
    let Some(rest) = name.strip_prefix(file) else {
        return Ok(None);
    };
    let Some(digits) = rest.strip_prefix('.') else {
        return Ok(None);
    };
    Ok(number_written(alloc, digits)?.filter(|number| *number < MOST_SHARDS))
}

/// The number that a word is in decimal digits, with no sign before them and no needless zero.
pub fn number_written(alloc: Global, word: &str) -> Result<Option<u32>, AllocError>
    ensures { IfOk result (λ answer. IfSome answer (λ number. word.now ≡ decimal number)) }
{
    let Ok(number) = word.parse::<u32>() else {
        return Ok(None);
    };
    let digits = format!(in alloc; "{number}")?;
    Ok((digits.as_str() == word).then_some(number))
}

/// What a name has before a point and the number of a shard, where it ends with these.
pub fn name_before_number<'a>(alloc: Global, name: &'a str) -> Result<Option<&'a str>, AllocError> {
    let Some((file, _)) = name.rsplit_once('.') else {
        return Ok(None);
    };
    let is_numbered = number_in(alloc, file, name)?.is_some();
    Ok((is_numbered && can_be_file(file)).then_some(file))
}

/// Whether a file can have the name: its last part is there, and neither `.` nor `..`.
pub fn can_be_file(name: &str) -> bool {
    let last = match name.rsplit_once('/') {
        Some((_, last)) => last,
        None => name,
    };
    !matches!(last, "" | "." | "..")
}
