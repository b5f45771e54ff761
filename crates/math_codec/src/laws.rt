//! Laws of encodings, each the contract of a function.

ghost use Rattle.std.specs.Prelude.{◌≡◌, MatchResult};
ghost use Rattle.math_codec.specs.Faults.{IsMemory};
ghost use Rattle.math_codec.specs.Theorems.{EachLengthIsSpelled, EachLengthHasOneSpelling, OnlyLengthsAreSpelled, LengthIsReadWhereSpelled, LengthEndsWhereMarked, OtherLengthsAreInvalid, NoSpellingBeginsAnother, TakesEachSpelling};

use crate::codec::{Error, Read, Write};
use std::alloc::Global;

/// What was written is read again, whatever follows it: this writes `value` and then `rest`, reads
/// a value, and gives it with what is left.
pub fn written_is_read<T: Read + Write + Drop>(
    alloc: Global,
    value: &T,
    rest: &[u8],
    cfg: &T::Cfg,
) -> Result<(T, Vec<u8>), Error>
    requires fits { T.fits value.now }
    requires admitted { T.admits cfg.now value.now }
    ensures { MatchResult result (λ x. T.alike x.0 value.now × (x.1.items ≡ rest.now)) IsMemory }
{
    let mut out = Vec::new(alloc);
    value.write(alloc, &mut out)?;
    out.extend_from_slice(rest)?;
    let mut input = out.as_slice();
    let read = T::read_cfg(alloc, &mut input, cfg)?;
    let left = Vec::from_slice(alloc, input)?;
    Ok((read, left))
}

/// Each length below 2^32 has one spelling, and no other number has one.
pub fn each_length_has_one_spelling()
    ensures spelled { EachLengthIsSpelled }
    ensures only { EachLengthHasOneSpelling }
    ensures below { OnlyLengthsAreSpelled }
{}

/// A length is read exactly where a spelling of it stands in front.
pub fn length_is_read_where_it_is_spelled()
    ensures { LengthIsReadWhereSpelled }
{}

/// A read of a length meets the end exactly where fewer than five bytes remain and bit 7 is set on
/// each, and every other fault is `InvalidVarint`.
pub fn length_ends_where_each_byte_is_marked()
    ensures ends { LengthEndsWhereMarked }
    ensures others { OtherLengthsAreInvalid }
{}

/// No spelling begins another, and each spells one value.
pub fn no_spelling_begins_another<T: Read>()
    ensures { (cfg : T.Cfg) → NoSpellingBeginsAnother T.spelling (T.admits cfg) T.alike }
{}

/// Where a value that the configuration admits is spelled in front, reading meets no fault, and
/// takes that spelling.
pub fn no_fault_at_an_encoding<T: Read>()
    ensures { (cfg : T.Cfg) → TakesEachSpelling T.spelling (T.admits cfg) (T.scan cfg) }
{}
