//! The header of a shard file: words of eight bytes, highest byte first.
//!
//! They are the mark, the version, the index, `min`, `total`, the block size, the length of the
//! file, the two keys, in version 3 whether records have paths, and the fingerprints of all these
//! under the one key and under the other.

ghost use Rattle.std.specs.Prelude.{◌≡◌, ◌≢◌, ◌↔◌, ◌<◌, ◌≤◌, ◌++◌, length, take, IsTrue, IsFalse, IfOk, OnOk, OnErr, MatchResult};
ghost use Rattle.std.specs.Int.{w64, to_be_bytes};
ghost use Rattle.math_numbers.specs.Goldilocks.{P};
ghost use Rattle.math_codec.specs.Faults.{Agrees, IsMemory, OnMemory, Reads, scan_exactly};
ghost use Rattle.math_fields.specs.Elements.{number};
ghost use Rattle.shard_format.specs.Formats.{version_of, word_count};
ghost use Rattle.shard_format.specs.Headers.{AdmitsHeader, AreNotZero, beginning_spelling, fingerprints_spelling, header_spelling, header_words, keys_spelling, paths_spelling, split_spelling, words_spelling};
ghost use Rattle.shard_format.specs.Headers.{scan_beginning, scan_fingerprints, scan_fixed, scan_flag, scan_header, scan_key, scan_keys, scan_length, scan_number, scan_paths, scan_split, scan_version, scan_words, version_in};
ghost use Rattle.shard_format.specs.HeaderLaws.{header_again, header_apart};
ghost use Rattle.shard_format.specs.Splits.{AreOfOneSplit, IsPossible, IsThatOf, is_of_split, largest_block};
ghost use Rattle.shard_format.specs.declared.header.Verdict.TheVariants.{Fits, Impossible, OtherIndex, OtherSplit};

use crate::formats::Format;
use math_codec::codec::{Encoding, Error, Mem, Read, Write, decode, roll_back};
use math_fields::goldilocks::{F, MODULUS};
use shard_fingerprints::{Keys, words_fingerprints};
use std::alloc::Global;

/// The word that every shard file begins with: 137, `SHARD`, and a line's end.
const MARK: u64 = 0x8953_4841_5244_0d0a;

/// The number of bytes of a header of version 3. One of version 2 has fewer.
pub const LARGEST_HEADER: usize = 96;

/// What a shard file says of itself.
#[derive(Clone, Copy, Debug)]
pub struct Header {
    /// What the records hold.
    pub format: Format,
    /// Which of the shards it is, from 0 on.
    pub index: u32,
    /// How many shards give the file back.
    pub min: u32,
    /// How many shards there are.
    pub total: u32,
    /// The number of bytes of each block but the last.
    pub block: u32,
    /// The number of bytes of the file, below P.
    pub length: u64,
    /// The keys of the split, neither of which is zero.
    pub keys: Keys,
}

impl Encoding for Header {
    ghost spelling = { header_spelling };

    ghost alike = { λ g h. g ≡ h };
}

/// How many words a header has before its fingerprints, at most.
const MOST_WORDS: usize = 10;

/// The words of a header before its fingerprints, as elements, and the last of them in every
/// version.
fn all_words(header: &Header) -> [F; MOST_WORDS]
    ensures { take (word_count (version_of header.now.format)) result ≡ header_words header.now }
{
    [
        F::from(MARK),
        F::from(header.format.version()),
        F::from(header.index as u64),
        F::from(header.min as u64),
        F::from(header.total as u64),
        F::from(header.block as u64),
        F::from(header.length),
        header.keys.first,
        header.keys.second,
        F::from(header.format.paths_word()),
    ]
}

/// The words of a header before its fingerprints, as elements, which are put into `room`.
fn words_of<'a>(header: &Header, room: &'a mut [F; MOST_WORDS]) -> &'a [F]
    ensures { result.now ≡ header_words header.now }
{
    *room = all_words(header);
    &room[..header.format.word_count()]
}

/// Reads the one word that may stand here; another one is `Invalid` under the name.
#[tactic(auto, unfolding(crate::specs::Headers::scan_fixed))]
fn read_fixed(alloc: Global, input: &mut &[u8], word: u64, name: &'static str) -> Result<(), Error>
    ensures taken { OnOk result (input.old.now ≡ to_be_bytes w64 word ++ input.new.now) }
    ensures stays { OnErr result (input.new ≡ input.old) }
    ensures memory { OnMemory result ⊥ }
    ensures exact { Reads result input.new.now (scan_fixed word name.now input.old.now) }
{
    let mut rest = *input;
    let found = u64::read_cfg(alloc, &mut rest, &())?;
    if found != word {
        return Err(Error::Invalid("header", name));
    }
    *input = rest;
    Ok(())
}

/// Reads a word below 2^32.
#[tactic(auto, unfolding(crate::specs::Headers::scan_number))]
pub(crate) fn read_number(alloc: Global, input: &mut &[u8]) -> Result<u32, Error>
    ensures taken { IfOk result (λ n. input.old.now ≡ to_be_bytes w64 n ++ input.new.now) }
    ensures stays { OnErr result (input.new ≡ input.old) }
    ensures memory { OnMemory result ⊥ }
    ensures exact { Reads result input.new.now (scan_number input.old.now) }
{
    let mut rest = *input;
    let word = u64::read_cfg(alloc, &mut rest, &())?;
    let Ok(number) = u32::try_from(word) else {
        return Err(Error::Invalid("header", "number"));
    };
    *input = rest;
    Ok(number)
}

/// Reads a word below P.
#[tactic(auto, unfolding(crate::specs::Headers::scan_length))]
fn read_length(alloc: Global, input: &mut &[u8]) -> Result<u64, Error>
    ensures taken { IfOk result (λ n. input.old.now ≡ to_be_bytes w64 n ++ input.new.now) }
    ensures below { IfOk result (λ n. n < P) }
    ensures stays { OnErr result (input.new ≡ input.old) }
    ensures memory { OnMemory result ⊥ }
    ensures exact { Reads result input.new.now (scan_length input.old.now) }
{
    let mut rest = *input;
    let word = u64::read_cfg(alloc, &mut rest, &())?;
    if word >= MODULUS {
        return Err(Error::Invalid("header", "length"));
    }
    *input = rest;
    Ok(word)
}

/// Reads a word below P that is not zero, as an element.
#[tactic(auto, unfolding(crate::specs::Headers::scan_key))]
fn read_key(alloc: Global, input: &mut &[u8]) -> Result<F, Error>
    ensures taken { IfOk result
        (λ key. input.old.now ≡ to_be_bytes w64 (number key) ++ input.new.now) }
    ensures some { IfOk result (λ key. number key ≢ 0) }
    ensures stays { OnErr result (input.new ≡ input.old) }
    ensures memory { OnMemory result ⊥ }
    ensures exact { Reads result input.new.now (scan_key input.old.now) }
{
    let mut rest = *input;
    let word = u64::read_cfg(alloc, &mut rest, &())?;
    if word == 0 || word >= MODULUS {
        return Err(Error::Invalid("header", "key"));
    }
    *input = rest;
    Ok(F::from(word))
}

/// Reads the version: 2 or 3.
#[tactic(auto, unfolding(crate::specs::Headers::scan_version))]
fn read_version(alloc: Global, input: &mut &[u8]) -> Result<u64, Error>
    ensures taken { IfOk result
        (λ version. input.old.now ≡ to_be_bytes w64 version ++ input.new.now) }
    ensures known { IfOk result (λ version. (2 ≤ version) × (version ≤ 3)) }
    ensures stays { OnErr result (input.new ≡ input.old) }
    ensures memory { OnMemory result ⊥ }
    ensures exact { Reads result input.new.now (scan_version input.old.now) }
{
    let mut rest = *input;
    let version = u64::read_cfg(alloc, &mut rest, &())?;
    if version != 2 && version != 3 {
        return Err(Error::Invalid("header", "version"));
    }
    *input = rest;
    Ok(version)
}

/// What a header begins with, after its mark.
#[derive(Clone, Copy)]
struct Beginning {
    version: u64,
    index: u32,
    ghost least: { 2 ≤ version },
    ghost most: { version ≤ 3 },
}

/// Reads the mark, the version and the index.
#[tactic(auto, unfolding(crate::specs::Headers::scan_beginning))]
fn read_beginning(alloc: Global, input: &mut &[u8]) -> Result<Beginning, Error>
    ensures taken { IfOk result
        (λ b. input.old.now ≡ beginning_spelling b.version b.index ++ input.new.now) }
    ensures version { IfOk result (λ b. b.version ≡ version_in input.old.now) }
    ensures stays { OnErr result (input.new ≡ input.old) }
    ensures memory { OnMemory result ⊥ }
    ensures exact { Reads result input.new.now (scan_beginning input.old.now) }
{
    let mut rest = *input;
    read_fixed(alloc, &mut rest, MARK, "mark")?;
    let version = read_version(alloc, &mut rest)?;
    let index = read_number(alloc, &mut rest)?;
    *input = rest;
    Ok(Beginning { version, index })
}

/// Reads a word that is 0 or 1, and says whether it is 1.
#[tactic(auto, unfolding(crate::specs::Headers::scan_flag))]
fn read_flag(alloc: Global, input: &mut &[u8]) -> Result<bool, Error>
    ensures set { IfOk result (λ flag. IsTrue flag
        → input.old.now ≡ to_be_bytes w64 1 ++ input.new.now) }
    ensures clear { IfOk result (λ flag. IsFalse flag
        → input.old.now ≡ to_be_bytes w64 0 ++ input.new.now) }
    ensures stays { OnErr result (input.new ≡ input.old) }
    ensures memory { OnMemory result ⊥ }
    ensures exact { Reads result input.new.now (scan_flag input.old.now) }
{
    let mut rest = *input;
    let word = u64::read_cfg(alloc, &mut rest, &())?;
    if word >= 2 {
        return Err(Error::Invalid("header", "paths"));
    }
    *input = rest;
    Ok(word == 1)
}

/// Reads what a header of this version says of paths.
fn read_format(alloc: Global, input: &mut &[u8], version: u64) -> Result<Format, Error>
    requires least { 2 ≤ version }
    requires most { version ≤ 3 }
    ensures taken { IfOk result (λ f. input.old.now ≡ paths_spelling f ++ input.new.now) }
    ensures version { IfOk result (λ f. version_of f ≡ version) }
    ensures stays { OnErr result (input.new ≡ input.old) }
    ensures memory { OnMemory result ⊥ }
    ensures exact { Reads result input.new.now (scan_paths version input.old.now) }
{
    if version == 2 {
        return Ok(Format::Cells);
    }
    if read_flag(alloc, input)? {
        Ok(Format::RowsWithPaths)
    } else {
        Ok(Format::Rows)
    }
}

/// What all headers of a split share beside its keys: `min`, `total`, the block size and the
/// length.
#[derive(Clone, Copy)]
struct Numbers {
    min: u32,
    total: u32,
    block: u32,
    length: u64,
}

/// Reads the numbers of a split.
#[tactic(auto, unfolding(crate::specs::Headers::scan_split))]
fn read_numbers(alloc: Global, input: &mut &[u8]) -> Result<Numbers, Error>
    ensures taken { IfOk result
        (λ n. input.old.now ≡ split_spelling n.min n.total n.block n.length ++ input.new.now) }
    ensures below { IfOk result (λ n. n.length < P) }
    ensures stays { OnErr result (input.new ≡ input.old) }
    ensures memory { OnMemory result ⊥ }
    ensures exact { Reads result input.new.now (scan_split input.old.now) }
{
    let mut rest = *input;
    let min = read_number(alloc, &mut rest)?;
    let total = read_number(alloc, &mut rest)?;
    let block = read_number(alloc, &mut rest)?;
    let length = read_length(alloc, &mut rest)?;
    *input = rest;
    Ok(Numbers {
        min,
        total,
        block,
        length,
    })
}

/// Reads two keys.
#[tactic(auto, unfolding(crate::specs::Headers::scan_keys))]
fn read_keys(alloc: Global, input: &mut &[u8]) -> Result<Keys, Error>
    ensures taken { IfOk result (λ keys. input.old.now ≡ keys_spelling keys ++ input.new.now) }
    ensures some { IfOk result AreNotZero }
    ensures stays { OnErr result (input.new ≡ input.old) }
    ensures memory { OnMemory result ⊥ }
    ensures exact { Reads result input.new.now (scan_keys input.old.now) }
{
    let mut rest = *input;
    let first = read_key(alloc, &mut rest)?;
    let second = read_key(alloc, &mut rest)?;
    *input = rest;
    Ok(Keys { first, second })
}

/// Reads the fingerprints of some words under two keys.
#[tactic(auto, unfolding(crate::specs::Headers::scan_fingerprints))]
fn read_fingerprints(
    alloc: Global,
    input: &mut &[u8],
    keys: &Keys,
    words: &[F],
) -> Result<(), Error>
    ensures taken { OnOk result
        (input.old.now ≡ fingerprints_spelling keys.now words.now ++ input.new.now) }
    ensures stays { OnErr result (input.new ≡ input.old) }
    ensures memory { OnMemory result ⊥ }
    ensures exact { Reads result input.new.now
        (scan_fingerprints words.now keys.now.first keys.now.second input.old.now) }
{
    let fingerprints = words_fingerprints(keys, words);
    let first = fingerprints.first.number();
    let second = fingerprints.second.number();
    let mut rest = *input;
    read_fixed(alloc, &mut rest, first, "fingerprint")?;
    read_fixed(alloc, &mut rest, second, "fingerprint")?;
    *input = rest;
    Ok(())
}

/// Reads a header up to its fingerprints.
#[tactic(auto, unfolding(crate::specs::Headers::scan_words))]
fn read_header(alloc: Global, input: &mut &[u8]) -> Result<Header, Error>
    ensures taken { IfOk result (λ h. input.old.now ≡ words_spelling h ++ input.new.now) }
    ensures admitted { IfOk result AdmitsHeader }
    ensures stays { OnErr result (input.new ≡ input.old) }
    ensures memory { OnMemory result ⊥ }
    ensures exact { Reads result input.new.now (scan_words input.old.now) }
{
    let mut rest = *input;
    let Beginning { version, index } = read_beginning(alloc, &mut rest)?;
    let Numbers {
        min,
        total,
        block,
        length,
    } = read_numbers(alloc, &mut rest)?;
    let keys = read_keys(alloc, &mut rest)?;
    let format = read_format(alloc, &mut rest, version)?;
    *input = rest;
    Ok(Header {
        format,
        index,
        min,
        total,
        block,
        length,
        keys,
    })
}

impl Read for Header {
    type Cfg = ();

    ghost admits = { λ _. AdmitsHeader };

    ghost scan = { λ _. scan_header };

    ghost grows = { λ _ _. ⊥ };

    /// Reads the mark, the version, the five numbers, the keys, what the header says of paths and
    /// the fingerprints, and refuses with the first fault of these.
    #[tactic(auto, unfolding(crate::specs::Headers::scan_header))]
    fn read_cfg(alloc: Global, input: &mut &[u8], _cfg: &()) -> Result<Header, Error> {
        let mut rest = *input;
        let header = read_header(alloc, &mut rest)?;
        let mut room = [F::from(0); MOST_WORDS];
        let words = words_of(&header, &mut room);
        read_fingerprints(alloc, &mut rest, &header.keys, words)?;
        *input = rest;
        Ok(header)
    }

    ghost again = { λ _. header_again };

    ghost apart = { λ _. header_apart };
}

/// Writes the numbers of a split. What is written stays where memory runs out.
fn write_split(alloc: Global, header: &Header, out: &mut Vec<u8>) -> Mem<()>
    ensures ok { OnOk result (out.new.items ≡ out.old.items
        ++ split_spelling header.now.min header.now.total header.now.block header.now.length) }
    ensures kept { take (length out.old.items) out.new.items ≡ out.old.items }
{
    (header.min as u64).write(alloc, out)?;
    (header.total as u64).write(alloc, out)?;
    (header.block as u64).write(alloc, out)?;
    header.length.write(alloc, out)?;
    Ok(())
}

/// Writes two elements. What is written stays where memory runs out.
pub(crate) fn write_pair(alloc: Global, first: F, second: F, out: &mut Vec<u8>) -> Mem<()>
    ensures ok { OnOk result (out.new.items ≡ out.old.items
        ++ (to_be_bytes w64 (number first) ++ to_be_bytes w64 (number second))) }
    ensures kept { take (length out.old.items) out.new.items ≡ out.old.items }
{
    first.write(alloc, out)?;
    second.write(alloc, out)?;
    Ok(())
}

/// Writes the mark, the version and the index. What is written stays where memory runs out.
fn write_beginning(alloc: Global, version: u64, index: u32, out: &mut Vec<u8>) -> Mem<()>
    ensures ok { OnOk result (out.new.items ≡ out.old.items ++ beginning_spelling version index) }
    ensures kept { take (length out.old.items) out.new.items ≡ out.old.items }
{
    MARK.write(alloc, out)?;
    version.write(alloc, out)?;
    (index as u64).write(alloc, out)?;
    Ok(())
}

/// Writes what a header says of paths. What is written stays where memory runs out.
fn write_paths(alloc: Global, format: Format, out: &mut Vec<u8>) -> Mem<()>
    ensures ok { OnOk result (out.new.items ≡ out.old.items ++ paths_spelling format) }
    ensures kept { take (length out.old.items) out.new.items ≡ out.old.items }
{
    match format {
        Format::Cells => Ok(()),
        Format::Rows => 0u64.write(alloc, out),
        Format::RowsWithPaths => 1u64.write(alloc, out),
    }
}

/// Writes the words of a header before its fingerprints. What is written stays where memory runs
/// out.
fn write_words(alloc: Global, header: &Header, out: &mut Vec<u8>) -> Mem<()>
    ensures ok { OnOk result (out.new.items ≡ out.old.items ++ words_spelling header.now) }
    ensures kept { take (length out.old.items) out.new.items ≡ out.old.items }
{
    let keys = header.keys;
    write_beginning(alloc, header.format.version(), header.index, out)?;
    write_split(alloc, header, out)?;
    write_pair(alloc, keys.first, keys.second, out)?;
    write_paths(alloc, header.format, out)?;
    Ok(())
}

/// Writes the fingerprints of some words under two keys. What is written stays where memory runs
/// out.
fn write_fingerprints(alloc: Global, keys: &Keys, words: &[F], out: &mut Vec<u8>) -> Mem<()>
    ensures ok { OnOk result (out.new.items
        ≡ out.old.items ++ fingerprints_spelling keys.now words.now) }
    ensures kept { take (length out.old.items) out.new.items ≡ out.old.items }
{
    let fingerprints = words_fingerprints(keys, words);
    write_pair(alloc, fingerprints.first, fingerprints.second, out)
}

/// Writes a header. What is written stays where memory runs out.
fn write_header(alloc: Global, header: &Header, out: &mut Vec<u8>) -> Mem<()>
    ensures ok { OnOk result (out.new.items ≡ out.old.items ++ header_spelling header.now) }
    ensures kept { take (length out.old.items) out.new.items ≡ out.old.items }
{
    let mut room = [F::from(0); MOST_WORDS];
    let words = words_of(header, &mut room);
    write_words(alloc, header, out)?;
    write_fingerprints(alloc, &header.keys, words, out)?;
    Ok(())
}

impl Write for Header {
    ghost fits = { λ _. Unit {0} };

    /// Writes the words.
    fn write(&self, alloc: Global, out: &mut Vec<u8>) -> Mem<()> {
        let start = out.len();
        let written = write_header(alloc, self, out);
        roll_back(alloc, written, start, out)
    }
}

/// Returns the bytes of the header.
///
/// `header_in` reads them if the length is below P and neither key is zero.
pub fn header_bytes(alloc: Global, header: &Header) -> Mem<Vec<u8>>
    ensures { IfOk result (λ bytes. bytes.items ≡ header_spelling header.now) }
{
    let mut bytes = Vec::new(alloc);
    header.write(alloc, &mut bytes)?;
    Ok(bytes)
}

/// Returns the header that the bytes encode. It refuses with the first fault from left to right if
/// they encode none, the length is P or more, or a key is zero. It never refuses for want of
/// memory.
pub fn header_in(alloc: Global, bytes: &[u8]) -> Result<Header, Error>
    ensures taken { IfOk result (λ h. bytes.now ≡ header_spelling h) }
    ensures admitted { IfOk result AdmitsHeader }
    ensures again { (h : Header) → AdmitsHeader h → bytes.now ≡ header_spelling h
        → MatchResult result (λ g. g ≡ h) IsMemory }
    ensures memory { OnMemory result ⊥ }
    ensures exact { Agrees (λ _. tt) result (scan_exactly scan_header bytes.now) }
{
    decode::<Header>(alloc, bytes, &())
}

/// What a header turns out to be.
#[derive(Clone, Copy, Debug, PartialEq, Eq)]
pub enum Verdict {
    /// It is that of a shard of the split.
    Fits,
    /// No split has these numbers.
    Impossible,
    /// The index is not the number in the file's name.
    OtherIndex,
    /// Its shard is one of another split.
    OtherSplit,
}

impl Header {
    /// Returns the greatest number of bytes that a block may have: 1 MiB, and so many that
    /// `total` / `min` blocks have 32 MiB at most. The shards of a block take as much, and some
    /// bytes for their numbers. `total` is at least 1.
    pub fn largest_block(min: u32, total: u32) -> u32
        requires { 1 ≤ total }
        ensures { result ≡ largest_block min total }
    {
        let bytes = (1 << 25) * u64::from(min) / u64::from(total);
        bytes.min(1 << 20) as u32
    }

    /// Returns whether a split can have these numbers.
    pub fn is_possible(&self) -> bool
        ensures { IsTrue result ↔ IsPossible self.now }
    {
        1 <= self.min
            && self.min <= self.total
            && self.total <= MOST_SHARDS
            && self.index < self.total
            && 1 <= self.block
            && self.block <= Header::largest_block(self.min, self.total)
    }

    /// Returns whether both are headers of shards of one file, split in one way with one pair of
    /// keys, in one format.
    pub fn is_of_split(&self, other: &Header) -> bool
        ensures exact { IsTrue result ↔ AreOfOneSplit self.now other.now }
        ensures test { result ≡ is_of_split self.now other.now }
    {
        self.format.is_same(other.format)
            && self.min == other.min
            && self.total == other.total
            && self.block == other.block
            && self.length == other.length
            && self.keys.first == other.keys.first
            && self.keys.second == other.keys.second
    }

    /// Returns the verdict on this header: whether it is that of the shard with this number, of the
    /// split that the other header belongs to.
    pub fn judge(&self, number: u32, split: &Header) -> Verdict
        ensures fits { result ≡ Fits ↔ IsThatOf self.now number split.now }
        ensures impossible { result ≡ Impossible ↔ ¬ (IsPossible self.now) }
        ensures index { result ≡ OtherIndex → ¬ (self.now.index ≡ number) }
        ensures split { result ≡ OtherSplit → ¬ (AreOfOneSplit self.now split.now) }
    {
        if !self.is_possible() {
            return Verdict::Impossible;
        }
        if self.index != number {
            return Verdict::OtherIndex;
        }
        if !self.is_of_split(split) {
            return Verdict::OtherSplit;
        }
        Verdict::Fits
    }
}

/// The greatest number of shards.
pub const MOST_SHARDS: u32 = 1 << 16;
