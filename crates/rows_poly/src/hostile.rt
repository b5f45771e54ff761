//! Byte strings that are no encodings, or that claim more than follows.
//!
//! Each is read as a list of words, as a polynomial, as a matrix or as a shard, with configurations
//! that admit every length. What is accepted has to be written back to exactly the bytes that were
//! taken, and what is refused has to leave the input. Where allocations are refused, the library
//! that refuses them says that while a string is read no allocation is larger than the bytes at
//! hand justify: room for four items, or for twice as many as the bytes can spell.

ghost use Rattle.std.specs.Prelude.{◌<◌, IfOk};

use crate::encodings::{read_from, write_matrix, write_to};
use math_base::algebra::Mem;
use math_codec::codec::{Error, LengthRange, Read};
use math_fields::goldilocks::F;
use math_ntt::ntt::Matrix;
use math_poly::poly::Poly;
use math_shards::shards::Shard;
use rows_base::fault::Fault;
use rows_base::refusals::{are_made, refuse, took_more_than};
use rows_base::words::{split_at_mark, two_numbers};
use std::alloc::Global;

/// The words 1 and 256 as a list.
const WORDS: [u8; 17] = [2, 0, 0, 0, 0, 0, 0, 0, 1, 0, 0, 0, 0, 0, 0, 1, 0];

/// The polynomial [4, 6, 8].
const POLYNOMIAL: [u8; 25] = [
    3, 0, 0, 0, 0, 0, 0, 0, 4, 0, 0, 0, 0, 0, 0, 0, 6, 0, 0, 0, 0, 0, 0, 0, 8,
];

/// The matrix [[1, 2], [3, 0]].
const MATRIX: [u8; 35] = [
    2, 2, 4, 0, 0, 0, 0, 0, 0, 0, 1, 0, 0, 0, 0, 0, 0, 0, 2, 0, 0, 0, 0, 0, 0, 0, 3, 0, 0, 0, 0, 0,
    0, 0, 0,
];

/// Shard 0 of the word 1, of which four are made and three give it back.
const SHARD: [u8; 12] = [0, 3, 4, 1, 0, 0, 0, 0, 0, 0, 0, 3];

/// A claim of 2^32 - 1 words or coefficients before three bytes, and before one word and three
/// bytes.
const LIST_CLAIMS: [&[u8]; 2] = [
    &[255, 255, 255, 255, 15, 1, 2, 3],
    &[255, 255, 255, 255, 15, 0, 0, 0, 0, 0, 0, 0, 1, 1, 2, 3],
];

/// The same of cells.
const MATRIX_CLAIMS: [&[u8]; 2] = [
    &[2, 2, 255, 255, 255, 255, 15, 1, 2, 3],
    &[
        2, 2, 255, 255, 255, 255, 15, 0, 0, 0, 0, 0, 0, 0, 1, 1, 2, 3,
    ],
];

/// The same of cells of a shard.
const SHARD_CLAIMS: [&[u8]; 2] = [
    &[0, 1, 1, 255, 255, 255, 255, 15, 1, 2, 3],
    &[
        0, 1, 1, 255, 255, 255, 255, 15, 0, 0, 0, 0, 0, 0, 0, 1, 1, 2, 3,
    ],
];

/// Runs a call of this module; `false` where it is none.
pub fn run(alloc: Global, call: &str, arguments: &str, text: &mut String) -> Result<bool, Fault> {
    let done = match call {
        "hostile" => put_generated(alloc, arguments, text),
        "claims" => put_claims(alloc, arguments, text),
        _ => return Ok(false),
    };
    done.and(Ok(true))
}

/// What reading a byte string showed.
#[derive(Clone, Copy, PartialEq, Eq)]
enum Outcome {
    /// A value was read, which is written as the bytes that were taken.
    Accepted,
    /// The bytes ended within a value, and the input stands.
    Ended,
    /// There was another fault, and the input stands.
    Refused,
    /// It is none of these, or an allocation was too large.
    Wrong,
}

/// Whether the library is there that refuses allocations and sees the largest. None is refused from
/// then on.
fn is_watched(alloc: Global) -> bool {
    let made = are_made(alloc);
    refuse(alloc, 0);
    made
}

/// Whether an allocation since `refuse` was larger than so many bytes justify, with items of eight
/// bytes.
fn took_too_much(alloc: Global, bytes: &[u8]) -> bool {
    let most = bytes.len().saturating_mul(2).saturating_add(32);
    most < 4096 && took_more_than(alloc, most as u32)
}

/// What it shows that such a value, or none, was read from the bytes, and that so much of them is
/// left.
fn outcome_of(bytes: &[u8], left: &[u8], read: Result<Vec<u8>, Fault>) -> Outcome {
    match read {
        Ok(written) => {
            let count = written.len().saturating_add(left.len());
            if count == bytes.len() && bytes.starts_with(&written) && bytes.ends_with(left) {
                Outcome::Accepted
            } else {
                Outcome::Wrong
            }
        }
        Err(Fault::Bytes(_)) if left != bytes => Outcome::Wrong,
        Err(Fault::Bytes(Error::EndOfBuffer)) => Outcome::Ended,
        Err(Fault::Bytes(_)) => Outcome::Refused,
        Err(_) => Outcome::Wrong,
    }
}

/// Reads a value, where the library is there with an eye on allocations.
fn read<T: Read + Drop>(
    alloc: Global,
    watched: bool,
    input: &mut &[u8],
    cfg: &T::Cfg,
) -> Result<T, Fault>
    ensures { IfOk result (T.admits cfg.now) }
{
    let bytes = *input;
    if watched {
        refuse(alloc, 0);
    }
    let read = read_from::<T>(alloc, input, cfg);
    if watched && took_too_much(alloc, bytes) {
        return Err(Fault::OutOfRange("an allocation that is too large"));
    }
    Ok(read?)
}

/// Reads a list of words, and writes it again.
fn as_words(alloc: Global, watched: bool, input: &mut &[u8]) -> Result<Vec<u8>, Fault> {
    let words: Vec<u64> = read(alloc, watched, input, &(LengthRange::at_most(u32::MAX), ()))?;
    let mut out = Vec::new(alloc);
    if words.len() <= u32::MAX as usize {
        write_to(alloc, &words, &mut out)?;
    }
    Ok(out)
}

/// Reads a polynomial, and writes it again.
fn as_polynomial(alloc: Global, watched: bool, input: &mut &[u8]) -> Result<Vec<u8>, Fault> {
    let p: Poly<F> = read(alloc, watched, input, &(LengthRange::at_most(u32::MAX), ()))?;
    let mut out = Vec::new(alloc);
    write_to(alloc, &p, &mut out)?;
    Ok(out)
}

/// Reads a matrix, and writes it again.
fn as_matrix(alloc: Global, watched: bool, input: &mut &[u8]) -> Result<Vec<u8>, Fault> {
    let m: Matrix<F> = read(alloc, watched, input, &(u32::MAX, ()))?;
    let mut out = Vec::new(alloc);
    write_matrix(alloc, &m, &mut out)?;
    Ok(out)
}

/// Reads a shard, and writes it again.
fn as_shard(alloc: Global, watched: bool, input: &mut &[u8]) -> Result<Vec<u8>, Fault> {
    let shard: Shard = read(alloc, watched, input, &u32::MAX)?;
    let mut out = Vec::new(alloc);
    if shard.cells.len() <= u32::MAX as usize {
        write_to(alloc, &shard, &mut out)?;
    }
    Ok(out)
}

/// As what bytes are read.
#[derive(Clone, Copy)]
enum Kind {
    Words,
    Polynomials,
    Matrices,
    Shards,
}

impl Kind {
    /// The kind of a name.
    fn of_name(name: &str) -> Result<Kind, Fault> {
        match name.trim() {
            "words" => Ok(Kind::Words),
            "polynomials" => Ok(Kind::Polynomials),
            "matrices" => Ok(Kind::Matrices),
            "shards" => Ok(Kind::Shards),
            _ => Err(Fault::Unreadable("kind")),
        }
    }

    /// What reading the bytes as this kind shows.
    fn outcome(self, alloc: Global, watched: bool, bytes: &[u8]) -> Outcome {
        let mut input = bytes;
        let read = match self {
            Kind::Words => as_words(alloc, watched, &mut input),
            Kind::Polynomials => as_polynomial(alloc, watched, &mut input),
            Kind::Matrices => as_matrix(alloc, watched, &mut input),
            Kind::Shards => as_shard(alloc, watched, &mut input),
        };
        outcome_of(bytes, input, read)
    }

    /// Claims of more items than there are bytes.
    fn claims(self) -> [&'static [u8]; 2] {
        match self {
            Kind::Words | Kind::Polynomials => LIST_CLAIMS,
            Kind::Matrices => MATRIX_CLAIMS,
            Kind::Shards => SHARD_CLAIMS,
        }
    }
}

/// The next word of the generator splitmix64.
fn next_word(state: &mut u64) -> u64 {
    *state = state.wrapping_add(0x9e37_79b9_7f4a_7c15);
    let a = (*state ^ (*state >> 30)).wrapping_mul(0xbf58_476d_1ce4_e5b9);
    let b = (a ^ (a >> 27)).wrapping_mul(0x94d0_49bb_1331_11eb);
    b ^ (b >> 31)
}

/// A number below n, which is not zero.
fn below(state: &mut u64, n: usize) -> usize
    requires { 0 < n }
    ensures { result < n }
{
    (next_word(state) % n as u64) as usize
}

/// The next byte, which is often one that a length or a word turns on.
fn next_byte(state: &mut u64) -> u8 {
    let word = next_word(state);
    match word % 8 {
        0 => 0,
        1 => 1,
        2 => 0x80,
        3 => 0xff,
        _ => (word >> 56) as u8,
    }
}

/// An encoding of two words, of a polynomial, of a matrix or of a shard.
fn next_encoding(state: &mut u64) -> &'static [u8] {
    match next_word(state) % 4 {
        0 => &WORDS,
        1 => &POLYNOMIAL,
        2 => &SHARD,
        _ => &MATRIX,
    }
}

/// The bytes with one change: a byte changed, doubled or inserted, the end cut off, or an encoding
/// joined to them.
fn with_one_change(alloc: Global, bytes: &[u8], state: &mut u64) -> Mem<Vec<u8>> {
    let n = bytes.len();
    if n == 0 {
        return Vec::from_slice(alloc, next_encoding(state));
    }
    let i = below(state, n);
    let byte = [next_byte(state)];
    let (middle, rest): (&[u8], usize) = match next_word(state) % 5 {
        0 => (&byte, i + 1),
        1 => (&bytes[i..i + 1], i),
        2 => (&byte, i),
        3 => (&[], n),
        _ => return concatenate(alloc, bytes, next_encoding(state), &[]),
    };
    concatenate(alloc, &bytes[..i], middle, &bytes[rest..])
}

/// The bytes of all three.
fn concatenate(alloc: Global, a: &[u8], b: &[u8], c: &[u8]) -> Mem<Vec<u8>> {
    let mut out = Vec::from_slice(alloc, a)?;
    out.extend_from_slice(b)?;
    out.extend_from_slice(c)?;
    Ok(out)
}

/// How often reading showed what.
#[derive(Clone, Copy)]
struct Tally {
    accepted: u64,
    ended: u64,
    refused: u64,
    wrong: u64,
}

impl Tally {
    /// Nothing was read.
    const EMPTY: Tally = Tally {
        accepted: 0,
        ended: 0,
        refused: 0,
        wrong: 0,
    };

    fn add(&mut self, outcome: Outcome) {
        match outcome {
            Outcome::Accepted => self.accepted = self.accepted.saturating_add(1),
            Outcome::Ended => self.ended = self.ended.saturating_add(1),
            Outcome::Refused => self.refused = self.refused.saturating_add(1),
            Outcome::Wrong => self.wrong = self.wrong.saturating_add(1),
        }
    }

    /// Adds the numbers, each with what they count.
    fn put(self, text: &mut String) -> Mem<()> {
        let Tally {
            accepted,
            ended,
            refused,
            wrong,
        } = self;
        write!(
            text,
            " {accepted} accepted {ended} ended {refused} refused {wrong} wrong"
        )
    }
}

/// A byte string that is made from an encoding by one to three changes.
fn next_string(alloc: Global, state: &mut u64) -> Mem<Vec<u8>> {
    let mut bytes = with_one_change(alloc, next_encoding(state), state)?;
    for _ in 0..next_word(state) % 3 {
        bytes = with_one_change(alloc, &bytes, state)?;
    }
    Ok(bytes)
}

/// Reads so many byte strings of a seed as this kind.
fn read_generated(alloc: Global, kind: Kind, count: u64, seed: u64) -> Mem<Tally> {
    let watched = is_watched(alloc);
    let mut tally = Tally::EMPTY;
    let mut state = seed;
    for _ in 0..count {
        let bytes = next_string(alloc, &mut state)?;
        tally.add(kind.outcome(alloc, watched, &bytes));
    }
    Ok(tally)
}

/// `hostile KIND @ COUNT SEED`: so many byte strings, made from encodings by a generator from this
/// seed on, read as `words`, `polynomials`, `matrices` or `shards`: how many were accepted, ended
/// within a value, were refused otherwise, or showed a fault of the library. No allocation is
/// refused from then on.
fn put_generated(alloc: Global, arguments: &str, text: &mut String) -> Result<(), Fault> {
    let (kind, rest) = split_at_mark(arguments, '@')?;
    let (count, seed) = two_numbers(rest)?;
    let tally = read_generated(alloc, Kind::of_name(kind)?, count, seed)?;
    tally.put(text).map_err(Fault::Memory)
}

/// `claims KIND`: the same of two claims of 2^32 - 1 items, with fewer bytes behind them. No
/// allocation is refused from then on.
fn put_claims(alloc: Global, arguments: &str, text: &mut String) -> Result<(), Fault> {
    let kind = Kind::of_name(arguments)?;
    let watched = is_watched(alloc);
    let mut tally = Tally::EMPTY;
    for bytes in kind.claims() {
        tally.add(kind.outcome(alloc, watched, bytes));
    }
    tally.put(text).map_err(Fault::Memory)
}
