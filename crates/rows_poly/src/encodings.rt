//! Values as bytes.

ghost use Rattle.std.specs.Prelude.{◌≡◌, ◌≤◌, ◌<◌, ◌*◌, ◌^◌, length, IfOk};

use crate::polynomials::polynomial;
use math_base::algebra::Mem;
use math_codec::codec::{
    EncodeSize, Error, FixedSize, LengthRange, MaxEncodeSize, Read, Write, decode, len_size,
    list_size, read_len, write_len, write_list,
};
use math_codec::laws::written_is_read;
use math_fields::goldilocks::F;
use math_ntt::ntt::Matrix;
use math_poly::poly::Poly;
use rows_base::answer::{put, put_all, put_bytes, put_rest};
use rows_base::fault::Fault;
use rows_base::goldilocks::put_element;
use rows_base::refusals::{begin, end};
use rows_base::words::{bytes, element, number, numbers, short, split_at_mark};
use rows_ntt::matrices::matrix;
use std::alloc::Global;
use std::fmt::Debug;

/// Runs a call of this module; `false` where it is none.
pub fn run(alloc: Global, call: &str, arguments: &str, text: &mut String) -> Result<bool, Fault> {
    let done = match call {
        "read" => read(alloc, arguments, text),
        "beginnings" => beginnings(alloc, arguments, text),
        "decode_words" => decode_words(alloc, arguments, text),
        "decode_poly" => decode_poly(alloc, arguments, text),
        "write" => write(alloc, arguments, text),
        "write_after" => write_after(alloc, arguments, text),
        "read_again" => read_again(alloc, arguments, text),
        "sizes" => sizes(text).map_err(Fault::Memory),
        "max_encode_size" => greatest(arguments, text),
        _ => return Ok(false),
    };
    done.and(Ok(true))
}

/// A range of lengths: `A..B`, `..B` or `=A`, and after it `nonzero` where zero is left out.
fn range_of(text: &str) -> Result<LengthRange, Fault> {
    let text = text.trim();
    if let Some(range) = text.strip_suffix("nonzero") {
        return Ok(plain_range(range.trim())?.nonzero());
    }
    plain_range(text)
}

fn plain_range(text: &str) -> Result<LengthRange, Fault> {
    if let Some(n) = text.strip_prefix('=') {
        return Ok(LengthRange::exact(short(n)?));
    }
    let (low, high) = text.split_once("..").ok_or(Fault::Unreadable("range"))?;
    if low.is_empty() {
        return Ok(LengthRange::at_most(short(high)?));
    }
    Ok(LengthRange::new(short(low)?, short(high)?))
}

/// Adds the numbers of the coefficients.
fn put_poly(p: &Poly<F>, text: &mut String) -> Mem<()> {
    for x in p.coefficients() {
        put_element(text, *x)?;
    }
    Ok(())
}

/// Adds a matrix, as it is written in rows. Without columns there may be 2^32 - 1 rows of nothing,
/// which are passed over.
fn put_matrix(m: &Matrix<F>, text: &mut String) -> Mem<()> {
    put(text, m.rows() as u64)?;
    put(text, m.cols() as u64)?;
    text.push_str(" :")?;
    if m.cols() == 0 {
        return Ok(());
    }
    for row in m.iter() {
        for x in row {
            put_element(text, *x)?;
        }
    }
    Ok(())
}

/// Adds lists of numbers, each after `;`.
fn put_lists(lists: &[Vec<u64>], text: &mut String) -> Mem<()> {
    for list in lists {
        text.push_str(" ;")?;
        put_all(text, list)?;
    }
    Ok(())
}

/// `decode_words RANGE @ BYTE ..`: the numbers.
fn decode_words(alloc: Global, arguments: &str, text: &mut String) -> Result<(), Fault> {
    let (range, all) = split_at_mark(arguments, '@')?;
    let cfg = (range_of(range)?, ());
    let all = bytes(alloc, all)?;
    let given = begin(alloc, &all);
    let out = decode::<Vec<u64>>(alloc, &all, &cfg);
    end(alloc, given, &all, is_of_memory(&out));
    put_all(text, &out?).map_err(Fault::Memory)
}

/// `decode_poly RANGE @ BYTE ..`: the numbers.
fn decode_poly(alloc: Global, arguments: &str, text: &mut String) -> Result<(), Fault> {
    let (range, all) = split_at_mark(arguments, '@')?;
    let cfg = (range_of(range)?, ());
    let all = bytes(alloc, all)?;
    let given = begin(alloc, &all);
    let out = decode::<Poly<F>>(alloc, &all, &cfg);
    end(alloc, given, &all, is_of_memory(&out));
    put_poly(&out?, text).map_err(Fault::Memory)
}

/// `sizes`: sizes and greatest sizes of words and of elements.
fn sizes(text: &mut String) -> Mem<()> {
    put(text, u64::SIZE as u64)?;
    put(text, u64::MAX_ENCODE_SIZE as u64)?;
    put(text, F::SIZE as u64)?;
    put(text, F::MAX_ENCODE_SIZE as u64)
}

/// Whether memory ran out.
fn is_of_memory<T>(out: &Result<T, Error>) -> bool {
    matches!(out, Err(Error::Memory(_)))
}

/// Reads a value from the front of the input.
pub fn read_from<T: Read + Drop>(alloc: Global, input: &mut &[u8], cfg: &T::Cfg) -> Result<T, Error>
    ensures { IfOk result (T.admits cfg.now) }
{
    let given = begin(alloc, input);
    let out = T::read_cfg(alloc, input, cfg);
    end(alloc, given, input, is_of_memory(&out));
    out
}

/// Reads a `length`.
fn take_length(alloc: Global, input: &mut &[u8], text: &mut String) -> Result<(), Fault> {
    let given = begin(alloc, input);
    let out = read_len(alloc, input);
    end(alloc, given, input, is_of_memory(&out));
    let n = out?;
    put(text, u64::from(n)).map_err(Fault::Memory)
}

/// Reads a `word`.
fn take_word(alloc: Global, input: &mut &[u8], text: &mut String) -> Result<(), Fault> {
    let word = read_from::<u64>(alloc, input, &())?;
    put(text, word).map_err(Fault::Memory)
}

/// Reads an `element`.
fn take_element(alloc: Global, input: &mut &[u8], text: &mut String) -> Result<(), Fault> {
    let x = read_from::<F>(alloc, input, &())?;
    put_element(text, x).map_err(Fault::Memory)
}

/// Reads `words` with the range of their number.
fn take_words(alloc: Global, cfg: &str, input: &mut &[u8], text: &mut String) -> Result<(), Fault> {
    let cfg = (range_of(cfg)?, ());
    let words = read_from::<Vec<u64>>(alloc, input, &cfg)?;
    put_all(text, &words).map_err(Fault::Memory)
}

/// Reads `lists` of words with the ranges of their number and of that of the words of each.
fn take_lists(alloc: Global, cfg: &str, input: &mut &[u8], text: &mut String) -> Result<(), Fault> {
    let (outer, inner) = split_at_mark(cfg, ' ')?;
    let cfg = (range_of(outer)?, (range_of(inner)?, ()));
    let lists = read_from::<Vec<Vec<u64>>>(alloc, input, &cfg)?;
    put_lists(&lists, text).map_err(Fault::Memory)
}

/// Reads a `poly` with the range of its length.
fn take_poly(alloc: Global, cfg: &str, input: &mut &[u8], text: &mut String) -> Result<(), Fault> {
    let cfg = (range_of(cfg)?, ());
    let p = read_from::<Poly<F>>(alloc, input, &cfg)?;
    put_poly(&p, text).map_err(Fault::Memory)
}

/// Reads a `matrix` with the greatest count.
fn take_matrix(
    alloc: Global,
    cfg: &str,
    input: &mut &[u8],
    text: &mut String,
) -> Result<(), Fault> {
    let cfg = (short(cfg)?, ());
    let m = read_from::<Matrix<F>>(alloc, input, &cfg)?;
    put_matrix(&m, text).map_err(Fault::Memory)
}

/// Reads a value of a kind from the front of the input, and adds it.
fn take(alloc: Global, kind: &str, input: &mut &[u8], text: &mut String) -> Result<(), Fault> {
    let (kind, cfg) = kind.trim().split_once(' ').unwrap_or((kind.trim(), ""));
    match kind {
        "length" => take_length(alloc, input, text),
        "word" => take_word(alloc, input, text),
        "element" => take_element(alloc, input, text),
        "words" => take_words(alloc, cfg, input, text),
        "lists" => take_lists(alloc, cfg, input, text),
        "poly" => take_poly(alloc, cfg, input, text),
        "matrix" => take_matrix(alloc, cfg, input, text),
        _ => Err(Fault::Unreadable("kind")),
    }
}

/// Reads a value from bytes, and adds how many are left. Where it is refused, the input has to
/// stand as it was.
fn read_all(alloc: Global, kind: &str, all: &[u8], text: &mut String) -> Result<(), Fault> {
    let mut input = all;
    let taken = take(alloc, kind, &mut input, text);
    if taken.is_err() && input.len() != all.len() {
        return Err(Fault::Unreadable("input that stands"));
    }
    taken?;
    put_rest(text, input.len()).map_err(Fault::Memory)
}

/// `read KIND @ BYTE ..`: the value, and how many bytes are left.
fn read(alloc: Global, arguments: &str, text: &mut String) -> Result<(), Fault> {
    let (kind, all) = split_at_mark(arguments, '@')?;
    let all = bytes(alloc, all)?;
    read_all(alloc, kind, &all, text)
}

/// Whether the first n bytes are refused as ended, the input standing as it was.
fn ends_early(alloc: Global, kind: &str, all: &[u8], n: usize) -> Result<bool, Fault>
    requires { n ≤ length all.now }
{
    let mut unused = String::new(alloc);
    let mut input = &all[..n];
    match take(alloc, kind, &mut input, &mut unused) {
        Err(Fault::Memory(refused)) => Err(Fault::Memory(refused)),
        Err(Fault::Bytes(Error::EndOfBuffer)) => Ok(input.len() == n),
        _ => Ok(false),
    }
}

/// `beginnings KIND @ BYTE ..`: how many of the beginnings of the bytes are refused as ended, the input
/// standing as it was.
fn beginnings(alloc: Global, arguments: &str, text: &mut String) -> Result<(), Fault> {
    let (kind, all) = split_at_mark(arguments, '@')?;
    let all = bytes(alloc, all)?;
    let mut refused = 0u64;
    for n in 0..all.len() {
        refused = refused.saturating_add(u64::from(ends_early(alloc, kind, &all, n)?));
    }
    put(text, refused).map_err(Fault::Memory)
}

/// Writes a value, and answers the number of bytes that it says.
fn write_value(alloc: Global, kind: &str, value: &str, out: &mut Vec<u8>) -> Result<usize, Fault> {
    match kind.trim() {
        "length" => written_length(alloc, value, out),
        "word" => written_word(alloc, value, out),
        "element" => written_element(alloc, value, out),
        "words" => written_words(alloc, value, out),
        "lists" => written_lists(alloc, value, out),
        "poly" => written_poly(alloc, value, out),
        "matrix" => written_matrix(alloc, value, out),
        _ => Err(Fault::Unreadable("kind")),
    }
}

/// Adds the number of bytes that a value says, and the bytes.
fn put_written(text: &mut String, size: usize, bytes: &[u8]) -> Mem<()> {
    put(text, size as u64)?;
    text.push_str(" :")?;
    put_bytes(text, bytes)
}

/// `write KIND @ VALUE`: the number of bytes, and the bytes.
fn write(alloc: Global, arguments: &str, text: &mut String) -> Result<(), Fault> {
    let (kind, value) = split_at_mark(arguments, '@')?;
    let mut out = Vec::new(alloc);
    let size = write_value(alloc, kind, value, &mut out)?;
    put_written(text, size, &out).map_err(Fault::Memory)
}

/// `write_after BYTE .. @ KIND @ VALUE`: the same, where the value is written after bytes.
fn write_after(alloc: Global, arguments: &str, text: &mut String) -> Result<(), Fault> {
    let (before, rest) = split_at_mark(arguments, '@')?;
    let (kind, value) = split_at_mark(rest, '@')?;
    let mut out = bytes(alloc, before)?;
    let size = write_value(alloc, kind, value, &mut out)?;
    put_written(text, size, &out).map_err(Fault::Memory)
}

/// Writes a value at the end of `out`, and says by how many bytes it tells that it is written.
pub fn write_to<T: Write + EncodeSize + Debug>(
    alloc: Global,
    value: &T,
    out: &mut Vec<u8>,
) -> Mem<usize>
    requires { T.fits value.now }
{
    let given = begin(alloc, &(value, &*out));
    let done = value.write(alloc, out);
    end(alloc, given, &(value, &*out), done.is_err());
    done?;
    Ok(value.encode_size())
}

fn written_length(alloc: Global, value: &str, out: &mut Vec<u8>) -> Result<usize, Fault> {
    let n = short(value)?;
    let given = begin(alloc, &*out);
    let done = write_len(alloc, n, out);
    end(alloc, given, &*out, done.is_err());
    done?;
    Ok(len_size(n as usize))
}

fn written_word(alloc: Global, value: &str, out: &mut Vec<u8>) -> Result<usize, Fault> {
    let word = number(value.trim())?;
    write_to(alloc, &word, out).map_err(Fault::Memory)
}

fn written_element(alloc: Global, value: &str, out: &mut Vec<u8>) -> Result<usize, Fault> {
    let x = element::<F>(alloc, value)?;
    write_to(alloc, &x, out).map_err(Fault::Memory)
}

fn written_words(alloc: Global, value: &str, out: &mut Vec<u8>) -> Result<usize, Fault> {
    let words = numbers(alloc, value)?;
    if words.len() > u32::MAX as usize {
        return Err(Fault::OutOfRange("2^32 words"));
    }
    write_to(alloc, &words, out).map_err(Fault::Memory)
}

fn written_poly(alloc: Global, value: &str, out: &mut Vec<u8>) -> Result<usize, Fault> {
    let p = polynomial::<F>(alloc, value)?;
    write_to(alloc, &p, out).map_err(Fault::Memory)
}

fn written_matrix(alloc: Global, value: &str, out: &mut Vec<u8>) -> Result<usize, Fault> {
    let m = matrix::<F>(alloc, value)?;
    write_matrix(alloc, &m, out)
}

/// Writes a matrix of fewer than 2^32 rows, columns and cells, and says by how many bytes it tells
/// that it is written.
pub fn write_matrix(alloc: Global, m: &Matrix<F>, out: &mut Vec<u8>) -> Result<usize, Fault>
    requires { length m.now.cells ≡ m.now.rows * m.now.cols }
{
    let most = u32::MAX as usize;
    let (rows, cols) = (m.rows(), m.cols());
    match rows.checked_mul(cols) {
        Some(cells) if rows <= most && cols <= most && cells <= most => {}
        _ => return Err(Fault::OutOfRange("2^32 cells")),
    }
    write_to(alloc, m, out).map_err(Fault::Memory)
}

/// Two lists, with `;` between them, as a list of lists.
fn written_lists(alloc: Global, value: &str, out: &mut Vec<u8>) -> Result<usize, Fault> {
    let (a, b) = split_at_mark(value, ';')?;
    let a = numbers(alloc, a)?;
    let b = numbers(alloc, b)?;
    if a.len() > u32::MAX as usize || b.len() > u32::MAX as usize {
        return Err(Fault::OutOfRange("2^32 words"));
    }
    let lists = [a, b];
    let given = begin(alloc, &(&lists, &*out));
    let done = write_list(alloc, &lists, out);
    end(alloc, given, &(&lists, &*out), done.is_err());
    done?;
    Ok(list_size(&lists))
}

/// Writes words and then the other bytes, and reads them again: adds the words, `rest`, and the
/// bytes that are left.
fn put_again(
    alloc: Global,
    words: &Vec<u64>,
    rest: &[u8],
    cfg: &(LengthRange, ()),
    text: &mut String,
) -> Result<(), Fault>
    requires fits { length words.now.items < 2 ^ 32 }
    requires admitted { ⟦<Vec<u64> as Read>⟧.admits cfg.now words.now }
{
    let given = begin(alloc, &(words, rest));
    let out = written_is_read(alloc, words, rest, cfg);
    end(alloc, given, &(words, rest), is_of_memory(&out));
    let (read, left) = out?;
    put_all(text, &read)?;
    text.push_str(" rest")?;
    put_bytes(text, &left).map_err(Fault::Memory)
}

/// `read_again RANGE @ BYTE .. @ BYTE ..`: the words of the first bytes are written, then the other
/// bytes, and read again: the words, `rest`, and the bytes that are left.
fn read_again(alloc: Global, arguments: &str, text: &mut String) -> Result<(), Fault> {
    let (range, all) = split_at_mark(arguments, '@')?;
    let (all, rest) = split_at_mark(all, '@')?;
    let cfg = (range_of(range)?, ());
    let all = bytes(alloc, all)?;
    let rest = bytes(alloc, rest)?;
    let words = decode::<Vec<u64>>(alloc, &all, &cfg)?;
    if words.len() > u32::MAX as usize {
        return Err(Fault::OutOfRange("2^32 words"));
    }
    put_again(alloc, &words, &rest, &cfg, text)
}

/// `max_encode_size N`: the greatest number of bytes of a polynomial over `F` with N coefficients.
fn greatest(arguments: &str, text: &mut String) -> Result<(), Fault> {
    let n = short(arguments)? as usize;
    if len_size(n) > 5 {
        return Err(Fault::OutOfRange("a length of more than five bytes"));
    }
    put(text, Poly::<F>::max_encode_size(n) as u64)?;
    put(text, Poly::<u64>::max_encode_size(n) as u64).map_err(Fault::Memory)
}
