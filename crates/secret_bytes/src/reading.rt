//! The letters of a line, whatever stands between and before them, and letters as a plain line.

ghost use Rattle.std.specs.Char.{is_ascii_digit};
ghost use Rattle.std.specs.List.{prefix_len};
ghost use Rattle.std.specs.Prelude.{◌≡◌, ◌++◌, IfOk, OnOk, slice_index_or};
ghost use Rattle.secret_bytes.specs.Readings.{capitals, dashed, has_mark, letters_of, plain};
ghost use Rattle.secret_bytes.specs.Readings.{is_space, is_space_of_three, is_space_of_two};
ghost use Rattle.secret_bytes.specs.Readings.{space_size, unnumbered, unquoted, unspaced};

use math_codec::codec::Mem;
use std::alloc::Global;

/// The number of letters of the check: eight bytes.
const CHECK_LETTERS: usize = 16;

/// The number of characters of the mark, which every share begins with.
const MARK_SIZE: usize = 2;

/// The number of letters of a group.
const GROUP: usize = 4;

/// The byte at this place, or zero behind the last.
fn byte_at(text: &[u8], place: usize) -> u8
    ensures { result ≡ slice_index_or text.now place 0 }
{
    match text.get(place) {
        Some(byte) => *byte,
        None => 0,
    }
}

/// Whether the byte is white space of ASCII.
fn is_space(a: u8) -> bool
    ensures { result ≡ is_space a }
{
    (a > 8 && a < 14) || a == b' '
}

/// Whether these are U+0085 or U+00A0 in UTF-8.
fn is_space_of_two(a: u8, b: u8) -> bool
    ensures { result ≡ is_space_of_two a b }
{
    a == 0xc2 && (b == 0x85 || b == 0xa0)
}

/// Whether these are other white space of Unicode in UTF-8, or the mark of the byte order.
fn is_space_of_three(a: u8, b: u8, c: u8) -> bool
    ensures { result ≡ is_space_of_three a b c }
{
    a == 0xe1 && b == 0x9a && c == 0x80
        || a == 0xe2 && b == 0x80 && (c > 0x7f && c < 0x8b || (c == 0xa8 || c == 0xa9) || c == 0xaf)
        || a == 0xe2 && b == 0x81 && c == 0x9f
        || (a == 0xe3 && b == 0x80 && c == 0x80 || a == 0xef && b == 0xbb && c == 0xbf)
}

/// How many bytes the white space has, or the mark of the byte order, that the text begins with.
fn space_size(text: &[u8]) -> usize
    ensures { result ≡ space_size text.now }
{
    let a = byte_at(text, 0);
    if is_space(a) {
        return 1;
    }
    if a < 0x80 {
        return 0;
    }
    let (b, c) = (byte_at(text, 1), byte_at(text, 2));
    if is_space_of_two(a, b) {
        2
    } else if is_space_of_three(a, b, c) {
        3
    } else {
        0
    }
}

/// The text without white space and marks of the byte order.
fn without_space(alloc: Global, text: &[u8]) -> Mem<Vec<u8>>
    ensures { IfOk result (λ out. out.items ≡ unspaced 0 text.now) }
{
    let mut out = Vec::with_capacity(alloc, text.len())?;
    let mut rest = text;
    let mut passed: usize = 0;
    while let Some((byte, after)) = rest.split_first() {
        if passed == 0 {
            passed = space_size(rest);
        }
        if passed == 0 {
            out.push(*byte)?;
        } else {
            passed -= 1;
        }
        rest = after;
    }
    Ok(out)
}

/// The text without the marks of a quotation at its beginning.
fn without_quotation(text: &[u8]) -> &[u8]
    ensures { result.now ≡ unquoted text.now }
{
    let mut rest = text;
    while let Some((byte, after)) = rest.split_first() {
        if *byte != b'>' {
            return rest;
        }
        rest = after;
    }
    rest
}

/// How many digits the text begins with.
fn digit_count(text: &[u8]) -> usize
    ensures { result ≡ prefix_len is_ascii_digit text.now }
{
    let mut count = 0;
    for byte in text {
        if !byte.is_ascii_digit() {
            return count;
        }
        count += 1;
    }
    count
}

/// The text without the number and the colon at its beginning, where both are there.
fn without_number(text: &[u8]) -> &[u8]
    ensures { result.now ≡ unnumbered text.now }
{
    let count = digit_count(text);
    if count > 0 && byte_at(text, count) == b':' {
        &text[count + 1..]
    } else {
        text
    }
}

/// Appends the text without dashes, in capitals. What is appended stays where memory runs out.
fn push_capitals(text: &[u8], out: &mut Vec<u8>) -> Mem<()>
    ensures { OnOk result (out.new.items ≡ out.old.items ++ capitals text.now) }
{
    for byte in text {
        if *byte != b'-' {
            out.push(byte.to_ascii_uppercase())?;
        }
    }
    Ok(())
}

/// The letters of a line: without white space, marks of a quotation, a number and dashes, in
/// capitals.
pub(crate) fn letters_of(alloc: Global, line: &[u8]) -> Mem<Vec<u8>>
    ensures { IfOk result (λ out. out.items ≡ letters_of line.now) }
{
    let text = without_space(alloc, line)?;
    let mut out = Vec::with_capacity(alloc, text.len())?;
    push_capitals(without_number(without_quotation(&text)), &mut out)?;
    Ok(out)
}

/// Whether the letters begin with the mark of a share.
pub(crate) fn has_mark(letters: &[u8]) -> bool
    ensures { result ≡ has_mark letters.now }
{
    byte_at(letters, 0) == b'S' && byte_at(letters, 1) == b'1'
}

/// Appends the text with a dash before each group of four.
fn push_dashed(text: &[u8], out: &mut Vec<u8>) -> Mem<()>
    ensures { OnOk result (out.new.items ≡ out.old.items ++ dashed 0 text.now) }
{
    let mut rest = text;
    let mut to_come: usize = 0;
    while let Some((byte, after)) = rest.split_first() {
        if to_come == 0 {
            out.push(b'-')?;
            to_come = GROUP;
        }
        out.push(*byte)?;
        to_come -= 1;
        rest = after;
    }
    Ok(())
}

/// The letters as a line is written: the mark, groups of what stands before the check, and groups
/// of the check.
pub(crate) fn plain(alloc: Global, letters: &[u8]) -> Mem<Vec<u8>>
    ensures { IfOk result (λ line. line.items ≡ plain letters.now) }
{
    let (body, check) = letters.split_at(letters.len().saturating_sub(CHECK_LETTERS));
    let (mark, body) = body.split_at(body.len().min(MARK_SIZE));
    let mut line = Vec::from_slice(alloc, mark)?;
    push_dashed(body, &mut line)?;
    push_dashed(check, &mut line)?;
    Ok(line)
}
