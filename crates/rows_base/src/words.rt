//! Numbers, elements and bytes, read from words.

use crate::fault::Fault;
use math_samples::elements::Element;
use std::alloc::Global;

/// What stands before and after the first `mark` of a text.
pub fn split_at_mark(text: &str, mark: char) -> Result<(&str, &str), Fault> {
    text.split_once(mark)
        .ok_or(Fault::Unreadable("mark between arguments"))
}

/// A number in decimal, or in hexadecimal after `0x`.
pub fn number(word: &str) -> Result<u64, Fault> {
    let read = match word.strip_prefix("0x") {
        Some(digits) => u64::from_str_radix(digits, 16),
        None => word.parse::<u64>(),
    };
    match read {
        Ok(n) => Ok(n),
        Err(_) => Err(Fault::Unreadable("number")),
    }
}

/// A number below 2^32.
pub fn short(word: &str) -> Result<u32, Fault> {
    match u32::try_from(number(word.trim())?) {
        Ok(n) => Ok(n),
        Err(_) => Err(Fault::OutOfRange("a number of 2^32 or more")),
    }
}

/// Two numbers, with a mark between them.
pub fn pair(text: &str, mark: char) -> Result<(u64, u64), Fault> {
    let (a, b) = split_at_mark(text, mark)?;
    Ok((number(a)?, number(b.trim())?))
}

/// Two numbers, with a space between them.
pub fn two_numbers(text: &str) -> Result<(u64, u64), Fault> {
    pair(text.trim(), ' ')
}

/// A number, and how often it stands there: `n*count`, or n once.
fn number_and_count(word: &str) -> Result<(u64, u64), Fault> {
    let (n, count) = word.split_once('*').unwrap_or((word, "1"));
    Ok((number(n)?, number(count)?))
}

/// The numbers that the words of a text stand for.
pub fn numbers(alloc: Global, text: &str) -> Result<Vec<u64>, Fault> {
    let mut out = Vec::new(alloc);
    for word in text.split_whitespace() {
        let (n, count) = number_and_count(word)?;
        for _ in 0..count {
            out.push(n)?;
        }
    }
    Ok(out)
}

/// The element that a number stands for; after `-` it is the negative.
fn whole<R: Element>(alloc: Global, word: &str) -> Result<R, Fault> {
    match word.strip_prefix('-') {
        Some(size) => Ok(R::from_number(alloc, number(size)?)?.neg(alloc)?),
        None => Ok(R::from_number(alloc, number(word)?)?),
    }
}

/// The element that one word stands for: a number, or `a/b`, a times the inverse of b.
pub fn element<R: Element>(alloc: Global, word: &str) -> Result<R, Fault> {
    match word.trim().split_once('/') {
        Some((a, b)) => {
            let inverse = whole::<R>(alloc, b)?.inv(alloc)?;
            Ok(whole::<R>(alloc, a)?.mul(alloc, &inverse)?)
        }
        None => whole::<R>(alloc, word.trim()),
    }
}

/// The elements that the words of a text stand for.
pub fn elements<R: Element>(alloc: Global, text: &str) -> Result<Vec<R>, Fault> {
    let mut out = Vec::new(alloc);
    for word in text.split_whitespace() {
        out.push(element::<R>(alloc, word)?)?;
    }
    Ok(out)
}

/// The pair `K:E` of a number and an element.
fn keyed_element<R: Element>(alloc: Global, word: &str) -> Result<(u64, R), Fault> {
    let (key, value) = split_at_mark(word, ':')?;
    let key = number(key)?;
    Ok((key, element::<R>(alloc, value)?))
}

/// The pairs `K:E` of a number and an element.
pub fn keyed_elements<R: Element>(alloc: Global, text: &str) -> Result<Vec<(u64, R)>, Fault> {
    let mut out = Vec::new(alloc);
    for word in text.split_whitespace() {
        out.push(keyed_element::<R>(alloc, word)?)?;
    }
    Ok(out)
}

/// Adds the byte that a word of two hexadecimal digits stands for, or the eight bytes of sixteen.
fn push_bytes(out: &mut Vec<u8>, word: &str) -> Result<(), Fault> {
    let Ok(n) = u64::from_str_radix(word, 16) else {
        return Err(Fault::Unreadable("byte"));
    };
    if word.len() != 16 && n > 255 {
        return Err(Fault::Unreadable("byte"));
    }
    let all = n.to_be_bytes();
    let bytes = if word.len() == 16 {
        &all[..]
    } else {
        &all[7..]
    };
    out.extend_from_slice(bytes).map_err(Fault::Memory)
}

/// The bytes that words stand for: two hexadecimal digits a byte, or sixteen for eight bytes.
pub fn bytes(alloc: Global, text: &str) -> Result<Vec<u8>, Fault> {
    let mut out = Vec::new(alloc);
    for word in text.split_whitespace() {
        push_bytes(&mut out, word)?;
    }
    Ok(out)
}
