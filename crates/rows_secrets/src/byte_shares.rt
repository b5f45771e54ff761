//! Secrets of bytes, in shares and their lines.

use crate::element_shares::put_left;
use crate::lines::{put_lines, put_no_line, put_share, share_of};
use math_base::algebra::Mem;
use math_samples::sources::Listed;
use rows_base::answer::{put, put_bytes};
use rows_base::fault::Fault;
use rows_base::refusals::{begin, end};
use rows_base::words::{bytes, numbers, short, split_at_mark};
use secret_bytes::{
    CombineError, Combined, DealError, LineError, LineFault, Lines, MOST_BYTES, SecretShare,
    combine, deal, read_lines, text_of,
};
use std::alloc::{AllocError, Global};

/// Runs a call of this module; `false` where it is none.
pub fn run(alloc: Global, call: &str, arguments: &str, text: &mut String) -> Result<bool, Fault> {
    let done = match call {
        "deal_bytes" => deal_bytes(alloc, arguments, text),
        "combine_bytes" => combine_bytes(alloc, arguments, text),
        "lines_of" => lines_of(alloc, arguments, text),
        "read_lines" => put_read(alloc, arguments, text).map_err(Fault::Memory),
        _ => return Ok(false),
    };
    done.and(Ok(true))
}

/// Adds shares, with `;` between them.
fn put_shares(text: &mut String, shares: &[SecretShare]) -> Mem<()> {
    for (i, share) in shares.iter().enumerate() {
        if i > 0 {
            text.push_str(" ;")?;
        }
        put_share(text, share)?;
    }
    Ok(())
}

/// Adds the shares of a deal, and how many words of the source are left, or why there are none.
fn put_dealt(
    text: &mut String,
    dealt: &Result<Vec<SecretShare>, DealError>,
    left: usize,
) -> Mem<()> {
    match dealt {
        Ok(shares) => {
            put_shares(text, shares)?;
            put_left(text, left)
        }
        Err(DealError::Memory(_)) => Err(AllocError),
        Err(error) => write!(text, " refused {error}"),
    }
}

/// Deals n shares of some bytes, of which any t give them back, from a source of these words.
fn deal_from(
    alloc: Global,
    all: &[u8],
    t: u32,
    n: u32,
    words: &[u64],
    text: &mut String,
) -> Result<(), Fault> {
    if t == 0 || n < t || all.len() > MOST_BYTES {
        return Err(Fault::OutOfRange("no such numbers of shares, or too many bytes"));
    }
    let mut source = Listed::new(words);
    let given = begin(alloc, &all);
    let dealt = deal(alloc, all, t, n, &mut source);
    end(
        alloc,
        given,
        &all,
        matches!(dealt, Err(DealError::Memory(_))),
    );
    put_dealt(text, &dealt, source.left()).map_err(Fault::Memory)
}

/// `T N`.
fn counts(text: &str) -> Result<(u32, u32), Fault> {
    let (t, n) = split_at_mark(text.trim(), ' ')?;
    Ok((short(t)?, short(n)?))
}

/// `deal_bytes T N @ BYTE .. @ W ..`: the shares, with `;` between them, and how many words are
/// left.
fn deal_bytes(alloc: Global, arguments: &str, text: &mut String) -> Result<(), Fault> {
    let (head, rest) = split_at_mark(arguments, '@')?;
    let (all, words) = split_at_mark(rest, '@')?;
    let (t, n) = counts(head)?;
    let words = numbers(alloc, words)?;
    let all = bytes(alloc, all)?;
    deal_from(alloc, &all, t, n, &words, text)
}

/// The shares that a text writes, with `;` between them.
fn shares_in(alloc: Global, text: &str) -> Result<Vec<SecretShare>, Fault> {
    let mut shares = Vec::new(alloc);
    if !text.trim().is_empty() {
        for part in text.split(';') {
            shares.push(share_of(alloc, part)?)?;
        }
    }
    Ok(shares)
}

/// The place of the share that is refused, from zero on, where it is one.
fn place_of(error: &CombineError) -> Option<usize> {
    match error {
        CombineError::Unsound(place) => Some(*place),
        CombineError::AnotherDeal(place) => Some(*place),
        CombineError::AnotherThreshold(place) => Some(*place),
        CombineError::AnotherLength(place) => Some(*place),
        CombineError::Repeated(place) => Some(*place),
        _ => None,
    }
}

/// Adds why shares give no bytes, and `at` and the place of the share that is refused, where it is
/// one.
fn put_uncombined(text: &mut String, error: &CombineError) -> Mem<()> {
    if matches!(error, CombineError::Memory(_)) {
        return Err(AllocError);
    }
    write!(text, " refused {error}")?;
    match place_of(error) {
        Some(place) => write!(text, " at {place}"),
        None => Ok(()),
    }
}

/// Adds bytes, and after `wrong` the indices of the shares that are wrong.
fn put_combined(text: &mut String, found: &Combined) -> Mem<()> {
    put_bytes(text, &found.bytes)?;
    text.push_str(" wrong")?;
    for index in &found.wrong {
        put(text, u64::from(*index))?;
    }
    Ok(())
}

/// Adds the bytes that shares give, or why they give none.
fn put_found(alloc: Global, shares: Vec<SecretShare>, text: &mut String) -> Mem<()> {
    let given = begin(alloc, &());
    let found = combine(alloc, shares);
    end(
        alloc,
        given,
        &(),
        matches!(found, Err(CombineError::Memory(_))),
    );
    match found {
        Ok(found) => put_combined(text, &found),
        Err(error) => put_uncombined(text, &error),
    }
}

/// `combine_bytes SHARE ; ..`: the bytes, `wrong` and the indices of the shares that are wrong.
fn combine_bytes(alloc: Global, arguments: &str, text: &mut String) -> Result<(), Fault> {
    let shares = shares_in(alloc, arguments)?;
    put_found(alloc, shares, text).map_err(Fault::Memory)
}

/// Adds the lines of shares, each with `;` after it, or why there are none.
fn put_lines_of(alloc: Global, shares: &[SecretShare], text: &mut String) -> Mem<()> {
    let given = begin(alloc, &shares);
    let lines = text_of(alloc, shares);
    end(
        alloc,
        given,
        &shares,
        matches!(lines, Err(LineError::Memory(_))),
    );
    match lines {
        Ok(lines) => put_lines(text, &lines),
        Err(error) => put_no_line(text, &error),
    }
}

/// `lines_of SHARE ; ..`: their lines, each with `;` after it.
fn lines_of(alloc: Global, arguments: &str, text: &mut String) -> Result<(), Fault> {
    let shares = shares_in(alloc, arguments)?;
    put_lines_of(alloc, &shares, text).map_err(Fault::Memory)
}

/// The bytes of a text, with the end of a line in the place of each `;`.
fn lines_in(alloc: Global, text: &str) -> Mem<Vec<u8>> {
    let mut out = Vec::new(alloc);
    for byte in text.as_bytes() {
        out.push(if *byte == b';' { b'\n' } else { *byte })?;
    }
    Ok(out)
}

/// Adds shares, each after `line` and the number of its line.
fn put_numbered(text: &mut String, lines: &Lines) -> Mem<()> {
    for (number, share) in lines.numbers.iter().zip(&lines.shares) {
        text.push_str(" line")?;
        put(text, *number as u64)?;
        put_share(text, share)?;
    }
    Ok(())
}

/// The shares of lines.
fn read(alloc: Global, lines: &[u8]) -> Result<Lines, LineFault> {
    let given = begin(alloc, &lines);
    let found = read_lines(alloc, lines);
    let refused = match &found {
        Ok(_) => false,
        Err(fault) => matches!(fault.why, LineError::Memory(_)),
    };
    end(alloc, given, &lines, refused);
    found
}

/// `read_lines LINE ; ..`: each share after `line` and the number of its line; or why a line is
/// that of no share, and its number after `at`.
fn put_read(alloc: Global, arguments: &str, text: &mut String) -> Mem<()> {
    let lines = lines_in(alloc, arguments)?;
    match read(alloc, &lines) {
        Ok(lines) => put_numbered(text, &lines),
        Err(fault) => {
            put_no_line(text, &fault.why)?;
            write!(text, " at {}", fault.number)
        }
    }
}
