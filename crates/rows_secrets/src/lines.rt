//! Bytes as elements, and shares of these as bytes and as lines.

use math_base::algebra::Mem;
use math_codec::codec::{self, Read, Write};
use math_fields::goldilocks::F;
use rows_base::answer::{put, put_bytes, put_rest};
use rows_base::fault::Fault;
use rows_base::goldilocks::put_element;
use rows_base::refusals::{begin, end};
use rows_base::words::{bytes, number, numbers, short, split_at_mark};
use secret_bytes::{LineError, SecretShare, bytes_of, elements_of, line_of, share_in};
use std::alloc::{AllocError, Global};

/// Runs a call of this module; `false` where it is none.
pub fn run(alloc: Global, call: &str, arguments: &str, text: &mut String) -> Result<bool, Fault> {
    let done = match call {
        "secret_elements" => put_elements(alloc, arguments, text),
        "secret_bytes_of" => put_bytes_of(alloc, arguments, text),
        "write_secret_share" => write_share(alloc, arguments, text),
        "read_secret_share" => read_share(alloc, arguments, text),
        "share_line" => put_line(alloc, arguments, text),
        "line_share" => put_share_of_line(alloc, arguments, text),
        _ => return Ok(false),
    };
    done.and(Ok(true))
}

/// Adds a share: deal, threshold, index, `:` and the values.
pub(crate) fn put_share(text: &mut String, share: &SecretShare) -> Mem<()> {
    put_element(text, share.deal)?;
    put(text, u64::from(share.threshold))?;
    put(text, u64::from(share.index))?;
    text.push_str(" :")?;
    put_all_elements(text, &share.values)
}

/// The elements that the numbers of a text stand for.
fn values_of(alloc: Global, text: &str) -> Result<Vec<F>, Fault> {
    let words = numbers(alloc, text)?;
    let mut values = Vec::with_capacity(alloc, words.len())?;
    for word in &words {
        values.push(F::from(*word))?;
    }
    Ok(values)
}

/// The share that a text writes: `DEAL THRESHOLD INDEX : VALUE ..`.
pub(crate) fn share_of(alloc: Global, text: &str) -> Result<SecretShare, Fault> {
    let (head, values) = split_at_mark(text, ':')?;
    let mut words = head.split_whitespace();
    let (Some(deal), Some(threshold), Some(index)) = (words.next(), words.next(), words.next())
    else {
        return Err(Fault::Unreadable("share"));
    };
    let deal = F::from(number(deal)?);
    let (threshold, index) = (short(threshold)?, short(index)?);
    let values = values_of(alloc, values)?;
    Ok(SecretShare {
        threshold,
        index,
        deal,
        values,
    })
}

/// Adds elements.
fn put_all_elements(text: &mut String, elements: &[F]) -> Mem<()> {
    for x in elements {
        put_element(text, *x)?;
    }
    Ok(())
}

/// Adds the elements of fewer than 2^32 bytes.
fn put_elements_of(alloc: Global, all: &[u8], text: &mut String) -> Result<(), Fault> {
    if all.len() >= 1 << 32 {
        return Err(Fault::OutOfRange("2^32 bytes"));
    }
    let given = begin(alloc, &all);
    let elements = elements_of(alloc, all);
    end(alloc, given, &all, elements.is_err());
    put_all_elements(text, &elements?).map_err(Fault::Memory)
}

/// `secret_elements BYTE ..`: the elements.
fn put_elements(alloc: Global, arguments: &str, text: &mut String) -> Result<(), Fault> {
    let all = bytes(alloc, arguments)?;
    put_elements_of(alloc, &all, text)
}

/// Adds the bytes whose elements these are, or `none`.
fn put_bytes_in(alloc: Global, elements: &[F], text: &mut String) -> Mem<()> {
    let given = begin(alloc, &elements);
    let all = bytes_of(alloc, elements);
    end(alloc, given, &elements, all.is_err());
    match all? {
        Some(all) => put_bytes(text, &all),
        None => text.push_str(" none"),
    }
}

/// `secret_bytes_of ELEMENT ..`: the bytes, or `none`.
fn put_bytes_of(alloc: Global, arguments: &str, text: &mut String) -> Result<(), Fault> {
    let elements = values_of(alloc, arguments)?;
    put_bytes_in(alloc, &elements, text).map_err(Fault::Memory)
}

/// Appends the bytes of a share of fewer than 2^32 values.
fn append(alloc: Global, share: &SecretShare, out: &mut Vec<u8>) -> Result<(), Fault> {
    if share.values.len() >= 1 << 32 {
        return Err(Fault::OutOfRange("2^32 values"));
    }
    let given = begin(alloc, &(share, &*out));
    let done = share.write(alloc, out);
    end(alloc, given, &(share, &*out), done.is_err());
    done.map_err(Fault::Memory)
}

/// `write_secret_share BYTE .. @ SHARE`: these bytes, and then those of the share.
fn write_share(alloc: Global, arguments: &str, text: &mut String) -> Result<(), Fault> {
    let (before, share) = split_at_mark(arguments, '@')?;
    let mut out = bytes(alloc, before)?;
    let share = share_of(alloc, share)?;
    append(alloc, &share, &mut out)?;
    put_bytes(text, &out).map_err(Fault::Memory)
}

/// Why bytes are those of no share.
fn fault_of(error: codec::Error) -> Fault {
    match error {
        codec::Error::Memory(e) => Fault::Memory(e),
        other => Fault::Bytes(other),
    }
}

/// Reads a share of at most so many values from the front of the input.
fn read_first_share(
    alloc: Global,
    most: u32,
    input: &mut &[u8],
) -> Result<SecretShare, codec::Error> {
    let given = begin(alloc, &*input);
    let share = SecretShare::read_cfg(alloc, input, &most);
    end(
        alloc,
        given,
        &*input,
        matches!(share, Err(codec::Error::Memory(_))),
    );
    share
}

/// Reads a share from bytes, and adds how many are left. Where it is refused, the input has to
/// stand as it was.
fn read_all(alloc: Global, most: u32, all: &[u8], text: &mut String) -> Result<(), Fault> {
    let mut input = all;
    let share = read_first_share(alloc, most, &mut input);
    if share.is_err() && input.len() != all.len() {
        return Err(Fault::Unreadable("input that stands"));
    }
    put_share(text, &share.map_err(fault_of)?)?;
    put_rest(text, input.len()).map_err(Fault::Memory)
}

/// `read_secret_share MOST @ BYTE ..`: the share, `rest` and how many bytes are left.
fn read_share(alloc: Global, arguments: &str, text: &mut String) -> Result<(), Fault> {
    let (most, all) = split_at_mark(arguments, '@')?;
    let most = short(most)?;
    let all = bytes(alloc, all)?;
    read_all(alloc, most, &all, text)
}

/// Adds lines, with `;` in the place of the end of each.
pub(crate) fn put_lines(text: &mut String, lines: &[u8]) -> Mem<()> {
    text.push(' ')?;
    for byte in lines {
        if *byte == b'\n' {
            text.push_str(" ; ")?;
        } else {
            text.push(char::from(*byte))?;
        }
    }
    Ok(())
}

/// Adds the line of a share of fewer than 2^32 values.
fn put_line_of(alloc: Global, share: &SecretShare, text: &mut String) -> Result<(), Fault> {
    if share.values.len() >= 1 << 32 {
        return Err(Fault::OutOfRange("2^32 values"));
    }
    let given = begin(alloc, share);
    let line = line_of(alloc, share);
    end(alloc, given, share, line.is_err());
    put_lines(text, &line?).map_err(Fault::Memory)
}

/// `share_line SHARE`: the line.
fn put_line(alloc: Global, arguments: &str, text: &mut String) -> Result<(), Fault> {
    let share = share_of(alloc, arguments)?;
    put_line_of(alloc, &share, text)
}

/// Adds why a line is that of no share.
pub(crate) fn put_no_line(text: &mut String, error: &LineError) -> Mem<()> {
    match error {
        LineError::Memory(_) => Err(AllocError),
        _ => write!(text, " refused {error}"),
    }
}

/// Adds the share whose line this is, or why there is none.
fn put_share_in(alloc: Global, line: &[u8], text: &mut String) -> Mem<()> {
    let given = begin(alloc, &line);
    let share = share_in(alloc, line);
    end(
        alloc,
        given,
        &line,
        matches!(share, Err(LineError::Memory(_))),
    );
    match share {
        Ok(share) => put_share(text, &share),
        Err(error) => put_no_line(text, &error),
    }
}

/// `line_share LINE`: the share.
fn put_share_of_line(alloc: Global, arguments: &str, text: &mut String) -> Result<(), Fault> {
    put_share_in(alloc, arguments.trim().as_bytes(), text).map_err(Fault::Memory)
}
