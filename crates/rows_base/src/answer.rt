//! Answers, and their comparison with those of rows.

use crate::fault::Fault;
use crate::refusals::{begin, end};
use crate::words::element;
use math_base::algebra::{Mem, Object};
use math_samples::elements::Element;
use std::alloc::Global;
use std::fmt::Debug;

/// The answer of a call: words, in which `_` stands for the next of the elements.
#[derive(Drop)]
pub struct Answer<R> {
    pub text: String,
    pub elements: Vec<R>,
}

impl<R: Element> Answer<R> {
    pub fn new(alloc: Global) -> Answer<R> {
        Answer {
            text: String::new(alloc),
            elements: Vec::new(alloc),
        }
    }

    /// Adds an element.
    pub fn element(&mut self, x: R) -> Mem<()> {
        self.elements.push(x)?;
        self.text.push_str(" _")
    }

    /// Adds the element that was found, or says why there is none.
    pub fn found(&mut self, x: Result<R, Fault>) -> Result<(), Fault> {
        self.element(x?).map_err(Fault::Memory)
    }

    /// Adds an element with a key, as `K:E`.
    pub fn add_keyed(&mut self, key: u64, x: R) -> Mem<()> {
        self.elements.push(x)?;
        write!(self.text, " {key}:_")
    }

    /// Adds copies of elements.
    pub fn copies(&mut self, alloc: Global, xs: &[R]) -> Mem<()> {
        for x in xs {
            self.element(x.clone(alloc)?)?;
        }
        Ok(())
    }

    /// Whether the words of `expected` stand for this answer.
    pub fn is(&self, alloc: Global, expected: &str) -> Result<bool, Fault> {
        if expected.split_whitespace().count() != self.text.split_whitespace().count() {
            return Ok(false);
        }
        let mut elements = self.elements.iter();
        for (word, part) in expected
            .split_whitespace()
            .zip(self.text.split_whitespace())
        {
            let same = match part.strip_suffix('_') {
                Some(key) => is_element(alloc, key, elements.next(), word)?,
                None => part == word,
            };
            if !same {
                return Ok(false);
            }
        }
        Ok(true)
    }
}

/// Whether a word is the key and a word for the element.
fn is_element<R: Element>(
    alloc: Global,
    key: &str,
    x: Option<&R>,
    word: &str,
) -> Result<bool, Fault> {
    let Some(x) = x else {
        return Ok(false);
    };
    match word.strip_prefix(key) {
        Some(word) => equals_word(alloc, x, word),
        None => Ok(false),
    }
}

/// Whether an element equals that of a word.
fn equals_word<R: Element>(alloc: Global, x: &R, word: &str) -> Result<bool, Fault> {
    let y = element::<R>(alloc, word)?;
    x.equals(alloc, &y).map_err(Fault::Memory)
}

/// Adds a number to a text.
pub fn put(text: &mut String, n: u64) -> Mem<()> {
    write!(text, " {n}")
}

/// Adds numbers to a text.
pub fn put_all(text: &mut String, numbers: &[u64]) -> Mem<()> {
    for n in numbers {
        put(text, *n)?;
    }
    Ok(())
}

/// Adds how many bytes are left.
pub fn put_rest(text: &mut String, count: usize) -> Mem<()> {
    text.push_str(" rest")?;
    put(text, count as u64)
}

/// Adds bytes to a text, as two hexadecimal digits each.
pub fn put_bytes(text: &mut String, bytes: &[u8]) -> Mem<()> {
    for byte in bytes {
        write!(text, " {byte:02x}")?;
    }
    Ok(())
}

/// Adds the `Debug` text of a value in quotes, in which `~` stands for a space and `|` for the end
/// of a line. No such text has one of these characters.
pub fn put_debug<T: Debug>(alloc: Global, value: &T, text: &mut String) -> Mem<()> {
    let printed = format!(in alloc; "{value:?}")?;
    text.push_str(" \"")?;
    for c in printed.chars() {
        text.push(match c {
            ' ' => '~',
            '\n' => '|',
            _ => c,
        })?;
    }
    text.push('"')
}

/// Whether two values are equal, by their own equality.
pub fn are_equal<T: Object>(alloc: Global, a: &T, b: &T) -> Mem<bool> {
    let given = begin(alloc, &(a, b));
    let out = a.equals(alloc, b);
    end(alloc, given, &(a, b), out.is_err());
    out
}

/// The place of the first item that equals this one.
fn first<T: Object>(alloc: Global, items: &[T], item: &T) -> Mem<u64> {
    for i in 0..items.len() {
        if are_equal(alloc, &items[i], item)? {
            return Ok(i as u64);
        }
    }
    Ok(u64::MAX)
}

/// Adds for each item the place of the first item that it equals.
pub fn put_firsts<T: Object>(alloc: Global, items: &[T], text: &mut String) -> Mem<()> {
    for item in items {
        put(text, first(alloc, items, item)?)?;
    }
    Ok(())
}
