//! Data that are split, as they lie in the caller's memory.
//!
//! Words are read one by one, from a list of words or from the bytes of a block, so no list of
//! words is made of bytes.
//!
//! The word before and the word after the slice serve a block of bytes: they are the number of its
//! bytes, and its last bytes with zeros.

ghost use Rattle.std.specs.Prelude.{◌≡◌, ◌<◌, ◌^◌, length, slice_index};
ghost use Rattle.math_splitting.specs.DataWords.{front_count, words_in};

use math_values::words::Word;

/// Words of data: those of a slice, with or without a word before them and a word after them.
#[derive(Clone, Copy)]
pub struct Source<'a, W> {
    /// The word before those of the slice.
    pub first: Option<u64>,
    /// The words of a slice.
    pub words: &'a [W],
    /// The word after those of the slice.
    pub last: Option<u64>,
}

/// Words in a slice as data.
pub(super) fn source_of<'a>(words: &'a [u64]) -> Source<'a, u64>
    ensures { words_in (λ x. x) result ≡ words.now }
{
    Source {
        first: None,
        words,
        last: None,
    }
}

/// How many words stand before those of the slice.
pub(super) fn before_slice<W: Word>(source: &Source<'_, W>) -> usize
    ensures { result ≡ front_count source.now }
{
    match source.first {
        Some(_) => 1,
        None => 0,
    }
}

/// How many words the data are.
pub(super) fn count_of<W: Word>(source: &Source<'_, W>) -> usize
    requires { length (words_in W.word source.now) < 2 ^ 61 }
    ensures { result ≡ length (words_in W.word source.now) }
{
    let count = before_slice(source) + source.words.len();
    match source.last {
        Some(_) => count + 1,
        None => count,
    }
}

/// The word of the data in this place. Past the last one it is zero.
pub(super) fn word_in<W: Word>(source: &Source<'_, W>, place: usize) -> u64
    ensures { result ≡ slice_index (words_in W.word source.now) place }
{
    let before = before_slice(source);
    if place < before {
        return source.first.unwrap_or(0);
    }
    let behind = place - before;
    if behind < source.words.len() {
        return source.words[behind].word();
    }
    if behind == source.words.len() {
        return source.last.unwrap_or(0);
    }
    0
}
