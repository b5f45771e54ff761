//! What the Goldilocks field alone has: its operators, its bytes and packing. Elements are numbers.
//!
//! Packing takes no memory, so no call is marked: the lists that items are put into are ours.

ghost use Rattle.std.specs.Prelude.{◌≡◌, ◌<◌, ◌*◌, ◌^◌, min, length, IfOk};
ghost use Rattle.std.specs.Iterator.{IsFinite};
ghost use Rattle.math_numbers.specs.Bits.{piece_count};
ghost use Rattle.math_fields.specs.Packing.{elements_of, words_of};

use crate::answer::{put, put_all, put_bytes};
use crate::fault::Fault;
use crate::words::{element, elements, number, numbers, short, split_at_mark, two_numbers};
use math_base::algebra::Mem;
use math_fields::goldilocks::{ElementsToWords, F, WordsToElements};
use math_samples::elements::Element;
use std::alloc::Global;
use std::cell::Cell;

/// Runs a call of this module; `false` where it is none.
pub fn run(alloc: Global, call: &str, arguments: &str, text: &mut String) -> Result<bool, Fault> {
    let done = match call {
        "operators" => operators(arguments, text),
        "constants" => constants(text).map_err(Fault::Memory),
        "to_le_bytes" => to_le_bytes(alloc, arguments, text),
        "bits_to_elements" => bits_to_elements(arguments, text),
        "pack" => pack(alloc, arguments, text),
        "unpack" => unpack(alloc, arguments, text),
        "pack_unpack" | "pack_unpack_all" => pack_unpack(alloc, call, arguments, text),
        "word_count" => put_word_count(alloc, arguments, text),
        "pair_count" => put_pair_count(alloc, arguments, text),
        "pack_asked" | "unpack_asked" => put_asked(call, arguments, text),
        _ => return Ok(false),
    };
    done.and(Ok(true))
}

/// `constants`: the root of unity of the greatest order, the coset shift, and its inverse.
fn constants(text: &mut String) -> Mem<()> {
    put_element(text, F::ROOT_OF_UNITY)?;
    put_element(text, F::NOT_ROOT_OF_UNITY)?;
    put_element(text, F::NOT_ROOT_OF_UNITY_INV)
}

/// `to_le_bytes A`: the bytes of the element.
fn to_le_bytes(alloc: Global, arguments: &str, text: &mut String) -> Result<(), Fault> {
    let x = element::<F>(alloc, arguments)?;
    put_bytes(text, &x.to_le_bytes()).map_err(Fault::Memory)
}

/// `bits_to_elements N`: how many elements hold N bits.
fn bits_to_elements(arguments: &str, text: &mut String) -> Result<(), Fault> {
    let bits = number(arguments)? as usize;
    put(text, F::bits_to_elements(bits) as u64).map_err(Fault::Memory)
}

/// Adds the number of an element.
pub fn put_element(text: &mut String, x: F) -> Mem<()> {
    put(text, x.parts().0)
}

/// `operators A B`: a + b, a - b, a b and -a; again the first three with b by reference; and the first
/// three in place.
fn operators(arguments: &str, text: &mut String) -> Result<(), Fault> {
    let (a, b) = two_numbers(arguments)?;
    put_operators(F::from(a), F::from(b), text).map_err(Fault::Memory)
}

/// Adds what the operators make of two elements.
fn put_operators(a: F, b: F, text: &mut String) -> Mem<()> {
    let mut sum = a;
    sum += &b;
    let mut difference = a;
    difference -= &b;
    let mut product = a;
    product *= &b;
    let by_value = [a + b, a - b, a * b, -a];
    let others = [a + &b, a - &b, a * &b, sum, difference, product];
    for x in by_value.iter().chain(others.iter()) {
        put_element(text, *x)?;
    }
    Ok(())
}

/// `pack W ..`: the elements that the words are packed into.
fn pack(alloc: Global, arguments: &str, text: &mut String) -> Result<(), Fault> {
    let words = numbers(alloc, arguments)?;
    for x in F::stream_from_u64s(words.iter().copied()) {
        put_element(text, x)?;
    }
    Ok(())
}

/// `unpack E ..`: the words that the elements hold.
fn unpack(alloc: Global, arguments: &str, text: &mut String) -> Result<(), Fault> {
    let elements = elements::<F>(alloc, arguments)?;
    let words: Vec<u64> = F::stream_to_u64s(elements.iter().copied()).collect(alloc)?;
    put_all(text, &words).map_err(Fault::Memory)
}

/// Adds how many elements the words are packed into.
fn put_packed_count(alloc: Global, words: &[u64], text: &mut String) -> Mem<()> {
    let packed: Vec<F> = F::stream_from_u64s(words.iter().copied()).collect(alloc)?;
    put(text, packed.len() as u64)
}

/// The words that the elements hold which these words are packed into.
fn repack(alloc: Global, words: &[u64]) -> Mem<Vec<u64>>
    ensures { IfOk result (λ v. v.items ≡ words_of (elements_of words.now)) }
{
    F::stream_to_u64s(F::stream_from_u64s(words.iter().copied())).collect(alloc)
}

/// The words of any iterator, there and back.
fn repacked_items<I: Iterator<Item = u64> + Drop>(alloc: Global, words: I) -> Mem<Vec<u64>>
    requires can { I.can_next words }
    requires ends { IsFinite (I.remaining words) }
{
    F::stream_to_u64s(F::stream_from_u64s(words)).collect(alloc)
}

/// How many words the elements hold.
fn word_count(elements: &[F]) -> usize
    requires { length elements.now < 2 ^ 57 }
    ensures { result ≡ piece_count 64 (63 * length elements.now) }
{
    F::stream_to_u64s(elements.iter().copied()).count()
}

/// How many pairs there are of an element that the words are packed into and one of these.
fn pair_count(words: &[u64], elements: &[F]) -> usize
    requires { length words.now < 2 ^ 57 }
    ensures { result ≡ min (piece_count 63 (64 * length words.now)) (length elements.now) }
{
    F::stream_from_u64s(words.iter().copied())
        .zip(elements)
        .count()
}

/// Adds the words, there and back, of the list or of its iterator.
fn put_back(alloc: Global, call: &str, words: &[u64], text: &mut String) -> Mem<()> {
    let back = match call {
        "pack_unpack" => repack(alloc, words),
        _ => repacked_items(alloc, words.iter().copied()),
    };
    put_all(text, &back?)
}

/// `pack_unpack W ..`, `pack_unpack_all W ..`: how many elements the words are packed into, and the
/// words that these hold.
fn pack_unpack(alloc: Global, call: &str, arguments: &str, text: &mut String) -> Result<(), Fault> {
    let words = numbers(alloc, arguments)?;
    put_packed_count(alloc, &words, text)?;
    put_back(alloc, call, &words, text).map_err(Fault::Memory)
}

/// `word_count E ..`: how many words the elements hold.
fn put_word_count(alloc: Global, arguments: &str, text: &mut String) -> Result<(), Fault> {
    let elements = elements::<F>(alloc, arguments)?;
    if elements.len() >= 1 << 57 {
        return Err(Fault::OutOfRange("2^57 elements"));
    }
    put(text, word_count(&elements) as u64).map_err(Fault::Memory)
}

/// `pair_count W .. @ E ..`: how many pairs there are of an element that the words are packed into
/// and one of these.
fn put_pair_count(alloc: Global, arguments: &str, text: &mut String) -> Result<(), Fault> {
    let (words, others) = split_at_mark(arguments, '@')?;
    let words = numbers(alloc, words)?;
    if words.len() >= 1 << 57 {
        return Err(Fault::OutOfRange("2^57 words"));
    }
    let others = elements::<F>(alloc, others)?;
    put(text, pair_count(&words, &others) as u64).map_err(Fault::Memory)
}

/// Gives its item at each call but that of the number `end`. It counts the calls.
#[derive(Drop)]
struct EndsOnce<'a, T> {
    item: T,
    end: u64,
    calls: &'a Cell<u64>,
}

impl<'a, T: Copy> Iterator for EndsOnce<'a, T> {
    type Item = T;

    fn next(&mut self) -> Option<T> {
        let calls = self.calls.get().wrapping_add(1);
        self.calls.set(calls);
        if calls == self.end {
            None
        } else {
            Some(self.item)
        }
    }
}

/// Adds the next element that words are packed into, or `none`.
fn put_element_asked(items: &mut WordsToElements<EndsOnce<'_, u64>>, text: &mut String) -> Mem<()> {
    match items.next() {
        Some(x) => put_element(text, x),
        None => text.push_str(" none"),
    }
}

/// Adds the next word that elements hold, or `none`.
fn put_word_asked(items: &mut ElementsToWords<EndsOnce<'_, F>>, text: &mut String) -> Mem<()> {
    match items.next() {
        Some(word) => put(text, word),
        None => text.push_str(" none"),
    }
}

/// Adds the next items of a source of words that ends once, packed.
fn put_elements_asked(words: EndsOnce<'_, u64>, count: u32, text: &mut String) -> Mem<()> {
    let mut items = F::stream_from_u64s(words);
    for _ in 0..count {
        put_element_asked(&mut items, text)?;
    }
    Ok(())
}

/// Adds the next items of a source of elements that ends once, unpacked.
fn put_words_asked(elements: EndsOnce<'_, F>, count: u32, text: &mut String) -> Mem<()> {
    let mut items = F::stream_to_u64s(elements);
    for _ in 0..count {
        put_word_asked(&mut items, text)?;
    }
    Ok(())
}

/// `pack_asked A @ END COUNT`, `unpack_asked A @ END COUNT`: a source gives A at each call but at
/// call END, where it ends. So many items of it, packed or unpacked, or `none`; `asked`, and how
/// often the source was asked.
fn put_asked(call: &str, arguments: &str, text: &mut String) -> Result<(), Fault> {
    let (item, rest) = split_at_mark(arguments, '@')?;
    let item = number(item.trim())?;
    let (end, count) = split_at_mark(rest.trim(), ' ')?;
    let (end, count) = (number(end)?, short(count)?);
    let calls = Cell::new(0);
    let calls = &calls;
    match call {
        "pack_asked" => put_elements_asked(EndsOnce { item, end, calls }, count, text)?,
        _ => {
            let item = F::from(item);
            put_words_asked(EndsOnce { item, end, calls }, count, text)?
        }
    }
    text.push_str(" asked")?;
    put(text, calls.get()).map_err(Fault::Memory)
}
