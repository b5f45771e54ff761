//! Words as elements, and elements as words.
//!
//! The caller's memory changes only if a call succeeds, and no call assumes the invariant of `F` of
//! a word. So a call that transforms words tests them in the pass that makes them elements of a
//! list of its own, and writes the answer back at the end. The value at a point is summed while its
//! words are tested; the other calls test first.

ghost use Rattle.std.specs.Prelude.{◌≡◌, ◌≤◌, ◌+◌, ◌*◌, ◌++◌, ℕ, List, IfOk, IfSome, None, length, take, drop};
ghost use Rattle.std.specs.Int.{to_be_bytes, w64};
ghost use Rattle.std.specs.List.{flat_map};
ghost use Rattle.math_codec.specs.Faults.{Agrees, OnMemory};
ghost use Rattle.math_codec.specs.Lists.{scan_items};
ghost use Rattle.math_fields.specs.ElementEncoding.{scan_element};
ghost use Rattle.c_calls.specs.WordElements.{AreElements, elements, numbers};

use commonware_math::algebra::Mem;
use commonware_math::codec::{Error, Read};
use commonware_math::fields::goldilocks::{F, MODULUS};
use math_splitting::shards::write_word;
use math_values::words::Word;
pub use math_values::words::are_elements;
use std::alloc::Global;

/// The words as elements.
pub(crate) fn elements(alloc: Global, words: &[u64]) -> Mem<Vec<F>>
    ensures { IfOk result (λ v. v.items ≡ elements words.now) }
{
    let mut out = Vec::with_capacity(alloc, words.len())?;
    for word in words {
        out.push_reserved(F::from(*word));
    }
    Ok(out)
}

/// The words as elements, where each is below P.
///
/// All words are looked at before it answers, so that none waits for the one before it.
pub fn elements_below(alloc: Global, words: &[u64]) -> Mem<Option<Vec<F>>>
    ensures some { IfOk result (λ answer. IfSome answer (λ v.
        AreElements words.now × (v.items ≡ elements words.now))) }
    ensures none { IfOk result (λ answer. answer ≡ None → ¬ (AreElements words.now)) }
{
    let mut out = Vec::with_capacity(alloc, words.len())?;
    let mut below = true;
    for word in words {
        out.push_reserved(F::from(*word));
        if *word >= MODULUS {
            below = false;
        }
    }
    if below { Ok(Some(out)) } else { Ok(None) }
}

/// Writes the numbers of the elements over the words, of which there are as many. Both are slices
/// of one length, so that no place is tested.
pub(crate) fn write_numbers(words: &mut [u64], items: &[F])
    requires { length words.old ≡ length items.now }
    ensures { words.new ≡ numbers items.now }
{
    let source = &items[..words.len()];
    for i in 0..words.len() {
        words[i] = source[i].word();
    }
}

/// Reads the words that the bytes spell, eight bytes each, highest first, over the words.
///
/// Each turn of the loop reads two, as each of `spell_words` writes two.
pub(crate) fn read_words(words: &mut [u64], bytes: &[u8])
    requires { length bytes.now ≡ 8 * length words.old }
    ensures { (items : List ℕ) → AreElements items → bytes.now ≡ flat_map (to_be_bytes w64) items
        → words.new ≡ items }
{
    let (eights, _) = bytes.as_chunks::<8>();
    for pair in 0..words.len() / 2 {
        let i = 2 * pair;
        words[i] = u64::from_be_bytes(eights[i]);
        words[i + 1] = u64::from_be_bytes(eights[i + 1]);
    }
    if words.len() % 2 == 1 {
        let last = words.len() - 1;
        words[last] = u64::from_be_bytes(eights[last]);
    }
}

/// What follows so many words in front of the bytes, eight bytes each, highest first, where they
/// are there and each is below P.
///
/// All words are looked at before it answers, so that none waits for the one before it.
fn after_words_below(alloc: Global, count: u32, bytes: &[u8]) -> Option<&[u8]>
    ensures { IfSome result (λ rest. (words : List ℕ) × (length words ≡ count) × AreElements words
        × (bytes.now ≡ flat_map (to_be_bytes w64) words ++ rest.now)) }
{
    if bytes.len() < 8 * count as usize {
        return None;
    }
    let mut rest = bytes;
    let mut below = true;
    for _ in 0..count {
        let Ok(word) = u64::read_cfg(alloc, &mut rest, &()) else {
            unreachable!()
        };
        if word >= MODULUS {
            below = false;
        }
    }
    if below { Some(rest) } else { None }
}

/// Goes over so many words in front of the bytes, eight bytes each, highest first, and gives what
/// follows them. It refuses with the first fault from left to right: a word that is P or more, or
/// no further word.
pub(crate) fn after_elements(alloc: Global, count: u32, bytes: &[u8]) -> Result<&[u8], Error>
    ensures taken { IfOk result (λ rest. (words : List ℕ) × (length words ≡ count)
        × AreElements words × (bytes.now ≡ flat_map (to_be_bytes w64) words ++ rest.now)) }
    ensures memory { OnMemory result ⊥ }
    ensures exact { Agrees (λ rest. rest.now) result (scan_items scan_element count bytes.now) }
{
    if let Some(rest) = after_words_below(alloc, count, bytes) {
        return Ok(rest);
    }
    let mut rest = bytes;
    for _ in 0..count {
        let _element = F::read_cfg(alloc, &mut rest, &())?;
    }
    Ok(rest)
}

/// Writes the words over the bytes from place `from` on: eight bytes each, highest first.
///
/// Each turn of the loop writes two. If it wrote one, LLVM would make a vector loop of it, which
/// takes twice as long on processors that cannot move bytes within a register.
pub(crate) fn spell_words(bytes: &mut [u8], from: usize, words: &[u64])
    requires { from + 8 * length words.now ≤ length bytes.old }
    ensures { bytes.new ≡ take from bytes.old ++ flat_map (to_be_bytes w64) words.now
        ++ drop (from + 8 * length words.now) bytes.old }
{
    for pair in 0..words.len() / 2 {
        let i = 2 * pair;
        write_word(bytes, from + 8 * i, words[i]);
        write_word(bytes, from + 8 * i + 8, words[i + 1]);
    }
    if words.len() % 2 == 1 {
        let last = words.len() - 1;
        write_word(bytes, from + 8 * last, words[last]);
    }
}
