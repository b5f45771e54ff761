//! Any word as an element: the mask over its high half.

ghost use Rattle.std.specs.Prelude.{◌≡◌, ◌-◌, ◌<◌, ◌≤◌, ◌^◌, ◌↔◌, ℕ, All, IfOk, IsTrue, OnOk};
ghost use Rattle.math_fields.specs.Elements.{number, residue};
ghost use Rattle.systematic_shards.specs.Masks.{AreTaken, IsFree, IsFreeOf, IsLeastMask};
ghost use Rattle.systematic_shards.specs.Masks.{masked_number};

use crate::memory::{RUN, WordMemory, words_from};
use math_base::algebra::Mem;
use math_fields::goldilocks::F;
use std::alloc::Global;

/// A high half that has all bits.
const ALL_ONES: u64 = 0xffff_ffff;

/// Returns the word with its high half xor the mask: of a word of the data the number of its
/// element, and of that number the word.
pub fn masked_word(word: u64, mask: u32) -> u64
    ensures { result ≡ masked_number mask word }
{
    word ^ (u64::from(mask) << 32)
}

/// The element whose number is the word under the mask, or, where that is P or more, its remainder.
pub(crate) fn element_of(word: u64, mask: u32) -> F
    ensures { result ≡ residue (masked_number mask word) }
{
    F::from(masked_word(word, mask))
}

/// The word that an element is under the mask.
pub(crate) fn word_of(element: F, mask: u32) -> u64
    ensures { result ≡ masked_number mask (number element) }
{
    masked_word(element.number(), mask)
}

/// Whether the high half of the word is not all ones under the mask.
pub(crate) fn is_free_of(word: u64, mask: u32) -> bool
    ensures { IsTrue result ↔ IsFreeOf mask word }
{
    (word >> 32) ^ u64::from(mask) != ALL_ONES
}

/// Whether the mask is free of each word.
///
/// All words are looked at before it answers, so that none waits for the one before it.
pub(crate) fn are_free_of(words: &[u64], mask: u32) -> bool
    ensures free { IsTrue result ↔ All (IsFreeOf mask) words.now }
    ensures fit { All (λ word. word < 2 ^ 64) words.now }
{
    let mut free = true;
    for word in words {
        if !is_free_of(*word, mask) {
            free = false;
        }
    }
    free
}

/// Whether the mask is free of each of the first `count` words.
fn is_free<M: WordMemory>(cells: &[M], count: usize, mask: u32) -> bool
    requires { count < 2 ^ 31 }
    ensures free { IsTrue result ↔ IsFree count (M.word cells.now) mask }
    ensures fit { IsTrue result → (k : ℕ) → k < count → M.word cells.now k < 2 ^ 64 }
{
    let mut run = [0; RUN];
    let mut from = 0;
    while from < count {
        let some = RUN.min(count - from);
        let words = words_from(cells, from, some, &mut run);
        if !are_free_of(words, mask) {
            return false;
        }
        from += some;
    }
    true
}

/// For each number below `count`, whether the high half of one of the first `count` words is its
/// complement.
fn taken_masks<M: WordMemory>(alloc: Global, cells: &[M], count: usize) -> Mem<Vec<bool>>
    requires { count < 2 ^ 31 }
    ensures { IfOk result (λ taken. AreTaken count (M.word cells.now) count taken.items) }
{
    let mut taken = vec![in alloc; false; count]?;
    for k in 0..count {
        let complement = ALL_ONES - (M::read(cells, k) >> 32);
        if complement < count as u64 {
            taken[complement as usize] = true;
        }
    }
    Ok(taken)
}

/// The least mask that is free of each of the first `count` words; it is at most their number.
///
/// It is 0 unless some high half is all ones. Else it takes memory for a flag for each word.
pub(crate) fn least_mask<M: WordMemory>(alloc: Global, cells: &[M], count: usize) -> Mem<u32>
    requires { count < 2 ^ 31 }
    ensures least { IfOk result (λ mask. IsLeastMask count (M.word cells.now) mask) }
    ensures few { IfOk result (λ mask. mask ≤ count) }
    ensures fit { OnOk result ((k : ℕ) → k < count → M.word cells.now k < 2 ^ 64) }
{
    if is_free(cells, count, 0) {
        return Ok(0);
    }
    let taken = taken_masks(alloc, cells, count)?;
    for mask in 0..count {
        if !taken[mask] {
            return Ok(mask as u32);
        }
    }
    Ok(count as u32)
}
