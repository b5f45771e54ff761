//! Elements back to data.
//!
//! Word i that elements unpack to has 64 bits, of which the first is bit 64 i of the elements,
//! which have 63 each. Write i as 63 a + b with b below 63, and let q be 64 a + b, which is i + a.
//! Then 64 i is 63 q + b: the 63 - b highest bits of element q are the lowest of the word, and the
//! others are the lowest of element q + 1. So two elements give any word, and no list of all words
//! is made. Within a run of 63 words, b and the place of the element rise by one with each word.
//!
//! For example, the data 7 and 8 are the elements 2 14 32 0. Word 0 says that two words follow.
//! These three words have 192 bits and pack to four elements: three are below 2^63, and the last
//! has no more than the 3 bits that are left for it. Elements with so few bits are the ones that
//! their words pack to, so no list of words is packed again and compared.

ghost use Rattle.std.specs.Prelude.{◌≡◌, ◌↔◌, ◌+◌, ◌*◌, ◌%◌, ◌<◌};
ghost use Rattle.std.specs.Prelude.{◌≤◌, ◌^◌, ℕ, List, All, length};
ghost use Rattle.std.specs.Prelude.{IsTrue, IfOk, IfSome, IfNone, drop, slice_index, slice_index_or, take};
ghost use Rattle.std.specs.Int.{div_ceil};
ghost use Rattle.math_fields.specs.Elements.{number, residue, same};
ghost use Rattle.math_fields.specs.Packing.{words_of};
ghost use Rattle.math_shards.specs.Fitting.{AreDataOf};
ghost use Rattle.math_shards.specs.PackedWords.{HoldsWords};
ghost use Rattle.math_shards.specs.Unpacking.{AreBetween, AreRepacked, AreUnpacked, word_between};

use math_base::algebra::Mem;
use math_fields::goldilocks::F;
use math_values::words::Word;
use std::alloc::Global;

/// Data that shards gave back, packed in elements as they were before they were split.
///
/// ```
/// let packed = join_packed(alloc, &split(alloc, &[4, 6, 8], 2, 5)?)?;
/// packed.count(); // 3
/// packed.word(2); // 8
/// let mut out = [0; 2];
/// packed.write(1, &mut out);
/// out; // [6, 8]
/// packed.words(alloc)?; // [4, 6, 8]
/// ```
#[derive(Debug, Drop)]
pub struct PackedData {
    /// The elements that the number of the words and the words pack to, and zeros.
    pub(super) elements: Vec<F>,
    /// How many words the data are.
    pub(super) count: usize,
}

impl PackedData {
    /// Returns how many words the data are.
    pub fn count(&self) -> usize
        ensures { (words : List ℕ) → HoldsWords words self.now → result ≡ length words }
    {
        self.count
    }

    /// Returns the word in this place, which is below the number of words.
    pub fn word(&self, place: usize) -> u64
        requires { place < 2 ^ 62 }
        ensures { (words : List ℕ) → HoldsWords words self.now → place < length words
            → result ≡ slice_index words place }
    {
        unpacked_word(&self.elements, place + 1)
    }

    /// Writes the words from place `first` on over those of `out`. The data have to have as many
    /// from there on.
    pub fn write(&self, first: usize, out: &mut [u64])
        requires { first + length out.old < 2 ^ 62 }
        ensures { (words : List ℕ) → HoldsWords words self.now
            → first + length out.old ≤ length words
            → out.new ≡ take (length out.old) (drop first words) }
    {
        write_unpacked(&self.elements, first + 1, out);
    }

    /// Returns a list of all words.
    pub fn words(&self, alloc: Global) -> Mem<Vec<u64>>
        ensures { (words : List ℕ) → HoldsWords words self.now
            → IfOk result (λ out. out.items ≡ words) }
    {
        let mut words = Vec::with_capacity(alloc, self.count)?;
        words.resize(self.count, 0)?;
        self.write(0, &mut words);
        Ok(words)
    }
}

/// Whether all elements are zero.
fn are_zero(elements: &[F]) -> bool
    ensures { IsTrue result ↔ All (λ element. same element (residue 0)) elements.now }
{
    for element in elements {
        if *element != F::from(0) {
            return false;
        }
    }
    true
}

/// The 63 lowest bits of an element.
fn bits_of(element: F) -> u64
    ensures { result ≡ number element % 2 ^ 63 }
{
    element.word() & 0x7fff_ffff_ffff_ffff
}

/// The 63 lowest bits of the element in this place. Past the last one they are zero.
fn bits_at(elements: &[F], place: usize) -> u64
    ensures { result ≡ number (slice_index_or elements.now place (residue 0)) % 2 ^ 63 }
{
    if place >= elements.len() {
        return 0;
    }
    bits_of(elements[place])
}

/// The word in this place of those that the elements unpack to. Past the last one it is zero.
fn unpacked_word(elements: &[F], place: usize) -> u64
    requires { place < 2 ^ 63 }
    ensures { result ≡ slice_index (words_of elements.now) place }
{
    let first = place + place / 63;
    let taken = (place % 63) as u32;
    (bits_at(elements, first) >> taken) | (bits_at(elements, first + 1) << (63 - taken))
}

/// The word whose first bits are those of an element behind the `taken` lowest, and the others the
/// lowest of the next element.
fn word_of(first: F, next: F, taken: u32) -> u64
    requires { taken < 63 }
    ensures { result ≡ word_between first next taken }
{
    (bits_of(first) >> taken) | (bits_of(next) << (63 - taken))
}

/// Whether the number of each element is below the bound.
fn are_below(elements: &[F], bound: u64) -> bool
    ensures { IsTrue result ↔ All (λ element. number element < bound) elements.now }
{
    elements.iter().all(|element| element.word() < bound)
}

/// Whether the first elements are those that the first `count` + 1 words pack to, of which there
/// are `filled`. They are where all but the last are below 2^63, and the last has no more bits than
/// the words have left for it.
fn are_repacked(elements: &[F], count: usize, filled: usize) -> bool
    requires few { count < 2 ^ 60 }
    requires filled { filled ≡ count + 1 + div_ceil (count + 1) 63 }
    requires within { filled ≤ length elements.now }
    ensures { IsTrue result ↔ AreRepacked elements.now count filled }
{
    let last = filled - 1;
    let left = (count % 63) as u32 + 1;
    are_below(&elements[..last], 1 << 63) && are_below(&elements[last..filled], 1 << left)
}

/// How many words of data the elements are, where they are those of data, in `min` rows of just the
/// width that these need.
pub(super) fn data_count(elements: &[F], min: u32, width: usize) -> Option<usize>
    requires some { 1 ≤ min }
    requires size { length elements.now ≡ min * width }
    ensures some { IfSome result (λ n. (words : List ℕ) × (length words ≡ n)
        × AreDataOf words min elements.now) }
    ensures none { IfNone result ((words : List ℕ) → ¬ (AreDataOf words min elements.now)) }
{
    let count = unpacked_word(elements, 0);
    if count >= elements.len() as u64 {
        return None;
    }
    let words = count as usize + 1;
    let filled = words + words.div_ceil(63);
    if filled.div_ceil(min as usize) != width {
        return None;
    }
    if !are_repacked(elements, count as usize, filled) {
        return None;
    }
    if !are_zero(&elements[filled..]) {
        return None;
    }
    Some(count as usize)
}

/// Writes over the words those whose first bits are those of an element, and the others the lowest
/// of the next element: of the first element the bits behind the `taken` lowest, and of each
/// further one a bit less.
fn write_words_between(elements: &[F], taken: u32, out: &mut [u64])
    requires elements { length elements.now ≡ length out.old + 1 }
    requires taken { taken + length out.old ≤ 63 }
    ensures { AreBetween elements.now taken out.new }
{
    let next = &elements[1..];
    let first = &elements[..next.len()];
    let out = &mut out[..next.len()];
    for k in 0..next.len() {
        out[k] = word_of(first[k], next[k], taken + k as u32);
    }
}

/// Writes over the words those that the elements unpack to, from place `first` on, where these are
/// in one run of 63.
fn unpack_run(elements: &[F], first: usize, out: &mut [u64])
    requires fits { first + length out.old < 2 ^ 63 }
    requires run { first % 63 + length out.old ≤ 63 }
    ensures { AreUnpacked elements.now first out.new }
{
    let from = first + first / 63;
    let last = from + out.len();
    if last < elements.len() {
        write_words_between(&elements[from..last + 1], (first % 63) as u32, out);
    } else {
        for k in 0..out.len() {
            out[k] = unpacked_word(elements, first + k);
        }
    }
}

/// Writes over the words those that the elements unpack to, from place `first` on.
fn write_unpacked(elements: &[F], first: usize, out: &mut [u64])
    requires { first + length out.old < 2 ^ 63 }
    ensures { AreUnpacked elements.now first out.new }
{
    let mut done = 0;
    while done < out.len() {
        let at = first + done;
        let count = (63 - at % 63).min(out.len() - done);
        unpack_run(elements, at, &mut out[done..done + count]);
        done += count;
    }
}
