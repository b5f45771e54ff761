//! Words packed into elements by 63 bits each, and elements unpacked to words.
//!
//! The bits of all words in order, those of each word from the lowest up, are one list. Packing
//! cuts it into pieces of 63, the last filled with zeros; a piece writes a number below 2^63, and
//! so below P. Unpacking joins the 63 lowest bits of each element to one list, and cuts it into
//! pieces of 64.
//!
//! Neither makes the list. Its first bits wait in a word. Those of the next item are put above
//! them; the lowest of both are the next piece, and what is left of the item waits in its turn.

ghost use Rattle.std.specs.Prelude.{◌≡◌, ◌<◌, ◌+◌, ◌*◌, ◌^◌, ◌%◌, ◌++◌, [], take, drop, None};
ghost use Rattle.std.specs.Iterator.{count_map};
ghost use Rattle.math_numbers.specs.Bits.{bits, piece_count};
ghost use Rattle.math_fields.specs.Repacking.{running, NoMoreThan};

use super::F;
use std::iter::Fuse;

/// Fewer than 64 bits that wait, the lowest first: the `count` lowest of `value`.
#[derive(Clone, Copy)]
struct WaitingBits {
    value: u64,
    count: u32,
    ghost below: { value < 2 ^ count },
    ghost few: { count < 64 },
}

impl WaitingBits {
    ghost use Rattle.math_numbers.specs.Bits.{number};
    ghost use Rattle.math_fields.specs.Packing.{CanCut, waiting_bits};

    /// No bits.
    fn none() -> WaitingBits
        ensures bits { waiting_bits result ≡ [] }
        ensures count { result.count ≡ 0 }
    {
        WaitingBits { value: 0, count: 0 }
    }

    /// The number that the first `width` of these bits and of the `more` lowest of a word after
    /// them write, and the bits after those.
    fn cut(self, word: u64, more: u32, width: u32) -> (u64, WaitingBits)
        requires low { word < 2 ^ more }
        requires width { CanCut self.count more width }
        ensures first { result.0 ≡ number (take width (waiting_bits self ++ bits more word)) }
        ensures below { result.0 < 2 ^ width }
        ensures rest { waiting_bits result.1 ≡ drop width (waiting_bits self ++ bits more word) }
        ensures count { result.1.count + width ≡ self.count + more }
    {
        let both = self.value.wrapping_add(word << self.count);
        let rest = WaitingBits {
            value: word >> (width - self.count),
            count: self.count + more - width,
        };
        (both & (u64::MAX >> (64 - width)), rest)
    }
}

/// The elements that `F::stream_from_u64s` packs words to, in order. After the last element each
/// call answers `None`.
#[derive(Drop)]
pub struct WordsToElements<I> {
    waiting: WaitingBits,
    source: Fuse<I>,
}

impl<I: Iterator<Item = u64> + Drop> Iterator for WordsToElements<I> {
    ghost use Rattle.math_fields.specs.Packing.{words_to_elements_source, words_to_elements_steps, words_to_elements_bits};

    type Item = F;

    ghost can_next = { λ s. ⟦<Fuse<I> as Iterator>⟧.can_next (words_to_elements_source s) };

    ghost next_gives = { words_to_elements_steps I.next_gives };

    ghost remaining = { λ s. count_map (piece_count 63)
        (words_to_elements_bits ⟦<Fuse<I> as Iterator>⟧.remaining s) };

    fn next(&mut self) -> Option<F> {
        // A word has one bit more than an element, so where 63 bits wait an element needs none.
        let waiting = self.waiting;
        if waiting.count == 63 {
            self.waiting = WaitingBits::none();
            return Some(F::from_piece(waiting.value));
        }
        let Some(word) = self.source.next() else {
            if waiting.count == 0 {
                return None;
            }
            self.waiting = WaitingBits::none();
            return Some(F::from_piece(waiting.value));
        };
        let (first, rest) = waiting.cut(word, 64, 63);
        self.waiting = rest;
        Some(F::from_piece(first))
    }
}

/// The words that `F::stream_to_u64s` unpacks elements to, in order. After the last word each call
/// answers `None`.
#[derive(Drop)]
pub struct ElementsToWords<I> {
    waiting: WaitingBits,
    source: Fuse<I>,
}

impl<I: Iterator<Item = F> + Drop> ElementsToWords<I> {
    ghost use Rattle.math_fields.specs.Packing.{RefillsWithElements, elements_to_words_bits};

    /// Takes an element from the source where no bit waits, unless it has ended.
    fn refill(&mut self)
        requires { ⟦<Fuse<I> as Iterator>⟧.can_next self.old.source }
        ensures refills { RefillsWithElements I.next_gives self.old self.new }
        ensures enough { self.new.waiting.count ≡ 0 → running self.new.source ≡ None }
        ensures can { ⟦<Fuse<I> as Iterator>⟧.can_next self.new.source }
        ensures left { NoMoreThan
            (elements_to_words_bits ⟦<Fuse<I> as Iterator>⟧.remaining self.new)
            (elements_to_words_bits ⟦<Fuse<I> as Iterator>⟧.remaining self.old) }
    {
        if self.waiting.count == 0 {
            if let Some(element) = self.source.next() {
                self.waiting = WaitingBits {
                    value: element.low_bits(),
                    count: 63,
                };
            }
        }
    }
}

impl<I: Iterator<Item = F> + Drop> Iterator for ElementsToWords<I> {
    ghost use Rattle.math_fields.specs.Packing.{elements_to_words_source, elements_to_words_steps, elements_to_words_bits};

    type Item = u64;

    ghost can_next = { λ s. ⟦<Fuse<I> as Iterator>⟧.can_next (elements_to_words_source s) };

    ghost next_gives = { elements_to_words_steps I.next_gives };

    ghost remaining = { λ s. count_map (piece_count 64)
        (elements_to_words_bits ⟦<Fuse<I> as Iterator>⟧.remaining s) };

    fn next(&mut self) -> Option<u64> {
        // An element has one bit less than a word, so where no bit waits a word needs two.
        self.refill();
        let waiting = self.waiting;
        if waiting.count == 0 {
            return None;
        }
        let Some(element) = self.source.next() else {
            self.waiting = WaitingBits::none();
            return Some(waiting.value);
        };
        let (first, rest) = waiting.cut(element.low_bits(), 63, 64);
        self.waiting = rest;
        Some(first)
    }
}

impl F {
    ghost use Rattle.math_fields.specs.Elements.{number};
    ghost use Rattle.math_fields.specs.Repacking.{GivesAll, GivesFront, GivesCount};
    ghost use Rattle.math_fields.specs.Packing.{elements_of, words_of, words_to_elements_steps, elements_to_words_steps};

    /// The element with this number, which a piece of 63 bits writes.
    fn from_piece(value: u64) -> F
        requires { value < 2 ^ 63 }
        ensures { number result ≡ value }
    {
        F { value }
    }

    /// The 63 lowest bits of the number.
    fn low_bits(self) -> u64
        ensures { result ≡ number self % 2 ^ 63 }
    {
        self.value & 0x7fff_ffff_ffff_ffff
    }

    /// Packs words into elements, without memory.
    ///
    /// It writes the bits of the words in a row, in order and the lowest of each first, and cuts
    /// the row into pieces of 63, the last filled with zeros. Each piece is the number of an
    /// element. So n words give 64 n / 63 elements, rounded up. After its first `None` it does not
    /// ask `inner` again.
    ///
    /// ```
    /// let mut elements = F::stream_from_u64s(7..8);
    /// elements.next(); // Some(7)
    /// elements.next(); // Some(0)
    /// elements.next(); // None
    /// ```
    pub fn stream_from_u64s<I: Iterator<Item = u64> + Drop>(inner: I) -> WordsToElements<I>
        ensures all { GivesAll (words_to_elements_steps I.next_gives) result
            I.next_gives inner elements_of }
        ensures front { GivesFront (words_to_elements_steps I.next_gives) result
            I.next_gives inner elements_of }
        ensures count { GivesCount (words_to_elements_steps I.next_gives) result I.next_gives inner
            (λ n. piece_count 63 (64 * n)) }
        ensures can { I.can_next inner → ⟦<WordsToElements<I> as Iterator>⟧.can_next result }
        ensures ends { NoMoreThan (⟦<WordsToElements<I> as Iterator>⟧.remaining result)
            (count_map (λ n. piece_count 63 (64 * n)) (I.remaining inner)) }
    {
        WordsToElements {
            waiting: WaitingBits::none(),
            source: inner.fuse(),
        }
    }

    /// Unpacks elements to words, without memory.
    ///
    /// It writes the 63 lowest bits of each element in a row, in order and the lowest first, and
    /// cuts the row into pieces of 64, the last filled with zeros. Each piece is a word. It ignores
    /// bit 63 of an element. So n elements give 63 n / 64 words, rounded up. Packed words come
    /// back, with one zero word after them if 63 does not divide their number. After its first
    /// `None` it does not ask `inner` again.
    ///
    /// ```
    /// let mut words = F::stream_to_u64s(F::stream_from_u64s(7..9));
    /// words.next(); // Some(7)
    /// words.next(); // Some(8)
    /// words.next(); // Some(0)
    /// words.next(); // None
    /// ```
    pub fn stream_to_u64s<I: Iterator<Item = F> + Drop>(inner: I) -> ElementsToWords<I>
        ensures all { GivesAll (elements_to_words_steps I.next_gives) result
            I.next_gives inner words_of }
        ensures front { GivesFront (elements_to_words_steps I.next_gives) result
            I.next_gives inner words_of }
        ensures count { GivesCount (elements_to_words_steps I.next_gives) result I.next_gives inner
            (λ n. piece_count 64 (63 * n)) }
        ensures can { I.can_next inner → ⟦<ElementsToWords<I> as Iterator>⟧.can_next result }
        ensures ends { NoMoreThan (⟦<ElementsToWords<I> as Iterator>⟧.remaining result)
            (count_map (λ n. piece_count 64 (63 * n)) (I.remaining inner)) }
    {
        ElementsToWords {
            waiting: WaitingBits::none(),
            source: inner.fuse(),
        }
    }

    /// Returns the number of elements that this many bits pack to: a 63rd of it, rounded up.
    ///
    /// ```
    /// F::bits_to_elements(64); // 2
    /// ```
    pub const fn bits_to_elements(bits: usize) -> usize
        ensures { result ≡ piece_count 63 bits }
    {
        bits.div_ceil(63)
    }
}
