//! Words packed into elements of the Goldilocks field, and back.
ghost use Rattle.std.specs.Prelude.{◌≡◌, ◌<◌, ◌*◌, ◌%◌, ◌^◌, ◌++◌, ℕ, List, All, length};
ghost use Rattle.math_numbers.specs.Bits.{piece_count, zero_word_unless};
ghost use Rattle.math_fields.specs.Packing.{elements_of, words_of};

use crate::goldilocks::F;

/// Words packed and unpacked are the words again, and after them one zero word exactly where 63
/// does not divide their number. n words pack to 64 n / 63 elements, and n elements unpack to 63 n
/// / 64 words, each rounded up.
pub fn packed_words_come_back()
    ensures words { (words : List ℕ) → All (λ word. word < 2 ^ 64) words
        → words_of (elements_of words) ≡ words ++ zero_word_unless (length words % 63) }
    ensures element_count { (words : List ℕ)
        → length (elements_of words) ≡ piece_count 63 (64 * length words) }
    ensures word_count { (elements : List F)
        → length (words_of elements) ≡ piece_count 64 (63 * length elements) }
{}
