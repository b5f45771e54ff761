//! Bits: numbers cut into pieces, joined and cut again.
//!
//! The bits of a list of numbers of j bits, the lowest first, are cut into pieces of k bits, of
//! which the last is filled with zeros. Joined again, the pieces are these bits and the zeros that
//! were filled in; cut by j, they give the numbers back, and zeros for what was filled in.

ghost use Rattle.std.specs.Prelude.{◌≡◌, ◌<◌, ◌≤◌, ◌+◌, ◌-◌, ◌*◌, ◌%◌, ◌^◌, ◌++◌, ℕ, List, All, length, replicate};
ghost use Rattle.math_numbers.specs.Bits.{bits, number, IsBit, joined, piece_count, cut, repacked, zero_word_unless};

/// The k lowest bits of n write its remainder by 2^k.
pub fn bits_of_numbers()
    ensures length { (k n : ℕ) → length (bits k n) ≡ k }
    ensures number { (k n : ℕ) → number (bits k n) ≡ n % 2 ^ k }
{}

/// Pieces of k bits, joined, are the bits that were cut, filled with zeros to a whole number of
/// pieces; and numbers of k bits, joined and cut at their own width, come back.
pub fn cut_and_joined()
    ensures joined { (k : ℕ) → (bs : List ℕ) → 0 < k → All IsBit bs
        → joined k (cut k bs) ≡ bs ++ replicate (k * piece_count k (length bs) - length bs) 0 }
    ensures cut { (k : ℕ) → (ns : List ℕ) → 0 < k → All (λ n. n < 2 ^ k) ns
        → cut k (joined k ns) ≡ ns }
{}

/// How many pieces of k bits numbers of j bits give: as many as hold all their bits.
pub fn lengths_of_repacked()
    ensures length { (j k : ℕ) → (ns : List ℕ)
        → length (repacked j k ns) ≡ piece_count k (j * length ns) }
    ensures enough { (k n : ℕ) → 0 < k → n ≤ k * piece_count k n }
    ensures least { (k n : ℕ) → 0 < k → k * piece_count k n < n + k }
{}

/// Words of 64 bits, cut into pieces of 63 bits, and back: the words come back, followed by one
/// zero word exactly where 63 does not divide their number.
pub fn words_there_and_back()
    ensures { (words : List ℕ) → All (λ w. w < 2 ^ 64) words
        → repacked 63 64 (repacked 64 63 words) ≡ words ++ zero_word_unless (length words % 63) }
{}
