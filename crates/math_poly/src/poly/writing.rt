//! Polynomials written as bytes.

ghost use Rattle.std.specs.Prelude.{◌≡◌, ◌+◌, ◌*◌, ◌<◌, ◌≤◌, ◌^◌, List, length};
ghost use Rattle.std.specs.List.{All};
ghost use Rattle.math_codec.specs.Lengths.{length_spelling};
ghost use Rattle.math_codec.specs.Lists.{list_spelling};

use super::Poly;
use math_codec::codec::{EncodeSize, MaxEncodeSize, Mem, Write, len_size, list_size, write_list};
use std::alloc::Global;

impl<K: Write + Drop> Write for Poly<K> {
    ghost fits = { λ p. All K.fits p };

    /// Writes the list of the coefficients.
    fn write(&self, alloc: Global, out: &mut Vec<u8>) -> Mem<()> {
        write_list(alloc, &self.coefficients, out)
    }
}

impl<K: EncodeSize + Drop> EncodeSize for Poly<K> {
    /// The number of bytes that the list of the coefficients is written in.
    fn encode_size(&self) -> usize {
        list_size(&self.coefficients)
    }
}

impl<K: MaxEncodeSize + Drop> Poly<K> {
    /// Returns the greatest number of bytes of a polynomial with at most n stored coefficients:
    /// those of the length n, and n times those of a coefficient. n is below 2^32, and the result
    /// below 2^64.
    ///
    /// ```
    /// Poly::<F>::max_encode_size(3); // 25
    /// ```
    pub fn max_encode_size(n: usize) -> usize
        requires count { n < 2 ^ 32 }
        requires fits { length (length_spelling n) + n * K.MAX_ENCODE_SIZE < 2 ^ 64 }
        ensures size { result ≡ length (length_spelling n) + n * K.MAX_ENCODE_SIZE }
        ensures bound { (p : List K) → length p ≤ n → length (list_spelling K.spelling p) ≤ result }
    {
        len_size(n) + n * K::MAX_ENCODE_SIZE
    }
}
