//! Words: eight bytes, highest first.

ghost use Rattle.std.specs.Prelude.{◌≡◌, ◌<◌, ◌^◌, refl};
ghost use Rattle.std.specs.Int.{w64, to_be_bytes};
ghost use Rattle.math_codec.specs.Words.{scan_word};
ghost use Rattle.math_codec.specs.WordLaws.{word_again, word_apart, word_bounded};

use super::Mem;
use super::error::Error;
use super::read::{Encoding, Read};
use super::write::{EncodeSize, FixedSize, MaxEncodeSize, Write};
use std::alloc::Global;

impl Encoding for u64 {
    ghost spelling = { to_be_bytes w64 };

    ghost alike = { λ m n. m ≡ n };
}

impl Read for u64 {
    type Cfg = ();

    ghost admits = { λ _ n. n < 2 ^ 64 };

    ghost scan = { λ _. scan_word };

    ghost grows = { λ _ _. ⊥ };

    /// Reads a word: `EndOfBuffer` where fewer than eight bytes remain.
    fn read_cfg(_alloc: Global, input: &mut &[u8], _cfg: &()) -> Result<u64, Error> {
        let bytes = *input;
        if bytes.len() < 8 {
            return Err(Error::EndOfBuffer);
        }
        let (front, rest) = bytes.split_at(8);
        let word = u64::from_be_bytes([
            front[0], front[1], front[2], front[3], front[4], front[5], front[6], front[7],
        ]);
        *input = rest;
        Ok(word)
    }

    ghost again = { λ _ n rest h. word_again n rest h };

    ghost apart = { λ _ m n x y h k e. word_apart m n x y h k e };
}

impl Write for u64 {
    ghost fits = { λ _. Unit {0} };

    /// Writes a word: eight bytes, highest first.
    fn write(&self, _alloc: Global, out: &mut Vec<u8>) -> Mem<()> {
        out.extend_from_slice(&self.to_be_bytes())
    }
}

impl EncodeSize for u64 {
    /// A word is written in eight bytes.
    fn encode_size(&self) -> usize {
        Self::SIZE
    }
}

impl FixedSize for u64 {
    ghost SIZE = { 8 };

    const SIZE: usize = 8;

    ghost fixed = { λ _. refl };
}

impl MaxEncodeSize for u64 {
    ghost MAX_ENCODE_SIZE = { 8 };

    const MAX_ENCODE_SIZE: usize = 8;

    ghost bounded = { word_bounded };
}
