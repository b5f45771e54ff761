//! What holds a word: a word, an element, or eight bytes.

ghost use Rattle.std.specs.Prelude.{◌≡◌, ◌↔◌, ◌-◌, ◌<◌, ◌++◌, ℕ, IsTrue, length, replicate};
ghost use Rattle.math_values.specs.Values.{AreElements};

use math_fields::goldilocks::{F, MODULUS};

/// A word, the element whose number it is, or the eight bytes that it is, the lowest first.
pub trait Word: Copy {
    ghost word: { Self → ℕ };

    /// Returns the word.
    fn word(self) -> u64
        ensures { result ≡ word self };
}

impl Word for u64 {
    ghost word = { λ x. x };

    fn word(self) -> u64 {
        self
    }
}

impl Word for F {
    ghost use Rattle.math_fields.specs.Elements.{number};

    ghost word = { number };

    fn word(self) -> u64 {
        self.number()
    }
}

impl Word for [u8; 8] {
    ghost use Rattle.std.specs.Int.{from_le_bytes, w64};

    ghost word = { from_le_bytes w64 };

    fn word(self) -> u64 {
        u64::from_le_bytes(self)
    }
}

/// Returns fewer than eight bytes with zeros after them.
pub fn padded_to_eight(rest: &[u8]) -> [u8; 8]
    requires { length rest.now < 8 }
    ensures { result ≡ rest.now ++ replicate (8 - length rest.now) 0 }
{
    let mut eight = [0; 8];
    eight[..rest.len()].copy_from_slice(rest);
    eight
}

/// Returns whether each word is below P, and so the number of an element.
pub fn are_elements(words: &[u64]) -> bool
    ensures { IsTrue result ↔ AreElements words.now }
{
    words.iter().all(|word| *word < MODULUS)
}
