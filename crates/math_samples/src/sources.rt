//! Sources whose random words are listed.

ghost use Rattle.std.specs.Prelude.{◌≡◌, ℕ, List, drop, slice_index_or};
ghost use Rattle.rand_core.specs.Steps.{stream_of, steps_u64_low};

use rand_core::utils::{self, NextWord};
use rand_core::{CryptoRng, Rng};
use std::marker::Model;

/// A source of the words of a list, and of zeros after them.
#[derive(Drop)]
pub struct Listed<'a> {
    words: &'a [u64],
}

/// A source is the list of its words that are left.
impl<'a> Model for Listed<'a> {
    ghost Value = { List ℕ };

    ghost view = { λ s. s.words.now };
}

impl<'a> Listed<'a> {
    /// The source of these words.
    pub fn new(words: &'a [u64]) -> Listed<'a>
        ensures { result ≡ words.now }
    {
        Listed { words }
    }

    /// How many of the words are left.
    pub fn left(&self) -> usize {
        self.words.len()
    }
}

impl<'a> NextWord<u64> for Listed<'a> {
    ghost step = { λ words. (slice_index_or words 0 0, drop 1 words) };

    fn next_word(&mut self) -> u64 {
        match self.words {
            [] => 0,
            [word, rest @ ..] => {
                self.words = rest;
                *word
            }
        }
    }
}

impl<'a> Rng for Listed<'a> {
    ghost stream = { stream_of (steps_u64_low (λ words. (slice_index_or words 0 0, drop 1 words))) };

    fn next_u32(&mut self) -> u32 {
        (self.next_word() % (1 << 32)) as u32
    }

    fn next_u64(&mut self) -> u64 {
        self.next_word()
    }

    fn fill_bytes(&mut self, dst: &mut [u8]) {
        utils::fill_bytes_via_u64(self, dst)
    }
}

impl<'a> CryptoRng for Listed<'a> {}
