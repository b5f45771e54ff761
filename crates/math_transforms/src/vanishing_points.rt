//! The points of a domain at which a polynomial has to vanish, one bit a point.

ghost use Rattle.std.specs.Prelude.{
  ◌≡◌,
  ◌+◌,
  ◌-◌,
  ◌<◌,
  ◌^◌,
  IfOk,
  Some,
  length,
  replicate,
  List,
  Bool,
  slice_get,
  slice_set,
  true,
  false,
};
ghost use Rattle.math_theory.specs.Recovery.{count_true, filled_places};
ghost use Rattle.math_transforms.specs.Bitmaps.{points_a_word, truth_values, word_count, IsBitmap};

use math_base::algebra::Mem;
use std::alloc::Global;
use std::marker::Model;

/// The points of a domain of 2^lg_size roots of unity at which a polynomial has to vanish.
///
/// Each point has a truth value, in natural order. Point `i` is power `i` of the root: `false` says
/// that the polynomial vanishes there, and `true` that it does not.
///
/// Point `i` is bit `i % 64` of word `i / 64`. Fewer than 64 points leave bits of the one word
/// over, and these are zero, so that equal bitmaps have equal words and the ones of whole words can
/// be counted.
///
/// ```
/// let mut points = VanishingPoints::new(alloc, 2)?;
/// points.set_non_vanishing(1);
/// points.set_non_vanishing(3);
/// points.non_vanishing_indices(alloc)?; // [1, 3]
/// points.get(2); // false
/// ```
#[derive(Debug, Drop)]
pub struct VanishingPoints {
    lg_size: u32,
    words: Vec<u64>,
}

/// A bitmap is the list of its truth values.
impl Model for VanishingPoints {
    ghost Value = { List Bool };

    ghost view = { λ v. truth_values v.lg_size v.words.items };

    ghost invariant = { λ v. IsBitmap v.lg_size v.words.items };
}

impl VanishingPoints {
    /// Makes 2^lg_size points, at each of which a polynomial has to vanish: all are `false`.
    ///
    /// `lg_size` is below 64. Takes 2^lg_size / 8 bytes, and 8 at least.
    ///
    /// ```
    /// let points = VanishingPoints::new(alloc, 2)?;
    /// points.size(); // 4
    /// points.count_non_vanishing(); // 0
    /// ```
    pub fn new(alloc: Global, lg_size: u32) -> Mem<Self>
        requires { lg_size < 64 }
        ensures { IfOk result (λ points. points ≡ replicate (2 ^ lg_size) false) }
    {
        let words = vec![in alloc; 0; words_for(lg_size)]?;
        Ok(VanishingPoints { lg_size, words })
    }

    /// Makes 2^lg_size points, at none of which a polynomial has to vanish: all are `true`.
    ///
    /// `lg_size` is below 64. Takes 2^lg_size / 8 bytes, and 8 at least.
    ///
    /// ```
    /// let points = VanishingPoints::all_non_vanishing(alloc, 2)?;
    /// points.lg_size(); // 2
    /// points.count_non_vanishing(); // 4
    /// ```
    pub fn all_non_vanishing(alloc: Global, lg_size: u32) -> Mem<Self>
        requires { lg_size < 64 }
        ensures { IfOk result (λ points. points ≡ replicate (2 ^ lg_size) true) }
    {
        let words = vec![in alloc; full_word(lg_size); words_for(lg_size)]?;
        Ok(VanishingPoints { lg_size, words })
    }

    /// Returns the binary logarithm of the number of points, which is below 64.
    pub fn lg_size(&self) -> u32
        ensures size { length self.now ≡ 2 ^ result }
        ensures small { result < 64 }
    {
        self.lg_size
    }

    /// Returns how many points there are.
    pub fn size(&self) -> u64
        ensures { result ≡ length self.now }
    {
        1 << self.lg_size()
    }

    /// Makes point `index` one at which the polynomial does not vanish. `index` is below 2^lg_size.
    pub fn set_non_vanishing(&mut self, index: u64)
        requires { index < length self.old }
        ensures { self.new ≡ slice_set self.old index true }
    {
        self.words[(index / 64) as usize] |= 1 << (index % 64);
    }

    /// Returns whether point `index` is one at which the polynomial does not vanish. `index` is
    /// below 2^lg_size.
    pub fn get(&self, index: u64) -> bool
        requires { index < length self.now }
        ensures { slice_get self.now index ≡ Some result }
    {
        (self.words[(index / 64) as usize] >> (index % 64)) & 1 == 1
    }

    /// Returns at how many points the polynomial does not vanish. It counts a word at a time.
    pub fn count_non_vanishing(&self) -> u64
        ensures { result ≡ count_true self.now }
    {
        let mut count = 0;
        for word in &self.words {
            count += u64::from(word.count_ones());
        }
        count
    }

    /// Returns the indices of the points at which the polynomial does not vanish, by rising number.
    pub fn non_vanishing_indices(&self, alloc: Global) -> Mem<Vec<usize>>
        ensures { IfOk result (λ indices. indices.items ≡ filled_places self.now) }
    {
        let mut out = Vec::new(alloc);
        for i in 0..self.size() {
            if self.get(i) {
                out.push(i as usize)?;
            }
        }
        Ok(out)
    }
}

/// Bitmaps are equal where they have as many points, and the same truth value at each.
impl PartialEq for VanishingPoints {
    ghost use Rattle.std.specs.Prelude.{◌≡◌, ◌↔◌, IsTrue};
    ghost use Rattle.std.specs.Cmp.Lexicographic.{pointwise, lists_per};
    ghost use Rattle.std.specs.Cmp.Rules.{comparing};
    ghost use Rattle.std.proofs.Common.{rules};
    ghost use mathlib.Core.Bool.{beq};

    ghost eq = { pointwise beq };

    ghost laws = { lists_per (Prim.search (comparing, rules)) };

    fn eq(&self, other: &Self) -> bool
        ensures value { result ≡ pointwise beq self.now other.now }
        ensures exact { IsTrue result ↔ (self.now ≡ other.now) }
    {
        self.lg_size == other.lg_size && self.words == other.words
    }
}

impl Eq for VanishingPoints {
    ghost use Rattle.std.specs.Cmp.Rules.{comparing};
    ghost use Rattle.std.proofs.Common.{rules};

    ghost laws = { Prim.search (comparing, rules) };
}

/// How many words hold 2^lg_size points.
fn words_for(lg_size: u32) -> usize
    requires { lg_size < 64 }
    ensures { result ≡ word_count lg_size }
{
    1 << lg_size.saturating_sub(6)
}

/// A word whose points are all set.
fn full_word(lg_size: u32) -> u64
    ensures { result + 1 ≡ 2 ^ points_a_word lg_size }
{
    u64::MAX >> (64 - (1u32 << lg_size.min(6)))
}
