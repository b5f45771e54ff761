//! How many items a list may have.
//!
//! The fields of a range are public, since contracts name them: any pair of numbers is a range.

ghost use Rattle.std.specs.Prelude.{◌≡◌};
ghost use Rattle.math_codec.specs.Ranges.{in_range, nonzero};

/// The lengths from `low` to `high`, including both. There are none if `low` is above `high`.
#[derive(Clone, Copy, Debug)]
pub struct LengthRange {
    /// The least length.
    pub low: u32,
    /// The greatest length.
    pub high: u32,
}

impl LengthRange {
    /// Makes the range of the lengths from `low` to `high`. It has none if `low` is above `high`.
    ///
    /// ```
    /// LengthRange::new(2, 4).contains(4); // true
    /// ```
    pub fn new(low: u32, high: u32) -> LengthRange
        ensures low { result.low ≡ low }
        ensures high { result.high ≡ high }
    {
        LengthRange { low, high }
    }

    /// Makes the range of the length `n` alone.
    ///
    /// ```
    /// LengthRange::exact(3).contains(2); // false
    /// ```
    pub fn exact(n: u32) -> LengthRange
        ensures low { result.low ≡ n }
        ensures high { result.high ≡ n }
    {
        LengthRange { low: n, high: n }
    }

    /// Makes the range of the lengths from 0 to `n`.
    ///
    /// ```
    /// LengthRange::at_most(3).contains(0); // true
    /// ```
    pub fn at_most(n: u32) -> LengthRange
        ensures low { result.low ≡ 0 }
        ensures high { result.high ≡ n }
    {
        LengthRange { low: 0, high: n }
    }

    /// Returns the lengths of the range without 0.
    ///
    /// ```
    /// LengthRange::at_most(3).nonzero().contains(0); // false
    /// ```
    pub fn nonzero(self) -> LengthRange
        ensures { result ≡ nonzero self }
    {
        LengthRange {
            low: self.low.max(1),
            high: self.high,
        }
    }

    /// Returns whether the length `n` is in the range.
    pub fn contains(&self, n: u32) -> bool
        ensures { result ≡ in_range self.now n }
    {
        self.low <= n && n <= self.high
    }
}
