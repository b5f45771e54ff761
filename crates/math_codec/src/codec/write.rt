//! Writing a value at the end of some bytes.

ghost use Rattle.std.specs.Prelude.{◌≡◌, ◌<◌, ◌≤◌, ◌^◌, ◌++◌, ℕ, length, take, OnOk, OnErr};

use super::Mem;
use super::read::Encoding;
use std::alloc::Global;

/// A type whose values can be written.
pub trait Write: Encoding {
    /// The values that can be written: those where each length is below 2^32.
    ghost fits: { Self → Type 0 };

    /// Writes the bytes of the value at the end of `out`.
    ///
    /// If memory runs out, it refuses, and leaves the items of `out` as they were.
    ///
    /// ```
    /// let mut out = Vec::new(alloc);
    /// F::from(300).write(alloc, &mut out)?;
    /// out; // [0, 0, 0, 0, 0, 0, 1, 44]
    /// ```
    fn write(&self, alloc: Global, out: &mut Vec<u8>) -> Mem<()>
        requires { fits self.now }
        ensures ok { OnOk result (out.new.items ≡ out.old.items ++ Self.spelling self.now) }
        ensures err { OnErr result (out.new.items ≡ out.old.items) };
}

/// A type whose values know how many bytes they are written in.
pub trait EncodeSize: Encoding {
    /// Returns the number of bytes that the value is written in, which has to fit.
    ///
    /// ```
    /// F::from(300).encode_size(); // 8
    /// ```
    fn encode_size(&self) -> usize
        requires { length (Self.spelling self.now) < 2 ^ 64 }
        ensures { result ≡ length (Self.spelling self.now) };
}

/// A type whose values are all written in the same number of bytes.
pub trait FixedSize: Encoding {
    /// The number of bytes of each value.
    ghost SIZE: { ℕ };

    /// The number of bytes of each value.
    const SIZE: usize;

    /// Each value is written in that many bytes.
    ghost fixed: { (v : Self) → length (Self.spelling v) ≡ SIZE };
}

/// A type whose values are written in a limited number of bytes.
pub trait MaxEncodeSize: Encoding {
    /// The greatest number of bytes of a value.
    ghost MAX_ENCODE_SIZE: { ℕ };

    /// The greatest number of bytes of a value.
    const MAX_ENCODE_SIZE: usize;

    /// No value is written in more bytes.
    ghost bounded: { (v : Self) → length (Self.spelling v) ≤ MAX_ENCODE_SIZE };
}

/// Returns `written`, the answer of a write that began at `start`. If it was refused, this cuts
/// `out` back to there.
pub fn roll_back(_alloc: Global, written: Mem<()>, start: usize, out: &mut Vec<u8>) -> Mem<()>
    ensures answer { result ≡ written }
    ensures ok { OnOk written (out.new.items ≡ out.old.items) }
    ensures err { OnErr written (out.new.items ≡ take start out.old.items) }
{
    if written.is_err() {
        out.truncate(start);
    }
    written
}
