//! Reading a value from the front of some bytes.
//!
//! `Encoding` has ghost members alone, and stands above `Read`: how a value is spelled is said
//! once, for readers and writers.

ghost use Rattle.std.specs.Prelude.{◌≡◌, ◌++◌, ℕ, List, Result, IfOk, OnErr};
ghost use Rattle.math_codec.specs.Encodings.{ReadsAgain, SpellsApart};
ghost use Rattle.math_codec.specs.Faults.{Fault, Reads, OnMemory};

use super::error::Error;
use std::alloc::Global;

/// A type whose values are spelled in bytes.
pub trait Encoding {
    /// The bytes that a value is spelled by.
    ghost spelling: { Self → List ℕ };

    /// The two have the same value, wherever they lie in memory.
    ghost alike: { Self → Self → Type 0 };
}

/// A type whose values can be read from the front of some bytes.
pub trait Read: Encoding + Sized {
    /// What a reader is told of the values that it may give, as the range of a list's length.
    type Cfg;

    /// The values that a configuration admits.
    ghost admits: { Self.Cfg → Self → Type 0 };

    /// The bytes that a read leaves, or the first fault from left to right.
    ghost scan: { Self.Cfg → List ℕ → Result (List ℕ) Fault };

    /// A read of these bytes takes memory before it meets a fault.
    ghost grows: { Self.Cfg → List ℕ → Type 0 };

    /// Reads one value from the front of `input`, and moves `input` to what follows it.
    ///
    /// It refuses with the first fault from left to right, or with `Memory` if memory runs out
    /// before that. It then leaves `input` where it was.
    ///
    /// ```
    /// let mut input: &[u8] = &[0, 0, 0, 0, 0, 0, 1, 44, 7];
    /// F::read_cfg(alloc, &mut input, &())?; // 300
    /// input; // [7]
    /// ```
    fn read_cfg(alloc: Global, input: &mut &[u8], cfg: &Self::Cfg) -> Result<Self, Error>
        ensures taken { IfOk result
            (λ v. admits cfg.now v × (input.old.now ≡ Self.spelling v ++ input.new.now)) }
        ensures stays { OnErr result (input.new ≡ input.old) }
        ensures memory { OnMemory result (grows cfg.now input.old.now) }
        ensures exact { Reads result input.new.now (scan cfg.now input.old.now) };

    /// A value that is spelled is read, whatever follows it.
    ghost again: { (cfg : Self.Cfg) → ReadsAgain Self.spelling (admits cfg) (scan cfg) };

    /// No spelling begins another, and each spells one value.
    ghost apart: { (cfg : Self.Cfg) → SpellsApart Self.spelling (admits cfg) Self.alike };
}
