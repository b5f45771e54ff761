//! Sums of products of two words, which may pass 128 bits.

ghost use Rattle.std.specs.Prelude.{◌≡◌, ◌+◌, ◌*◌, ◌<◌, ◌≤◌, ◌^◌};
ghost use Rattle.math_fields.specs.Elements.{residue};
ghost use Rattle.math_values.specs.Products.{total};

use math_fields::goldilocks::F;

/// 2^32.
const HALF_WORD: u64 = 0x1_0000_0000;

/// 2^64.
const WORD: u128 = 0x1_0000_0000_0000_0000;

/// The remainder of 2^64 by P: 2^32 - 1.
const REMAINDER_OF_2_64: u64 = 0xffff_ffff;

/// A sum of products of two words: sum + 2^128 carries.
#[derive(Clone, Copy)]
pub(crate) struct WideSum {
    sum: u128,
    carries: u64,
}

impl WideSum {
    /// The sum of no products.
    pub(crate) fn zero() -> WideSum
        ensures total { total result ≡ 0 }
        ensures carries { result.carries ≡ 0 }
    {
        WideSum { sum: 0, carries: 0 }
    }

    /// This sum and the number.
    fn plus(self, number: u128) -> WideSum
        requires { self.carries + 1 < 2 ^ 64 }
        ensures total { total result ≡ total self + number }
        ensures carries { result.carries ≤ self.carries + 1 }
    {
        let (sum, carry) = self.sum.overflowing_add(number);
        WideSum {
            sum,
            carries: self.carries + u64::from(carry),
        }
    }

    /// This sum and the product of a and b.
    pub(crate) fn plus_product(self, a: u64, b: u64) -> WideSum
        requires { self.carries + 1 < 2 ^ 64 }
        ensures total { total result ≡ total self + a * b }
        ensures carries { result.carries ≤ self.carries + 1 }
    {
        self.plus(u128::from(a) * u128::from(b))
    }

    /// Both sums.
    pub(crate) fn sum_with(self, other: WideSum) -> WideSum
        requires { self.carries + other.carries + 1 < 2 ^ 64 }
        ensures total { total result ≡ total self + total other }
        ensures carries { result.carries ≤ self.carries + other.carries + 1 }
    {
        let sum = self.plus(other.sum);
        WideSum {
            sum: sum.sum,
            carries: sum.carries + other.carries,
        }
    }

    /// The remainder by P.
    ///
    /// Write the sum as a + 2^64 b + 2^96 c with a below 2^64 and b below 2^32. Modulo P this is
    /// a - c + (2^32 - 1) b, and 2^128 is -2^32.
    pub(crate) fn remainder(self) -> F
        ensures { result ≡ residue (total self) }
    {
        let low = (self.sum % WORD) as u64;
        let high = (self.sum / WORD) as u64;
        let middle = F::from(high % HALF_WORD * REMAINDER_OF_2_64);
        let highest = high / HALF_WORD + self.carries % HALF_WORD * HALF_WORD;
        let most = F::from(low) - F::from(highest) + middle;
        if self.carries < HALF_WORD {
            return most;
        }
        most - F::from(REMAINDER_OF_2_64) * F::from(self.carries / HALF_WORD)
    }
}
