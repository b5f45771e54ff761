//! The Goldilocks field: the whole numbers below P = 2^64 - 2^32 + 1, with the operations of whole
//! numbers followed by the remainder by P.
//!
//! An element fits a word, and reduction is cheap: modulo P, 2^64 is 2^32 - 1 and 2^96 is -1. None
//! of the operations takes memory.
//!
//! `MODULUS` is P, also for code that compares words with it.

ghost use Rattle.std.specs.Prelude.{◌≡◌, ◌≢◌, ◌<◌, ◌≤◌, ◌+◌, ◌-◌, ◌*◌, ◌^◌, ◌%◌, ◌↔◌, true, refl, Some, None, IsSome, IfOk, IfErr, IfSome};
ghost use Rattle.std.specs.Int.{to_be_bytes, to_le_bytes, w64};
ghost use Rattle.math_numbers.specs.Goldilocks.{P};
ghost use Rattle.math_numbers.specs.PowersModulo.{power_mod};
ghost use Rattle.math_codec.specs.WordLaws.{word_bounded};
ghost use Rattle.math_fields.specs.Roots.{root, greatest_root, shift};
ghost use Rattle.math_base.specs.declared.algebra.RandomError.TheVariants.{TooManyWords};

mod columns;
mod lanes;
mod packing;
mod sixteen;

use math_base::algebra::{
    Additive, Field, FieldNTT, Mem, Multiplicative, Object, Random, RandomError, Ring,
};
use math_codec::codec::{EncodeSize, Encoding, Error, FixedSize, MaxEncodeSize, Read, Write};
pub use packing::{ElementsToWords, WordsToElements};
use rand_core::{CryptoRng, Rng};
use std::alloc::Global;
use std::fmt;
use std::ops::{Add, AddAssign, Mul, MulAssign, Neg, Sub, SubAssign};
use wide_machine::is_wide;

/// P, the modulus of the Goldilocks field: 2^64 - 2^32 + 1.
pub const MODULUS: u64 = 0xffff_ffff_0000_0001;

/// An element of the Goldilocks field: a number from 0 to P - 1.
///
/// ```
/// F::from(4) + F::from(6); // 10
/// F::from(1) - F::from(2); // 18446744069414584320
/// F::from(4) * F::from(6); // 24
/// F::from(MODULUS + 5); // 5
/// ```
#[derive(Clone, Copy, PartialEq, Eq)]
pub struct F {
    value: u64,
    ghost below: { value < P },
}

impl F {
    ghost use Rattle.math_fields.specs.Elements.{number};

    /// A root of unity of order 2^32.
    pub const ROOT_OF_UNITY: F = F {
        value: 0xee41_f532_0c4e_a145,
    };

    /// What is no power of any root of unity of order 2^lg: the coset shift.
    pub const NOT_ROOT_OF_UNITY: F = F {
        value: 0x79bc_2f50_acd7_4161,
    };

    /// The inverse of `NOT_ROOT_OF_UNITY`.
    pub const NOT_ROOT_OF_UNITY_INV: F = F {
        value: 0x1036_c402_3580_ce8d,
    };

    /// The remainder by P of a sum that is below 2 P, of which the first part may be P or more. The
    /// sum is below P exactly where a - (P - b) is below zero, so that one borrow decides.
    fn sum_of_words(a: u64, b: u64) -> F
        requires sum { a + b < P + P }
        requires second { b ≤ P }
        ensures { number result ≡ (a + b) % P }
    {
        let (difference, underflow) = a.overflowing_sub(MODULUS - b);
        if underflow {
            F {
                value: difference.wrapping_add(MODULUS),
            }
        } else {
            F { value: difference }
        }
    }

    /// A word, P or more perhaps, that is congruent to a - c.
    fn difference_of_words(a: u64, c: u64) -> u64
        requires { c < P }
        ensures { (result + c) % P ≡ a % P }
    {
        let (subtraction, underflow) = a.overflowing_sub(c);
        if underflow {
            subtraction.wrapping_add(MODULUS)
        } else {
            subtraction
        }
    }

    /// The remainder of x by P.
    ///
    /// Write x = c 2^96 + b 2^64 + a with a below 2^64 and b, c below 2^32. Modulo P this is
    /// (a - c) + b (2^32 - 1). A word that is congruent to a - c and the second part, which is at most
    /// 2^64 - 2^33 + 1, add up to less than 2 P.
    fn reduce_128(x: u128) -> F
        ensures { number result ≡ x % P }
    {
        let a = (x & 0xffff_ffff_ffff_ffff) as u64;
        let b = ((x >> 64) & 0xffff_ffff) as u64;
        let c = (x >> 96) as u64;
        F::sum_of_words(F::difference_of_words(a, c), (b << 32) - b)
    }

    /// The remainder of x + y, which may be 2^128 or more: 2^128 is 2^32 times 2^96.
    fn reduce_sum(x: u128, y: u128) -> F
        ensures { number result ≡ (x + y) % P }
    {
        let (sum, carry) = x.overflowing_add(y);
        let a = (sum & 0xffff_ffff_ffff_ffff) as u64;
        let b = ((sum >> 64) & 0xffff_ffff) as u64;
        let c = (sum >> 96) as u64 + (u64::from(carry) << 32);
        F::sum_of_words(F::difference_of_words(a, c), (b << 32) - b)
    }

    /// Returns a x + b y, reduced once.
    ///
    /// ```
    /// F::sum_of_products(F::from(2), F::from(3), F::from(4), F::from(5)); // 26
    /// ```
    pub fn sum_of_products(a: F, x: F, b: F, y: F) -> F
        ensures { number result ≡ (number a * number x + number b * number y) % P }
    {
        let first = u128::from(a.value) * u128::from(x.value);
        F::reduce_sum(first, u128::from(b.value) * u128::from(y.value))
    }

    /// The remainder of x by P.
    fn reduce_64(x: u64) -> F
        ensures { number result ≡ x % P }
    {
        let (subtraction, underflow) = x.overflowing_sub(MODULUS);
        if underflow {
            F { value: x }
        } else {
            F { value: subtraction }
        }
    }

    fn difference(self, b: F) -> F
        ensures { number result ≡ (number self + P - number b) % P }
    {
        let (subtraction, underflow) = self.value.overflowing_sub(b.value);
        if underflow {
            F {
                value: subtraction.wrapping_add(MODULUS),
            }
        } else {
            F { value: subtraction }
        }
    }

    /// The n-th power, by squaring: with n = 2 h + r, the n-th power of a is the h-th of its
    /// square, and once more a where r is one.
    fn power(self, n: u64) -> F
        ensures { number result ≡ power_mod P (number self) n }
    {
        let mut out = F::from(1);
        let mut base = self;
        let mut left = n;
        while left > 0 {
            if left % 2 == 1 {
                out = out * base;
            }
            base = base * base;
            left /= 2;
        }
        out
    }

    /// Returns the multiplicative inverse, and zero for zero.
    ///
    /// By Fermat's little theorem the power P - 1 of an element other than zero is one, so its
    /// power P - 2 is its inverse. The power P - 2 of zero is zero.
    ///
    /// ```
    /// F::from(2).inv() * F::from(6); // 3
    /// F::from(0).inv(); // 0
    /// ```
    pub fn inv(self) -> F
        ensures power { number result ≡ power_mod P (number self) (P - 2) }
        ensures inverts { number self ≢ 0 → number self * number result % P ≡ 1 }
        ensures zero { number self ≡ 0 → number result ≡ 0 }
    {
        self.power(MODULUS - 2)
    }

    /// Returns the half: the element whose double is this one.
    ///
    /// It halves an even number. To an odd one it first adds P, which is odd.
    ///
    /// ```
    /// F::from(6).div_2(); // 3
    /// ```
    pub fn div_2(self) -> F
        ensures { (number result + number result) % P ≡ number self }
    {
        if self.value & 1 == 0 {
            F {
                value: self.value >> 1,
            }
        } else {
            let (addition, carry) = self.value.overflowing_add(MODULUS);
            F {
                value: (u64::from(carry) << 63) | (addition >> 1),
            }
        }
    }

    /// Returns the product with 2^48, which is the root of unity of order four: a shift by 48 bits.
    ///
    /// ```
    /// F::from(3).times_two_to_the_48(); // 844424930131968
    /// ```
    pub fn times_two_to_the_48(self) -> F
        ensures { number result ≡ number self * 2 ^ 48 % P }
    {
        F::reduce_128(u128::from(self.value) << 48)
    }

    /// Returns the root of unity of order exactly 2^lg, or `None` for lg above 32.
    ///
    /// It is `ROOT_OF_UNITY` squared 32 - lg times.
    ///
    /// ```
    /// F::root_of_unity(1); // Some(18446744069414584320)
    /// F::root_of_unity(2); // Some(281474976710656)
    /// F::root_of_unity(33); // None
    /// ```
    pub fn root_of_unity(lg: u8) -> Option<F>
        ensures range { IsSome result ↔ (lg ≤ 32) }
        ensures value { IfSome result (λ r. number r ≡ root lg) }
    {
        if lg > 32 {
            return None;
        }
        let mut out = F::greatest_root();
        for _done in 0..32 - lg {
            out = out * out;
        }
        Some(out)
    }

    fn greatest_root() -> F
        ensures { number result ≡ greatest_root }
    {
        F::ROOT_OF_UNITY
    }

    /// Returns the number, which is below P.
    ///
    /// ```
    /// F::from(MODULUS + 5).number(); // 5
    /// ```
    pub fn number(self) -> u64
        ensures { result ≡ number self }
    {
        self.value
    }

    /// Returns the number as eight bytes, lowest first.
    ///
    /// ```
    /// F::from(258).to_le_bytes(); // [2, 1, 0, 0, 0, 0, 0, 0]
    /// ```
    pub fn to_le_bytes(&self) -> [u8; 8]
        ensures { result ≡ to_le_bytes w64 (number self.now) }
    {
        self.value.to_le_bytes()
    }
}

/// Sixteen upper-case hexadecimal digits.
impl fmt::Debug for F {
    fn fmt<W: fmt::Write>(&self, f: &mut fmt::Formatter<W>) -> fmt::Result {
        write!(f, "{:016X}", self.value)
    }
}

/// The remainder by P.
impl From<u64> for F {
    ghost use Rattle.math_fields.specs.Elements.{number};

    ghost from_gives = { λ n r. number r ≡ n % P };

    fn from(n: u64) -> F {
        F::reduce_64(n)
    }
}

impl Add for F {
    ghost use Rattle.math_fields.specs.Elements.{number};

    type Output = F;

    ghost add_gives = { λ a b r. number r ≡ (number a + number b) % P };

    fn add(self, b: F) -> F {
        F::sum_of_words(self.value, b.value)
    }
}

impl<'a> Add<&'a F> for F {
    ghost use Rattle.math_fields.specs.Elements.{number};

    type Output = F;

    ghost add_gives = { λ a b r. number r ≡ (number a + number b.now) % P };

    fn add(self, b: &'a F) -> F {
        self + *b
    }
}

impl<'a> AddAssign<&'a F> for F {
    ghost use Rattle.math_fields.specs.Elements.{number};

    ghost add_assign_gives = { λ a b r. number r ≡ (number a + number b.now) % P };

    fn add_assign(&mut self, b: &'a F) {
        *self = *self + b;
    }
}

impl Sub for F {
    ghost use Rattle.math_fields.specs.Elements.{number};

    type Output = F;

    ghost sub_gives = { λ a b r. number r ≡ (number a + P - number b) % P };

    fn sub(self, b: F) -> F {
        self.difference(b)
    }
}

impl<'a> Sub<&'a F> for F {
    ghost use Rattle.math_fields.specs.Elements.{number};

    type Output = F;

    ghost sub_gives = { λ a b r. number r ≡ (number a + P - number b.now) % P };

    fn sub(self, b: &'a F) -> F {
        self - *b
    }
}

impl<'a> SubAssign<&'a F> for F {
    ghost use Rattle.math_fields.specs.Elements.{number};

    ghost sub_assign_gives = { λ a b r. number r ≡ (number a + P - number b.now) % P };

    fn sub_assign(&mut self, b: &'a F) {
        *self = *self - b;
    }
}

impl Mul for F {
    ghost use Rattle.math_fields.specs.Elements.{number};

    type Output = F;

    ghost mul_gives = { λ a b r. number r ≡ number a * number b % P };

    fn mul(self, b: F) -> F {
        F::reduce_128(u128::from(self.value) * u128::from(b.value))
    }
}

impl<'a> Mul<&'a F> for F {
    ghost use Rattle.math_fields.specs.Elements.{number};

    type Output = F;

    ghost mul_gives = { λ a b r. number r ≡ number a * number b.now % P };

    fn mul(self, b: &'a F) -> F {
        self * *b
    }
}

impl<'a> MulAssign<&'a F> for F {
    ghost use Rattle.math_fields.specs.Elements.{number};

    ghost mul_assign_gives = { λ a b r. number r ≡ number a * number b.now % P };

    fn mul_assign(&mut self, b: &'a F) {
        *self = *self * b;
    }
}

impl Neg for F {
    ghost use Rattle.math_fields.specs.Elements.{number};

    type Output = F;

    ghost neg_gives = { λ a r. number r ≡ (P - number a) % P };

    fn neg(self) -> F {
        F { value: 0 }.difference(self)
    }
}

impl Object for F {
    ghost use Rattle.math_fields.specs.Elements.{same};
    ghost use Rattle.math_fields.specs.ElementLaws.{equality};

    ghost same = { same };

    ghost NEVER_REFUSES = { true };

    const NEVER_REFUSES: bool = true;

    fn clone(&self, _alloc: Global) -> Mem<F> {
        Ok(*self)
    }

    fn equals(&self, _alloc: Global, other: &F) -> Mem<bool> {
        Ok(self.value == other.value)
    }

    ghost equality = { equality };
}

impl Additive for F {
    ghost use Rattle.math_fields.specs.Elements.{residue, sum, negative};
    ghost use Rattle.math_fields.specs.ElementLaws.{group};

    ghost zero = { residue 0 };

    ghost sum = { sum };

    ghost negative = { negative };

    fn zero(_alloc: Global) -> Mem<F> {
        Ok(F { value: 0 })
    }

    fn add_assign(&mut self, _alloc: Global, rhs: &F) -> Mem<()> {
        *self = *self + *rhs;
        Ok(())
    }

    fn sub_assign(&mut self, _alloc: Global, rhs: &F) -> Mem<()> {
        *self = *self - *rhs;
        Ok(())
    }

    fn neg(self, _alloc: Global) -> Mem<F> {
        Ok(-self)
    }

    ghost group = { group };
}

impl Multiplicative for F {
    ghost use Rattle.math_fields.specs.Elements.{product};
    ghost use Rattle.math_fields.specs.ElementLaws.{commutes};

    ghost product = { product };

    fn mul_assign(&mut self, _alloc: Global, rhs: &F) -> Mem<()> {
        *self = *self * *rhs;
        Ok(())
    }

    ghost commutes = { commutes };
}

impl Ring for F {
    ghost use Rattle.math_fields.specs.Elements.{residue};
    ghost use Rattle.math_fields.specs.ElementLaws.{ring};

    ghost one = { residue 1 };

    fn one(_alloc: Global) -> Mem<F> {
        Ok(F { value: 1 })
    }

    ghost ring = { ring };
}

impl Field for F {
    ghost use Rattle.math_fields.specs.Elements.{inverse};
    ghost use Rattle.math_fields.specs.ElementRootLaws.{field};

    ghost inverse = { inverse };

    fn inv(&self, _alloc: Global) -> Mem<F> {
        Ok(F::inv(*self))
    }

    ghost field = { field };
}

impl FieldNTT for F {
    ghost use Rattle.math_fields.specs.Elements.{root_of, shift_of, half_of};
    ghost use Rattle.math_fields.specs.ElementRootLaws.{roots};

    ghost MAX_LG_ROOT_ORDER = { 32 };

    ghost root = { root_of };

    ghost shift = { shift_of };

    ghost half = { half_of };

    const MAX_LG_ROOT_ORDER: u8 = 32;

    fn root_of_unity(_alloc: Global, lg: u8) -> Mem<Option<F>> {
        Ok(F::root_of_unity(lg))
    }

    fn coset_shift(_alloc: Global) -> Mem<F> {
        Ok(F::NOT_ROOT_OF_UNITY)
    }

    fn coset_shift_inv(_alloc: Global) -> Mem<F> {
        Ok(F::NOT_ROOT_OF_UNITY_INV)
    }

    fn div_2(&self, _alloc: Global) -> Mem<F> {
        Ok(F::div_2(*self))
    }

    /// The root of order four is 2^48, and its inverse the negative of that.
    fn times_root_of_four(&mut self, _alloc: Global, rhs: &F) -> Mem<()> {
        let shifted = self.times_two_to_the_48();
        *self = if rhs.value == 1 << 48 {
            shifted
        } else {
            -shifted
        };
        Ok(())
    }

    /// Both products are reduced at once.
    fn sum_of_products(_alloc: Global, a: &F, x: &F, b: &F, y: &F) -> Mem<F> {
        Ok(F::sum_of_products(*a, *x, *b, *y))
    }

    /// While eight columns are left, and vectors are worth their while, it takes eight at once.
    fn combine_first_columns(
        _alloc: Global,
        rows: &mut [F],
        cols: usize,
        w: &F,
        forward: bool,
    ) -> Mem<usize> {
        if !is_wide() {
            return Ok(0);
        }
        if forward {
            return Ok(columns::combine_columns::<true>(rows, cols, *w));
        }
        Ok(columns::combine_columns::<false>(rows, cols, *w))
    }

    /// While eight columns are left, and vectors are worth their while, it takes eight at once.
    fn turn_first_columns(
        _alloc: Global,
        rows: &mut [F],
        cols: usize,
        e: &F,
        _f: &F,
        g: &F,
        forward: bool,
    ) -> Mem<usize> {
        if !is_wide() {
            return Ok(0);
        }
        if forward {
            return Ok(columns::turn_columns::<true>(rows, cols, *e, *g));
        }
        Ok(columns::turn_columns::<false>(rows, cols, *e, *g))
    }

    /// It takes one column, where vectors are worth their while.
    fn turn_sixteen_rows(
        rows: &mut [F],
        cols: usize,
        roots: &[F],
        place: usize,
        forward: bool,
    ) -> bool {
        if !is_wide() {
            return false;
        }
        if cols != 1 {
            return false;
        }
        if forward {
            sixteen::turn_sixteen::<true>(rows, roots, place);
            return true;
        }
        sixteen::turn_sixteen::<false>(rows, roots, place);
        true
    }

    ghost roots = { roots };
}

impl Random for F {
    ghost use Rattle.math_fields.specs.Elements.{sample_of};

    ghost sample = { sample_of };

    /// Returns the first of at most 64 words of the source that is below P, or `TooManyWords` if
    /// none of 64 is.
    ///
    /// It takes from the source exactly the words that it looks at.
    fn random<G: Rng + CryptoRng>(_alloc: Global, rng: &mut G) -> Result<F, RandomError>
        ensures sampled { IfOk result
            (λ a. sample_of (G.stream rng.old) ≡ (Some a, G.stream rng.new)) }
        ensures refused { IfErr result (λ error.
            (error ≡ TooManyWords) × (sample_of (G.stream rng.old) ≡ (None, G.stream rng.new))) }
    {
        for _looked_at in 0..64u32 {
            let word = rng.next_u64();
            if word < MODULUS {
                return Ok(F { value: word });
            }
        }
        Err(RandomError::TooManyWords)
    }
}

/// The number as a word: eight bytes, highest first.
impl Encoding for F {
    ghost use Rattle.math_fields.specs.Elements.{number, same};

    ghost spelling = { λ a. to_be_bytes w64 (number a) };

    ghost alike = { same };
}

impl Read for F {
    ghost use Rattle.math_fields.specs.Elements.{number};
    ghost use Rattle.math_fields.specs.ElementEncoding.{scan_element};
    ghost use Rattle.math_fields.specs.ElementEncodingLaws.{element_again, element_apart};

    type Cfg = ();

    ghost admits = { λ _ a. number a < P };

    ghost scan = { λ _. scan_element };

    ghost grows = { λ _ _. ⊥ };

    /// Reads an element. A word of P or more is `Invalid("F", "out of range")`.
    #[tactic(auto, unfolding(crate::specs::ElementEncoding::scan_element))]
    fn read_cfg(alloc: Global, input: &mut &[u8], _cfg: &()) -> Result<F, Error> {
        let mut rest = *input;
        let value = u64::read_cfg(alloc, &mut rest, &())?;
        if value >= MODULUS {
            return Err(Error::Invalid("F", "out of range"));
        }
        *input = rest;
        Ok(F { value })
    }

    ghost again = { λ _ a rest h. element_again (number a) rest h };

    ghost apart = { λ _ a b x y h k e. element_apart (number a) (number b) x y h k e };
}

impl Write for F {
    ghost fits = { λ _. Unit {0} };

    /// Writes the number as a word: eight bytes, highest first.
    fn write(&self, alloc: Global, out: &mut Vec<u8>) -> Mem<()> {
        self.value.write(alloc, out)
    }
}

impl EncodeSize for F {
    /// An element is written in eight bytes.
    fn encode_size(&self) -> usize {
        Self::SIZE
    }
}

impl FixedSize for F {
    ghost SIZE = { 8 };

    const SIZE: usize = 8;

    ghost fixed = { λ _. refl };
}

impl MaxEncodeSize for F {
    ghost use Rattle.math_fields.specs.Elements.{number};

    ghost MAX_ENCODE_SIZE = { 8 };

    const MAX_ENCODE_SIZE: usize = 8;

    ghost bounded = { λ a. word_bounded (number a) };
}
