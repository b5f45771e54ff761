//! Quotients modulo 97.
//!
//! A quotient is a pair of numbers below 97, the second of which is not zero: it stands for the first
//! divided by the second modulo 97, which is a prime. Many pairs stand for one quotient, as 1 / 2 and
//! 2 / 4 do, so equality is not that of the parts: a / b equals c / d exactly where a d and c b have the
//! same remainder by 97. The operations are those of fractions, each part followed by its remainder,
//! and nothing is ever cancelled. None of them takes memory.

ghost use Rattle.std.specs.Prelude.{◌≡◌, ◌<◌, true};
ghost use Rattle.math_samples.specs.declared.quotients.TheConstants.{MODULUS};
ghost use Rattle.math_samples.specs.ByteSums.{remainder_of_sum};

use math_base::algebra::{
    Additive, CryptoGroup, Field, FieldNTT, HashToGroup, Mem, Multiplicative, Object, Random,
    RandomError, Ring,
};
use rand_core::{CryptoRng, Rng};
use std::alloc::Global;

/// The modulus, which is prime.
pub const MODULUS: u64 = 97;

/// The coset shift, which is no power of a root of unity modulo 97.
const SHIFT: u64 = 5;

/// The inverse of the coset shift modulo 97.
const SHIFT_INVERSE: u64 = 39;

/// A quotient modulo 97.
#[derive(Clone, Copy, Debug)]
pub struct Quotient {
    numerator: u64,
    denominator: u64,
    ghost numerator_below: { numerator < MODULUS },
    ghost denominator_below: { denominator < MODULUS },
    ghost denominator_above: { 0 < denominator },
}

impl Quotient {
    ghost use Rattle.math_samples.specs.Quotients.{numerator_of, denominator_of, over_both, whole, sum, negative, product, inverse, half};

    /// The quotient of two numbers below 97, of which the second is not zero.
    pub fn new(numerator: u64, denominator: u64) -> Quotient
        requires numerator_below { numerator < MODULUS }
        requires denominator_below { denominator < MODULUS }
        requires denominator_above { 0 < denominator }
        ensures { (numerator_of result ≡ numerator) × (denominator_of result ≡ denominator) }
    {
        Quotient {
            numerator,
            denominator,
        }
    }

    /// The numerator, from 0 to 96.
    pub fn numerator(&self) -> u64
        ensures value { result ≡ numerator_of self.now }
        ensures below { result < MODULUS }
    {
        self.numerator
    }

    /// The denominator, from 1 to 96.
    pub fn denominator(&self) -> u64
        ensures value { result ≡ denominator_of self.now }
        ensures below { result < MODULUS }
        ensures above { 0 < result }
    {
        self.denominator
    }

    /// The remainder of n by 97, over that of the product of both denominators.
    #[tactic(auto, using(crate::specs::ModulusLaws::product_above))]
    fn over_both(n: u64, q: Quotient, r: Quotient) -> Quotient
        ensures { result ≡ over_both n q r }
    {
        Quotient {
            numerator: n % MODULUS,
            denominator: q.denominator * r.denominator % MODULUS,
        }
    }

    fn sum(self, r: Quotient) -> Quotient
        ensures { result ≡ sum self r }
    {
        let n = self.numerator * r.denominator + r.numerator * self.denominator;
        Quotient::over_both(n, self, r)
    }

    fn negative(self) -> Quotient
        ensures { result ≡ negative self }
    {
        Quotient {
            numerator: (MODULUS - self.numerator) % MODULUS,
            denominator: self.denominator,
        }
    }

    fn product(self, r: Quotient) -> Quotient
        ensures { result ≡ product self r }
    {
        Quotient::over_both(self.numerator * r.numerator, self, r)
    }

    /// The remainder of a number by 97, over one.
    fn whole(n: u64) -> Quotient
        ensures { result ≡ whole n }
    {
        Quotient {
            numerator: n % MODULUS,
            denominator: 1,
        }
    }

    /// The fraction turned over, and zero for zero.
    fn inverse(self) -> Quotient
        ensures { result ≡ inverse self }
    {
        if self.numerator == 0 {
            Quotient::new(0, 1)
        } else {
            Quotient {
                numerator: self.denominator,
                denominator: self.numerator,
            }
        }
    }

    #[tactic(auto, using(crate::specs::ModulusLaws::product_above))]
    fn half(self) -> Quotient
        ensures { result ≡ half self }
    {
        Quotient {
            numerator: self.numerator,
            denominator: self.denominator * 2 % MODULUS,
        }
    }
}

impl Object for Quotient {
    ghost use Rattle.math_samples.specs.Quotients.{same};
    ghost use Rattle.math_samples.specs.QuotientLaws.{equality};

    ghost same = { same };

    ghost NEVER_REFUSES = { true };

    const NEVER_REFUSES: bool = true;

    fn clone(&self, _alloc: Global) -> Mem<Quotient> {
        Ok(*self)
    }

    fn equals(&self, _alloc: Global, other: &Quotient) -> Mem<bool> {
        let left = self.numerator * other.denominator;
        let right = other.numerator * self.denominator;
        Ok(left % MODULUS == right % MODULUS)
    }

    ghost equality = { equality };
}

impl Additive for Quotient {
    ghost use Rattle.math_samples.specs.Quotients.{whole, sum, negative};
    ghost use Rattle.math_samples.specs.QuotientLaws.{group};

    ghost zero = { whole 0 };

    ghost sum = { sum };

    ghost negative = { negative };

    fn zero(_alloc: Global) -> Mem<Quotient> {
        Ok(Quotient::new(0, 1))
    }

    fn add_assign(&mut self, _alloc: Global, rhs: &Quotient) -> Mem<()> {
        *self = self.sum(*rhs);
        Ok(())
    }

    fn sub_assign(&mut self, _alloc: Global, rhs: &Quotient) -> Mem<()> {
        *self = self.sum(rhs.negative());
        Ok(())
    }

    fn neg(self, _alloc: Global) -> Mem<Quotient> {
        Ok(self.negative())
    }

    ghost group = { group };
}

impl Multiplicative for Quotient {
    ghost use Rattle.math_samples.specs.Quotients.{product};
    ghost use Rattle.math_samples.specs.QuotientLaws.{commutes};

    ghost product = { product };

    fn mul_assign(&mut self, _alloc: Global, rhs: &Quotient) -> Mem<()> {
        *self = self.product(*rhs);
        Ok(())
    }

    ghost commutes = { commutes };
}

impl Ring for Quotient {
    ghost use Rattle.math_samples.specs.Quotients.{whole};
    ghost use Rattle.math_samples.specs.QuotientLaws.{ring};

    ghost one = { whole 1 };

    fn one(_alloc: Global) -> Mem<Quotient> {
        Ok(Quotient::new(1, 1))
    }

    ghost ring = { ring };
}

/// The inverse of a / b is b / a, where a is not zero.
impl Field for Quotient {
    ghost use Rattle.math_samples.specs.Quotients.{inverse};
    ghost use Rattle.math_samples.specs.QuotientLaws.{field};

    ghost inverse = { inverse };

    fn inv(&self, _alloc: Global) -> Mem<Quotient> {
        Ok(self.inverse())
    }

    ghost field = { field };
}

/// Since 96 is 3 times 2^5, the orders of the roots are 2^0 to 2^5, and the power 32 of each root is
/// one. That of the coset shift is not, so the shift is no power of a root. The half of a / b is
/// a / (2 b).
impl FieldNTT for Quotient {
    ghost use Rattle.math_samples.specs.Quotients.{whole, root_of, shift, half};
    ghost use Rattle.math_samples.specs.QuotientLaws.{roots_of_unity};

    ghost MAX_LG_ROOT_ORDER = { 5 };

    ghost root = { root_of };

    ghost shift = { whole shift };

    ghost half = { half };

    const MAX_LG_ROOT_ORDER: u8 = 5;

    fn root_of_unity(_alloc: Global, lg: u8) -> Mem<Option<Quotient>> {
        let root = match lg {
            0 => 1,
            1 => 96,
            2 => 22,
            3 => 64,
            4 => 8,
            5 => 28,
            _ => return Ok(None),
        };
        Ok(Some(Quotient::new(root, 1)))
    }

    fn coset_shift(_alloc: Global) -> Mem<Quotient> {
        Ok(Quotient::new(SHIFT, 1))
    }

    fn coset_shift_inv(_alloc: Global) -> Mem<Quotient> {
        Ok(Quotient::new(SHIFT_INVERSE, 1))
    }

    fn div_2(&self, _alloc: Global) -> Mem<Quotient> {
        Ok(self.half())
    }

    ghost roots = { roots_of_unity };
}

/// The group of sums, whose scalars are the quotients themselves; five generates it.
impl CryptoGroup for Quotient {
    ghost use Rattle.math_samples.specs.Quotients.{whole};

    type Scalar = Quotient;

    ghost generator = { whole 5 };

    fn generator(_alloc: Global) -> Mem<Quotient> {
        Ok(Quotient::new(5, 1))
    }
}

/// A separator and a message hash to the remainder by 97 of the sum of all their bytes, over one.
impl HashToGroup for Quotient {
    ghost use Rattle.math_samples.specs.Hashes.{hash};

    ghost hash = { hash };

    fn hash_to_group(_alloc: Global, domain_separator: &[u8], message: &[u8]) -> Mem<Quotient> {
        let total = remainder_of_sum(domain_separator) + remainder_of_sum(message);
        Ok(Quotient::new(total % MODULUS, 1))
    }
}

/// A sample is the remainder of the next word by 97, over one.
impl Random for Quotient {
    ghost use Rattle.math_samples.specs.Quotients.{sample_of};

    ghost sample = { sample_of };

    fn random<G: Rng + CryptoRng>(_alloc: Global, rng: &mut G) -> Result<Quotient, RandomError> {
        let word = rng.next_u64();
        Ok(Quotient::whole(word))
    }
}

/// The remainder by 97 of the sum of the bytes.
pub fn remainder_of_sum(bytes: &[u8]) -> u64
    ensures value { result ≡ remainder_of_sum bytes.now }
    ensures below { result < MODULUS }
{
    let mut total = 0;
    for byte in bytes {
        total = (total + u64::from(*byte)) % MODULUS;
    }
    total
}
