//! Algebra by traits.
//!
//! A type that implements a trait of this module names, as ghost members, total definitions of the
//! operations that the trait is about, and its own equality `same`. The calls may be refused for
//! want of memory; where they answer `Ok`, the answer is the same as the definition's value. The
//! laws of a trait speak of the definitions alone, up to `same`, and each implementation proves
//! them. So code over these traits rests on the laws and on nothing else of a type.
//!
//! A field with roots of unity asks for the exact order of each root, and for a shift that is not
//! zero: minus one would keep a weaker law at order four, and a zero shift would be no power of a
//! root either. `Random` has a ghost member `sample`, what a source gives. So contracts promise
//! that a polynomial has its samples in order, and is refused only if one of them is.
//!
//! A type may combine columns of cells in a call of its own. The loop over the columns that are
//! left is no default body, since that could not call functions that are bound by the trait itself.

ghost use Rattle.std.specs.Prelude.{◌≡◌, ◌↔◌, ◌⊎◌, ◌<◌, ◌≤◌, ℕ, List, [], Option, Some, None, Bool, IsTrue, IsFalse, IsSome, IsOk, IfOk, IfErr, IfSome, OnOk, OnErr, alloc_error, ◌+◌, ◌*◌, length, if◌then◌else◌};
ghost use Rattle.std.specs.Iterator.{YieldsThen};
ghost use Rattle.rand_core.specs.Stream.{Stream, fill_bytes};
ghost use Rattle.math_theory.specs.Laws.{IsEquality, IsMonoid, IsGroup, IsProduct, IsRing, IsField, IsModule};
ghost use Rattle.math_theory.specs.ModuleLaws.{ring_is_module};
ghost use Rattle.math_theory.specs.Powers.{power, multiple};
ghost use Rattle.math_theory.specs.RootLaws.{HasRootsOfUnity};
ghost use Rattle.math_theory.specs.Sums.{number_of_limbs, weighted_sum};
ghost use Rattle.math_base.specs.declared.algebra.RandomError.TheVariants.{Memory, TooManyWords};
ghost use Rattle.math_base.specs.Progressions.{AreGeometric};
ghost use Rattle.math_base.specs.Columns.{AreCombinedBelow, AreOddEntries, AreSixteenTurned, AreTurnedBelow};

mod progression;

pub use progression::Powers;
use rand_core::{CryptoRng, Rng};
use std::alloc::{AllocError, AllocFailed, Global};
use std::fmt::Debug;
use thiserror::Error;

/// What a call answers that fails only if memory runs out. `math_codec`, which stands on nothing,
/// has the same.
pub type Mem<T> = Result<T, AllocError>;

/// A value that can be cloned and compared by its type's own equality.
pub trait Object: Sized + Debug + Drop {
    /// The type's own equality.
    ghost same: { Self → Self → Type 0 };

    ghost NEVER_REFUSES: { Bool };

    /// Whether `clone`, `equals` and each call of `Additive`, `Multiplicative`, `Ring`, `Field`,
    /// `FieldNTT`, `Space` and `CryptoGroup` on this type answers `Ok`.
    const NEVER_REFUSES: bool;

    /// Returns a value that is the same as this one.
    ///
    /// ```
    /// let p = Poly::from_coefficients(vec![in alloc; F::from(4), F::from(6)]?);
    /// p.clone(alloc)?; // Poly(4 + 6 X^1)
    /// ```
    fn clone(&self, alloc: Global) -> Mem<Self>
        ensures ok { IfOk result (λ copy. same copy self.now) }
        ensures never { IsTrue NEVER_REFUSES → IsOk result };

    /// Returns whether both are the same.
    ///
    /// ```
    /// F::from(4).equals(alloc, &F::from(6))?; // false
    /// ```
    fn equals(&self, alloc: Global, other: &Self) -> Mem<bool>
        ensures ok { IfOk result (λ answer. IsTrue answer ↔ same self.now other.now) }
        ensures never { IsTrue NEVER_REFUSES → IsOk result };

    /// `same` is an equivalence.
    ghost equality: { IsEquality same };
}

/// A commutative group, written as a sum.
pub trait Additive: Object {
    /// What a sum does not change.
    ghost zero: { Self };

    ghost sum: { Self → Self → Self };

    /// What gives zero with the value.
    ghost negative: { Self → Self };

    /// Returns zero.
    ///
    /// ```
    /// F::zero(alloc)?; // 0
    /// ```
    fn zero(alloc: Global) -> Mem<Self>
        ensures ok { IfOk result (λ answer. Self.same answer zero) }
        ensures never { IsTrue Self.NEVER_REFUSES → IsOk result };

    /// Adds `rhs` to this value. If it is refused, the value stays as it was.
    ///
    /// ```
    /// let mut x = F::from(4);
    /// x.add_assign(alloc, &F::from(6))?;
    /// x; // 10
    /// ```
    fn add_assign(&mut self, alloc: Global, rhs: &Self) -> Mem<()>
        ensures ok { OnOk result (Self.same self.new (sum self.old rhs.now)) }
        ensures err { OnErr result (self.new ≡ self.old) }
        ensures never { IsTrue Self.NEVER_REFUSES → IsOk result };

    /// Subtracts `rhs` from this value. If it is refused, the value stays as it was.
    ///
    /// ```
    /// let mut x = F::from(6);
    /// x.sub_assign(alloc, &F::from(4))?;
    /// x; // 2
    /// ```
    fn sub_assign(&mut self, alloc: Global, rhs: &Self) -> Mem<()>
        ensures ok { OnOk result (Self.same self.new (sum self.old (negative rhs.now))) }
        ensures err { OnErr result (self.new ≡ self.old) }
        ensures never { IsTrue Self.NEVER_REFUSES → IsOk result };

    /// Returns the negative.
    ///
    /// ```
    /// F::from(1).neg(alloc)?; // 18446744069414584320
    /// ```
    fn neg(self, alloc: Global) -> Mem<Self>
        ensures ok { IfOk result (λ answer. Self.same answer (negative self)) }
        ensures never { IsTrue Self.NEVER_REFUSES → IsOk result };

    /// Returns the sum.
    ///
    /// ```
    /// F::from(4).add(alloc, &F::from(6))?; // 10
    /// ```
    fn add(self, alloc: Global, rhs: &Self) -> Mem<Self>
        ensures ok { IfOk result (λ answer. Self.same answer (sum self rhs.now)) }
        ensures never { IsTrue Self.NEVER_REFUSES → IsOk result }
    {
        let mut out = self;
        out.add_assign(alloc, rhs)?;
        Ok(out)
    }

    /// Returns the difference.
    ///
    /// ```
    /// F::from(6).sub(alloc, &F::from(4))?; // 2
    /// ```
    fn sub(self, alloc: Global, rhs: &Self) -> Mem<Self>
        ensures ok { IfOk result (λ answer. Self.same answer (sum self (negative rhs.now))) }
        ensures never { IsTrue Self.NEVER_REFUSES → IsOk result }
    {
        let mut out = self;
        out.sub_assign(alloc, rhs)?;
        Ok(out)
    }

    /// Adds the value to itself. If it is refused, the value stays as it was.
    ///
    /// ```
    /// let mut x = F::from(4);
    /// x.double(alloc)?;
    /// x; // 8
    /// ```
    fn double(&mut self, alloc: Global) -> Mem<()>
        ensures ok { OnOk result (Self.same self.new (sum self.old self.old)) }
        ensures err { OnErr result (self.new ≡ self.old) }
        ensures never { IsTrue Self.NEVER_REFUSES → IsOk result }
    {
        let copy = self.clone(alloc)?;
        self.add_assign(alloc, &copy)?;
        Ok(())
    }

    /// Returns the n-fold sum. The limbs write the number n, the lowest limb first; no limbs write
    /// 0.
    ///
    /// ```
    /// F::from(3).scale(alloc, &[4])?; // 12
    /// ```
    fn scale(&self, alloc: Global, bits_le: &[u64]) -> Mem<Self>
        ensures ok { IfOk result (λ answer.
            Self.same answer (multiple zero sum self.now (number_of_limbs bits_le.now))) }
        ensures never { IsTrue Self.NEVER_REFUSES → IsOk result }
    {
        let start = Self::zero(alloc)?;
        power_by_bits(
            start,
            self,
            bits_le,
            |a: &mut Self| a.double(alloc),
            |a: &mut Self, b: &Self| a.add_assign(alloc, b),
        )
    }

    /// A commutative group, each of whose operations respects `same`.
    ghost group: { IsGroup Self.same zero sum negative };
}

/// A type with a commutative product.
pub trait Multiplicative: Object {
    ghost product: { Self → Self → Self };

    /// Multiplies this value by `rhs`. If it is refused, the value stays as it was.
    ///
    /// ```
    /// let mut x = F::from(4);
    /// x.mul_assign(alloc, &F::from(6))?;
    /// x; // 24
    /// ```
    fn mul_assign(&mut self, alloc: Global, rhs: &Self) -> Mem<()>
        ensures ok { OnOk result (Self.same self.new (product self.old rhs.now)) }
        ensures err { OnErr result (self.new ≡ self.old) }
        ensures never { IsTrue Self.NEVER_REFUSES → IsOk result };

    /// Returns the product.
    ///
    /// ```
    /// F::from(4).mul(alloc, &F::from(6))?; // 24
    /// ```
    fn mul(self, alloc: Global, rhs: &Self) -> Mem<Self>
        ensures ok { IfOk result (λ answer. Self.same answer (product self rhs.now)) }
        ensures never { IsTrue Self.NEVER_REFUSES → IsOk result }
    {
        let mut out = self;
        out.mul_assign(alloc, rhs)?;
        Ok(out)
    }

    /// Multiplies the value by itself. If it is refused, the value stays as it was.
    ///
    /// ```
    /// let mut x = F::from(4);
    /// x.square(alloc)?;
    /// x; // 16
    /// ```
    fn square(&mut self, alloc: Global) -> Mem<()>
        ensures ok { OnOk result (Self.same self.new (product self.old self.old)) }
        ensures err { OnErr result (self.new ≡ self.old) }
        ensures never { IsTrue Self.NEVER_REFUSES → IsOk result }
    {
        let copy = self.clone(alloc)?;
        self.mul_assign(alloc, &copy)?;
        Ok(())
    }

    /// The product is commutative and associative, and respects `same`.
    ghost commutes: { IsProduct Self.same product };
}

/// A commutative ring with one.
pub trait Ring: Additive + Multiplicative {
    /// What a product does not change.
    ghost one: { Self };

    /// Returns one.
    ///
    /// ```
    /// F::one(alloc)?; // 1
    /// ```
    fn one(alloc: Global) -> Mem<Self>
        ensures ok { IfOk result (λ answer. Self.same answer one) }
        ensures never { IsTrue Self.NEVER_REFUSES → IsOk result };

    /// Returns the n-fold product. The limbs write the number n, the lowest limb first; no limbs
    /// write 0.
    ///
    /// ```
    /// F::from(3).exp(alloc, &[4])?; // 81
    /// ```
    fn exp(&self, alloc: Global, bits_le: &[u64]) -> Mem<Self>
        ensures ok { IfOk result (λ answer.
            Self.same answer (power one Self.product self.now (number_of_limbs bits_le.now))) }
        ensures never { IsTrue Self.NEVER_REFUSES → IsOk result }
    {
        let start = Self::one(alloc)?;
        power_by_bits(
            start,
            self,
            bits_le,
            |a: &mut Self| a.square(alloc),
            |a: &mut Self, b: &Self| a.mul_assign(alloc, b),
        )
    }

    /// One is the identity of the product, which distributes over sums.
    ghost ring: { IsRing Self.same Self.sum Self.product one };
}

/// A field.
pub trait Field: Ring {
    /// What gives one with the value, where that is not zero; zero for zero.
    ghost inverse: { Self → Self };

    /// Returns the multiplicative inverse, and zero for zero.
    ///
    /// ```
    /// let half = Field::inv(&F::from(2), alloc)?;
    /// half.mul(alloc, &F::from(6))?; // 3
    /// ```
    fn inv(&self, alloc: Global) -> Mem<Self>
        ensures ok { IfOk result (λ answer. Self.same answer (inverse self.now)) }
        ensures never { IsTrue Self.NEVER_REFUSES → IsOk result };

    /// One is not zero, the inverse of zero is zero, and any other value times its inverse is one.
    ghost field: { IsField Self.same Self.zero Self.product Self.one inverse };
}

/// A field with roots of unity, over which number theoretic transforms can be done.
pub trait FieldNTT: Field {
    ghost MAX_LG_ROOT_ORDER: { ℕ };

    /// The root of unity of order 2^lg, where lg is at most `MAX_LG_ROOT_ORDER`.
    ghost root: { ℕ → Self };

    /// What shifts a domain to a coset that does not meet it.
    ghost shift: { Self };

    /// What is the value, twice.
    ghost half: { Self → Self };

    /// The greatest lg for which there is a root of unity of order 2^lg.
    const MAX_LG_ROOT_ORDER: u8;

    /// Returns the root of unity of order exactly 2^lg, or `None` exactly if lg is above
    /// `MAX_LG_ROOT_ORDER`.
    ///
    /// ```
    /// <F as FieldNTT>::root_of_unity(alloc, 1)?; // Some(18446744069414584320)
    /// <F as FieldNTT>::root_of_unity(alloc, 33)?; // None
    /// ```
    fn root_of_unity(alloc: Global, lg: u8) -> Mem<Option<Self>>
        ensures range { IfOk result (λ answer. IsSome answer ↔ (lg ≤ MAX_LG_ROOT_ORDER)) }
        ensures ok { IfOk result (λ answer. IfSome answer (λ r. Self.same r (root lg))) }
        ensures never { IsTrue Self.NEVER_REFUSES → IsOk result };

    /// Returns a value that is no power of any of the roots.
    ///
    /// ```
    /// let shift = F::coset_shift(alloc)?;
    /// shift.exp(alloc, &[1 << 32])?.equals(alloc, &F::from(1))?; // false
    /// ```
    fn coset_shift(alloc: Global) -> Mem<Self>
        ensures ok { IfOk result (λ answer. Self.same answer shift) }
        ensures never { IsTrue Self.NEVER_REFUSES → IsOk result };

    /// Returns the inverse of the coset shift.
    ///
    /// ```
    /// F::coset_shift_inv(alloc)?.mul(alloc, &F::coset_shift(alloc)?)?; // 1
    /// ```
    fn coset_shift_inv(alloc: Global) -> Mem<Self>
        ensures ok { IfOk result (λ answer. Self.same answer (Self.inverse shift)) }
        ensures never { IsTrue Self.NEVER_REFUSES → IsOk result }
    {
        let shift = Self::coset_shift(alloc)?;
        let out = shift.inv(alloc)?;
        Ok(out)
    }

    /// Returns the half of the value.
    ///
    /// Two is not zero, since the half of one times two is one. So the half is the value times the
    /// inverse of two.
    ///
    /// ```
    /// FieldNTT::div_2(&F::from(6), alloc)?; // 3
    /// ```
    fn div_2(&self, alloc: Global) -> Mem<Self>
        ensures ok { IfOk result (λ answer. Self.same answer (half self.now)) }
        ensures never { IsTrue Self.NEVER_REFUSES → IsOk result }
    {
        let mut two = Self::one(alloc)?;
        two.double(alloc)?;
        let mut out = two.inv(alloc)?;
        out.mul_assign(alloc, self)?;
        Ok(out)
    }

    /// Multiplies this value by `rhs`, which is the root of order four or its inverse. Where it is
    /// refused, the value is as it was.
    ///
    /// That is a product; a type may do it at less cost.
    ///
    /// ```
    /// let mut x = F::from(3);
    /// x.times_root_of_four(alloc, &F::from(1 << 48))?;
    /// x; // 844424930131968
    /// ```
    fn times_root_of_four(&mut self, alloc: Global, rhs: &Self) -> Mem<()>
        requires order { 2 ≤ MAX_LG_ROOT_ORDER }
        requires root { Self.same rhs.now (root 2) ⊎ Self.same rhs.now (Self.inverse (root 2)) }
        ensures ok { OnOk result (Self.same self.new (Self.product self.old rhs.now)) }
        ensures err { OnErr result (self.new ≡ self.old) }
        ensures never { IsTrue Self.NEVER_REFUSES → IsOk result }
    {
        self.mul_assign(alloc, rhs)?;
        Ok(())
    }

    /// Returns a x + b y.
    ///
    /// That is two products and their sum; a type may do it at less cost.
    ///
    /// ```
    /// let (two, five) = (F::from(2), F::from(5));
    /// <F as FieldNTT>::sum_of_products(alloc, &two, &F::from(3), &F::from(4), &five)?; // 26
    /// ```
    fn sum_of_products(alloc: Global, a: &Self, x: &Self, b: &Self, y: &Self) -> Mem<Self>
        ensures ok { IfOk result (λ answer. Self.same answer
            (Self.sum (Self.product a.now x.now) (Self.product b.now y.now))) }
        ensures never { IsTrue Self.NEVER_REFUSES → IsOk result }
    {
        let mut out = a.clone(alloc)?;
        out.mul_assign(alloc, x)?;
        let mut second = b.clone(alloc)?;
        second.mul_assign(alloc, y)?;
        out.add_assign(alloc, &second)?;
        Ok(out)
    }

    /// Combines the first columns of two rows of `cols` cells, which follow one another, by one
    /// weight, and returns how many columns these are. The others stay as they were.
    ///
    /// Forward the cells a and b of a column become a + b w and a - b w, else a + b and (a - b) w.
    ///
    /// It is for types that combine several columns at once in less time than one after the other.
    /// Such a type takes as many columns as it does so, and the caller takes the others. By default
    /// no column is taken. Where the call is refused, the cells have some values.
    ///
    /// ```
    /// let mut cells = [F::from(4), F::from(6)];
    /// F::combine_first_columns(alloc, &mut cells, 1, &F::from(2), true)?; // 0
    /// ```
    fn combine_first_columns(
        alloc: Global,
        rows: &mut [Self],
        cols: usize,
        w: &Self,
        forward: bool,
    ) -> Mem<usize>
        requires size { length rows.old ≡ 2 * cols }
        ensures within { IfOk result (λ n. n ≤ cols) }
        ensures combined { IfOk result
            (λ n. AreCombinedBelow Self.Ring forward w.now cols n rows.old rows.new) }
        ensures never { IsTrue Self.NEVER_REFUSES → IsOk result }
    {
        Ok(0)
    }

    /// Turns the first columns of four rows of `cols` cells, which follow one another, by two levels
    /// at once, and returns how many columns these are. The others stay as they were.
    ///
    /// Forward the cells a, b, c and d of a column become (a + c g) + (b + d g) e,
    /// (a + c g) - (b + d g) e, (a - c g) + (b - d g) f and (a - c g) - (b - d g) f, where f is e
    /// times the root of order four. Else they become (a + b) + (c + d), (a - b) e + (c - d) f,
    /// ((a + b) - (c + d)) g and ((a - b) e - (c - d) f) g, where f is e times its inverse.
    ///
    /// It is for such types as `combine_first_columns`, and does as that call does.
    ///
    /// ```
    /// let mut cells = [F::from(4), F::from(6), F::from(8), F::from(9)];
    /// let one = F::from(1);
    /// let root = F::from(1 << 48);
    /// F::turn_first_columns(alloc, &mut cells, 1, &one, &root, &one, true)?; // 0
    /// ```
    fn turn_first_columns(
        alloc: Global,
        rows: &mut [Self],
        cols: usize,
        e: &Self,
        f: &Self,
        g: &Self,
        forward: bool,
    ) -> Mem<usize>
        requires order { 2 ≤ MAX_LG_ROOT_ORDER }
        requires odd { Self.same f.now
            (Self.product e.now (if forward then root 2 else Self.inverse (root 2))) }
        requires size { length rows.old ≡ 4 * cols }
        ensures within { IfOk result (λ n. n ≤ cols) }
        ensures turned { IfOk result (λ n.
            AreTurnedBelow Self.Ring forward e.now f.now g.now cols n rows.old rows.new) }
        ensures never { IsTrue Self.NEVER_REFUSES → IsOk result }
    {
        Ok(0)
    }

    /// Turns sixteen rows of `cols` cells, which follow one another, by four levels at once, and
    /// returns whether it did. If not, the cells stay as they were.
    ///
    /// The weights are entries of a tree of square roots. Four rows are turned by entry p as
    /// `turn_first_columns` turns them: entries 2 p and 2 p + 1 are e and f, and entry p is g.
    /// Forward the sixteen rows are turned as four rows of 4 `cols` cells, by the entry at the
    /// place. Then each of the four is turned as four rows of `cols` cells: the first by entry
    /// 4 `place`, the others by the entries that follow. On the way back each of the four is turned
    /// first, and all of them in the end.
    ///
    /// It is for such types as `combine_first_columns`. By default no cell is turned.
    ///
    /// ```
    /// let mut rows = [F::from(4); 32];
    /// let roots = [F::from(0); 16];
    /// F::turn_sixteen_rows(&mut rows, 2, &roots, 1, true); // false
    /// ```
    fn turn_sixteen_rows(
        rows: &mut [Self],
        cols: usize,
        roots: &[Self],
        place: usize,
        forward: bool,
    ) -> bool
        requires order { 2 ≤ MAX_LG_ROOT_ORDER }
        requires odd { AreOddEntries Self.Ring (if forward then root 2 else Self.inverse (root 2))
            roots.now }
        requires size { length rows.old ≡ 16 * cols }
        requires some { 1 ≤ place }
        requires inside { 8 * place + 8 ≤ length roots.now }
        ensures turned { IsTrue result
            → AreSixteenTurned Self.Ring forward roots.now place cols rows.old rows.new }
        ensures kept { IsFalse result → rows.new ≡ rows.old }
    {
        false
    }

    /// The order of each root is exactly 2^lg, each is the square of the next, the shift is no
    /// power of any of them, and a half twice is the value.
    ghost roots: { HasRootsOfUnity Self.same Self.zero Self.sum Self.product Self.one
        MAX_LG_ROOT_ORDER root shift half };
}

/// A module over a ring, whose elements are scaled from the right.
pub trait Space<R: Ring>: Additive {
    ghost scaling: { Self → R → Self };

    /// Scales this value by `r`. If it is refused, the value stays as it was.
    ///
    /// ```
    /// let mut p = Poly::from_coefficients(vec![in alloc; F::from(4), F::from(6)]?);
    /// p.scale_assign(alloc, &F::from(2))?;
    /// p; // Poly(8 + 12 X^1)
    /// ```
    fn scale_assign(&mut self, alloc: Global, r: &R) -> Mem<()>
        ensures ok { OnOk result (Self.same self.new (scaling self.old r.now)) }
        ensures err { OnErr result (self.new ≡ self.old) }
        ensures never { IsTrue Self.NEVER_REFUSES → IsOk result };

    /// Returns the value scaled by `r`.
    ///
    /// ```
    /// let p = Poly::from_coefficients(vec![in alloc; F::from(4), F::from(6)]?);
    /// p.scaled(alloc, &F::from(2))?; // Poly(8 + 12 X^1)
    /// ```
    fn scaled(self, alloc: Global, r: &R) -> Mem<Self>
        ensures ok { IfOk result (λ answer. Self.same answer (scaling self r.now)) }
        ensures never { IsTrue Self.NEVER_REFUSES → IsOk result }
    {
        let mut out = self;
        out.scale_assign(alloc, r)?;
        Ok(out)
    }

    /// Returns the sum of point i scaled by scalar i, over the shorter of both slices. It is zero
    /// for none.
    ///
    /// ```
    /// F::msm(alloc, &[F::from(2), F::from(3)], &[F::from(4), F::from(6)])?; // 26
    /// ```
    fn msm(alloc: Global, points: &[Self], scalars: &[R]) -> Mem<Self>
        ensures ok { IfOk result (λ answer.
            Self.same answer (weighted_sum Self.zero Self.sum scaling points.now scalars.now)) }
        ensures never { IsTrue Self.NEVER_REFUSES → IsOk result }
    {
        weighted_sum_by(
            alloc,
            points,
            scalars,
            |p: &mut Self, s: &R| p.scale_assign(alloc, s),
        )
    }

    /// The laws of a module, each operation respecting `same`.
    ghost spans: { IsModule Self.same Self.zero Self.sum scaling
        R.same R.zero R.sum R.product R.one };
}

/// Each ring is a space over itself.
impl<R: Ring> Space<R> for R {
    ghost scaling = { R.product };

    fn scale_assign(&mut self, alloc: Global, r: &R) -> Mem<()> {
        self.mul_assign(alloc, r)?;
        Ok(())
    }

    ghost spans = { ring_is_module R.equality R.group R.commutes R.ring };
}

/// A group for cryptography: a space over a field of scalars, with a generator.
pub trait CryptoGroup: Space<Self::Scalar> {
    type Scalar: Field;

    ghost generator: { Self };

    /// Returns the generator.
    fn generator(alloc: Global) -> Mem<Self>
        ensures ok { IfOk result (λ answer. Self.same answer generator) }
        ensures never { IsTrue Self.NEVER_REFUSES → IsOk result };
}

/// A group with elements that are made from messages.
pub trait HashToGroup: CryptoGroup {
    /// The element that a domain separator and a message hash to.
    ghost hash: { List ℕ → List ℕ → Self };

    /// Hashes a domain separator and a message. Equal ones give the same element.
    fn hash_to_group(alloc: Global, domain_separator: &[u8], message: &[u8]) -> Mem<Self>
        ensures { IfOk result
            (λ answer. Self.same answer (hash domain_separator.now message.now)) };

    /// Hashes the next 32 bytes of the source, with an empty domain separator.
    fn rand_to_group<G: Rng + CryptoRng>(alloc: Global, rng: &mut G) -> Mem<Self>
        ensures ok { IfOk result
            (λ answer. Self.same answer (hash [] (fill_bytes 32 (G.stream rng.old)).0)) }
        ensures source { G.stream rng.new ≡ (fill_bytes 32 (G.stream rng.old)).1 }
    {
        let mut bytes = [0u8; 32];
        rng.fill_bytes(&mut bytes);
        Self::hash_to_group(alloc, &[], &bytes)
    }
}

/// Why no value was sampled.
///
/// Memory ran out, or the source gave only words that are no element, as often as the call looked.
#[derive(Debug, Drop, Error)]
pub enum RandomError {
    #[error("out of memory")]
    Memory(AllocError),
    #[error("too many words")]
    TooManyWords,
}

impl From<AllocError> for RandomError {
    ghost from_gives = { λ x e. e ≡ Memory x };

    fn from(e: AllocError) -> RandomError {
        RandomError::Memory(e)
    }
}

impl<T: Drop> From<AllocFailed<T>> for RandomError {
    ghost from_gives = { λ _ e. e ≡ Memory alloc_error };

    fn from(_e: AllocFailed<T>) -> RandomError {
        RandomError::Memory(AllocError)
    }
}

/// A type whose values can be sampled from a source of random words.
pub trait Random: Sized {
    /// The sample that a source gives, where its next words give one, and the source after the
    /// words that were looked at.
    ghost sample: { Stream → Option Self × Stream };

    /// Returns the next sample of the source. Nothing promises how samples are distributed.
    ///
    /// ```
    /// F::random(alloc, rng)?; // 1
    /// ```
    fn random<G: Rng + CryptoRng>(alloc: Global, rng: &mut G) -> Result<Self, RandomError>
        ensures sampled { IfOk result
            (λ x. sample (G.stream rng.old) ≡ (Some x, G.stream rng.new)) }
        ensures refused { IfErr result (λ error.
            error ≡ TooManyWords → sample (G.stream rng.old) ≡ (None, G.stream rng.new)) };
}

/// Gives `Ok(shift)`, `Ok(shift * base)`, `Ok(shift * base^2)` and so on, without end. After an
/// `Err` it ends.
///
/// ```
/// let base = F::from(2);
/// let mut powers = powers(alloc, F::from(3), &base);
/// powers.next(); // Some(Ok(3))
/// powers.next(); // Some(Ok(6))
/// ```
pub fn powers<'a, R: Ring>(alloc: Global, shift: R, base: &'a R) -> Powers<'a, R>
    ensures { (items : _) (last : _) (rest : _)
        → YieldsThen ⟦<Powers<'a, R> as Iterator>⟧.next_gives result items last rest
        → AreGeometric R.same R.product R.one shift base.now 0 items last }
{
    Powers::new(alloc, shift, base)
}

/// Returns the sum of point i scaled by scalar i, over the shorter of both slices, term by term. It
/// is zero for none.
///
/// ```
/// msm_naive(alloc, &[F::from(2), F::from(3)], &[F::from(4), F::from(6)])?; // 26
/// ```
pub fn msm_naive<R: Ring, K: Space<R>>(alloc: Global, points: &[K], scalars: &[R]) -> Mem<K>
    ensures ok { IfOk result
        (λ answer. K.same answer (weighted_sum K.zero K.sum K.scaling points.now scalars.now)) }
    ensures never { IsTrue K.NEVER_REFUSES → IsOk result }
{
    weighted_sum_by(
        alloc,
        points,
        scalars,
        |p: &mut K, s: &R| p.scale_assign(alloc, s),
    )
}

/// The sum of point i scaled by scalar i, over the shorter of both slices. The scaling is handed
/// in, so that default bodies of `Space` may call it.
fn weighted_sum_by<R: Drop, K: Additive, S: Fn(&mut K, &R) -> Mem<()>>(
    alloc: Global,
    points: &[K],
    scalars: &[R],
    scale: S,
) -> Mem<K>
    requires { S.IsAlwaysCallable scale }
    ensures ok { IfOk result (λ answer.
        (scaling : K → R → K)
        → ((a b : K) (x : R) → K.same a b → K.same (scaling a x) (scaling b x))
        → ((a : _) (x : _) (r : _) (b : _) → S.post scale a x r b
        → IfOk r (λ _. K.same b.now (scaling a.now x.now)))
        → K.same answer (weighted_sum K.zero K.sum scaling points.now scalars.now)) }
    ensures never { IsTrue K.NEVER_REFUSES
        → ((a : _) (x : _) (r : _) (b : _) → S.post scale a x r b → IsOk r) → IsOk result }
{
    let mut out = K::zero(alloc)?;
    for (s, p) in scalars.iter().zip(points.iter()) {
        let mut term = p.clone(alloc)?;
        scale(&mut term, s)?;
        out.add_assign(alloc, &term)?;
    }
    Ok(out)
}

/// The power of x in a commutative monoid, by the number that the limbs write. `start` is the
/// monoid's one; squaring and multiplying are handed in, so that sums and products share this loop.
///
/// From the highest bit to the lowest, the power by n becomes that by 2 n with a squaring, and that
/// by 2 n + 1 with one product more. Before the first bit that is one there is nothing to square.
fn power_by_bits<T: Object, D: Fn(&mut T) -> Mem<()>, J: Fn(&mut T, &T) -> Mem<()>>(
    start: T,
    x: &T,
    bits_le: &[u64],
    square: D,
    multiply: J,
) -> Mem<T>
    requires squares { D.IsAlwaysCallable square }
    requires multiplies { J.IsAlwaysCallable multiply }
    ensures ok { IfOk result
        (λ answer. (one : T) (product : T → T → T) → IsMonoid T.same one product
        → ((a : _) (r : _) (b : _) → D.post square a r b
        → IfOk r (λ _. T.same b.now (product a.now a.now)))
        → ((a : _) (c : _) (r : _) (b : _) → J.post multiply a c r b
        → IfOk r (λ _. T.same b.now (product a.now c.now)))
        → T.same start one
        → T.same answer (power one product x.now (number_of_limbs bits_le.now))) }
    ensures never { ((a : _) (r : _) (b : _) → D.post square a r b → IsOk r)
        → ((a : _) (c : _) (r : _) (b : _) → J.post multiply a c r b → IsOk r) → IsOk result }
{
    let mut out = start;
    let mut begun = false;
    for limb in bits_le.iter().rev() {
        let word = *limb;
        for i in (0..64u32).rev() {
            let bit = (word >> i) & 1 == 1;
            if begun {
                square(&mut out)?;
                if bit {
                    multiply(&mut out, x)?;
                }
            } else if bit {
                multiply(&mut out, x)?;
                begun = true;
            }
        }
    }
    Ok(out)
}
