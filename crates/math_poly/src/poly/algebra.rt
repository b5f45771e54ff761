//! Polynomials coefficient by coefficient: their equality, sums and multiples.

ghost use Rattle.std.specs.Prelude.{◌≡◌, ◌↔◌, ◌<◌, ◌≤◌, ◌^◌, ◌⊎◌, true, false, IsTrue, IsOk, Ok, IfOk, OnOk, OnErr, [], ◌∷◌, length, max, take};
ghost use Rattle.std.specs.Fn.{FnReturnsAt};
ghost use Rattle.std.specs.List.{AllZip};
ghost use Rattle.math_theory.specs.Coefficients.{coefficient, HaveSameCoefficients, HasDegree, polynomial_sum, polynomial_negative, polynomial_difference, polynomial_multiple};
ghost use Rattle.math_theory.specs.Powers.{multiple};
ghost use Rattle.math_theory.specs.Sums.{number_of_limbs, weighted_sum};
ghost use Rattle.math_poly.specs.PolynomialCounts.{greatest_count};
ghost use Rattle.math_poly.specs.PolynomialLaws.{coefficients_equality, polynomials_group, polynomials_module};

use super::Poly;
use math_base::algebra::{Additive, Mem, Object, Ring, Space};
use std::alloc::Global;

impl<K: Drop> Poly<K> {
    /// Makes the polynomial of f's answers at the coefficients, each in its place.
    ///
    /// ```
    /// use commonware_math::algebra::Mem;
    /// let p = Poly::from_coefficients(vec![in alloc; F::from(4), F::from(6)]?);
    /// p.translate(alloc, |c: &F| -> Mem<F> { Ok(*c + F::from(1)) })?; // Poly(5 + 7 X^1)
    /// ```
    pub fn translate<L: Drop, F: Fn(&K) -> Mem<L>>(&self, alloc: Global, f: F) -> Mem<Poly<L>>
        requires { F.IsAlwaysCallable f }
        ensures count { IfOk result (λ p. length p ≡ length self.now) }
        ensures each { IfOk result (λ p. AllZip (λ c d. FnReturnsAt F.Fn f c (Ok d)) self.now p) }
    {
        let coefficients = answers(alloc, &self.coefficients, f)?;
        Ok(Poly { coefficients })
    }
}

/// The answers of f at the items, in their order.
fn answers<T: Drop, L: Drop, F: Fn(&T) -> Mem<L>>(alloc: Global, items: &[T], f: F) -> Mem<Vec<L>>
    requires { F.IsAlwaysCallable f }
    ensures count { IfOk result (λ v. length v.items ≡ length items.now) }
    ensures each { IfOk result
        (λ v. AllZip (λ c d. FnReturnsAt F.Fn f c (Ok d)) items.now v.items) }
{
    let mut out = Vec::with_capacity(alloc, items.len())?;
    for item in items {
        out.push_reserved(f(item)?);
    }
    Ok(out)
}

impl<K: Additive> Poly<K> {
    /// Returns the greatest index of a coefficient that is not the same as zero, or 0 if there is
    /// none.
    ///
    /// If calls on coefficients are never refused, neither is this one.
    ///
    /// ```
    /// let p = Poly::from_coefficients(vec![in alloc; F::from(4), F::from(6), F::from(0)]?);
    /// p.degree_exact(alloc)?; // 1
    /// ```
    pub fn degree_exact(&self, alloc: Global) -> Mem<u32>
        ensures ok { IfOk result (λ n. HasDegree K.same K.zero self.now n) }
        ensures never { IsTrue K.NEVER_REFUSES → IsOk result }
    {
        let zero = K::zero(alloc)?;
        for i in (1..self.coefficients.len()).rev() {
            if !self.coefficients[i].equals(alloc, &zero)? {
                return Ok(i as u32);
            }
        }
        Ok(0)
    }
}

/// Both polynomials, the one with fewer coefficients first.
fn by_count<'a, K: Drop>(a: &'a Poly<K>, b: &'a Poly<K>) -> (&'a Poly<K>, &'a Poly<K>)
    ensures both { ((result.0.now ≡ a.now) × (result.1.now ≡ b.now))
        ⊎ ((result.0.now ≡ b.now) × (result.1.now ≡ a.now)) }
    ensures order { length result.0.now ≤ length result.1.now }
{
    if a.coefficients.len() <= b.coefficients.len() {
        (a, b)
    } else {
        (b, a)
    }
}

/// The sum. Past the end of the shorter list it has the coefficients of the longer; so it is a copy
/// of the longer list, to whose first coefficients those of the shorter are added.
fn sum_of<K: Additive>(alloc: Global, a: &Poly<K>, b: &Poly<K>) -> Mem<Poly<K>>
    ensures ok { IfOk result
        (λ p. HaveSameCoefficients K.same K.zero p (polynomial_sum K.sum a.now b.now)) }
    ensures count { IfOk result (λ p. length p ≡ max (length a.now) (length b.now)) }
{
    let (shorter, longer) = by_count(a, b);
    let Poly {
        coefficients: mut out,
    } = longer.clone(alloc)?;
    for (i, addend) in shorter.coefficients.iter().enumerate() {
        out[i].add_assign(alloc, addend)?;
    }
    Ok(Poly { coefficients: out })
}

/// The negative of each coefficient.
fn negative_of<K: Additive>(alloc: Global, p: &Poly<K>) -> Mem<Poly<K>>
    ensures ok { IfOk result
        (λ q. HaveSameCoefficients K.same K.zero q (polynomial_negative K.negative p.now)) }
    ensures count { IfOk result (λ q. length q ≡ length p.now) }
{
    let negative = p.translate(
        alloc,
        |c: &K| -> Mem<K>
            ensures { IfOk result (λ d. K.same d (K.negative c.now)) }
        {
            let copy = c.clone(alloc)?;
            let negative = copy.neg(alloc)?;
            Ok(negative)
        },
    )?;
    Ok(negative)
}

/// Polynomials are the same where they have the same coefficients, those that are not stored being
/// zero.
impl<K: Additive> Object for Poly<K> {
    ghost same = { HaveSameCoefficients K.same K.zero };

    ghost NEVER_REFUSES = { false };

    const NEVER_REFUSES: bool = false;

    /// A polynomial with as many stored coefficients, each the same.
    fn clone(&self, alloc: Global) -> Mem<Self>
        ensures ok { IfOk result (λ copy. HaveSameCoefficients K.same K.zero copy self.now) }
        ensures count { IfOk result (λ copy. length copy ≡ length self.now) }
    {
        let copy = self.translate(
            alloc,
            |c: &K| -> Mem<K>
                ensures { IfOk result (λ d. K.same d c.now) }
            { c.clone(alloc) },
        )?;
        Ok(copy)
    }

    /// Whether both have the same coefficients. Where calls on coefficients are never refused,
    /// neither is this one.
    ///
    /// Past the end of the shorter list the coefficients of the longer have to be zero, so that its
    /// exact degree lies in the shorter list; before that end they are compared one by one.
    fn equals(&self, alloc: Global, other: &Self) -> Mem<bool>
        ensures ok { IfOk result
            (λ answer. IsTrue answer ↔ HaveSameCoefficients K.same K.zero self.now other.now) }
        ensures never { IsTrue K.NEVER_REFUSES → IsOk result }
    {
        let (shorter, longer) = by_count(self, other);
        if longer.degree_exact(alloc)? > shorter.degree() {
            return Ok(false);
        }
        for (i, c) in shorter.coefficients.iter().enumerate() {
            if !c.equals(alloc, &longer.coefficients[i])? {
                return Ok(false);
            }
        }
        Ok(true)
    }

    ghost equality = { coefficients_equality K.zero K.equality };
}

/// Polynomials are added coefficient by coefficient.
impl<K: Additive> Additive for Poly<K> {
    ghost zero = { K.zero ∷ [] };

    ghost sum = { polynomial_sum K.sum };

    ghost negative = { polynomial_negative K.negative };

    /// Zero, with one stored coefficient.
    fn zero(alloc: Global) -> Mem<Self>
        ensures ok { IfOk result
            (λ answer. HaveSameCoefficients K.same K.zero answer (K.zero ∷ [])) }
        ensures count { IfOk result (λ answer. length answer ≡ 1) }
    {
        let mut coefficients = Vec::new(alloc);
        coefficients.push(K::zero(alloc)?)?;
        Ok(Poly { coefficients })
    }

    /// Adds `rhs` to this polynomial, which then stores as many coefficients as the one that stored
    /// more. Where it is refused, the polynomial is as it was.
    fn add_assign(&mut self, alloc: Global, rhs: &Self) -> Mem<()>
        ensures ok { OnOk result
            (HaveSameCoefficients K.same K.zero self.new (polynomial_sum K.sum self.old rhs.now)) }
        ensures count { OnOk result (length self.new ≡ max (length self.old) (length rhs.now)) }
        ensures err { OnErr result (self.new ≡ self.old) }
    {
        *self = sum_of(alloc, self, rhs)?;
        Ok(())
    }

    /// Takes `rhs` from this polynomial, by adding its negative. The polynomial then stores as many
    /// coefficients as the one that stored more. Where it is refused, the polynomial is as it was.
    fn sub_assign(&mut self, alloc: Global, rhs: &Self) -> Mem<()>
        ensures ok { OnOk result (HaveSameCoefficients K.same K.zero self.new
            (polynomial_difference K.sum K.negative self.old rhs.now)) }
        ensures count { OnOk result (length self.new ≡ max (length self.old) (length rhs.now)) }
        ensures err { OnErr result (self.new ≡ self.old) }
    {
        let negative = negative_of(alloc, rhs)?;
        *self = sum_of(alloc, self, &negative)?;
        Ok(())
    }

    /// The negative, with as many stored coefficients.
    fn neg(self, alloc: Global) -> Mem<Self>
        ensures ok { IfOk result (λ answer. HaveSameCoefficients K.same K.zero answer
            (polynomial_negative K.negative self)) }
        ensures count { IfOk result (λ answer. length answer ≡ length self) }
    {
        let out = negative_of(alloc, &self)?;
        Ok(out)
    }

    /// The sum, with as many stored coefficients as the one that stored more.
    ///
    /// ```
    /// let p = Poly::from_coefficients(vec![in alloc; F::from(4), F::from(6)]?);
    /// let q = Poly::from_coefficients(vec![in alloc; F::from(1)]?);
    /// p.add(alloc, &q)?; // Poly(5 + 6 X^1)
    /// ```
    fn add(self, alloc: Global, rhs: &Self) -> Mem<Self>
        ensures ok { IfOk result (λ answer. HaveSameCoefficients K.same K.zero answer
            (polynomial_sum K.sum self rhs.now)) }
        ensures count { IfOk result (λ answer. length answer ≡ max (length self) (length rhs.now)) }
    {
        let mut out = self;
        out.add_assign(alloc, rhs)?;
        Ok(out)
    }

    /// The difference, with as many stored coefficients as the one that stored more.
    fn sub(self, alloc: Global, rhs: &Self) -> Mem<Self>
        ensures ok { IfOk result (λ answer. HaveSameCoefficients K.same K.zero answer
            (polynomial_difference K.sum K.negative self rhs.now)) }
        ensures count { IfOk result (λ answer. length answer ≡ max (length self) (length rhs.now)) }
    {
        let mut out = self;
        out.sub_assign(alloc, rhs)?;
        Ok(out)
    }

    /// Doubles each coefficient. Where it is refused, the polynomial is as it was.
    fn double(&mut self, alloc: Global) -> Mem<()>
        ensures ok { OnOk result (HaveSameCoefficients K.same K.zero self.new
            (polynomial_sum K.sum self.old self.old)) }
        ensures count { OnOk result (length self.new ≡ length self.old) }
        ensures err { OnErr result (self.new ≡ self.old) }
    {
        let twice = self.translate(
            alloc,
            |c: &K| -> Mem<K>
                ensures { IfOk result (λ d. K.same d (K.sum c.now c.now)) }
            {
                let mut out = c.clone(alloc)?;
                out.double(alloc)?;
                Ok(out)
            },
        )?;
        *self = twice;
        Ok(())
    }

    /// The n-fold sum, n being the number that the limbs write, the lowest limb first. If n is 0,
    /// it is zero, with one stored coefficient. Otherwise it stores as many coefficients as this
    /// one.
    ///
    /// ```
    /// let p = Poly::from_coefficients(vec![in alloc; F::from(4), F::from(6)]?);
    /// p.scale(alloc, &[3])?; // Poly(12 + 18 X^1)
    /// ```
    fn scale(&self, alloc: Global, bits_le: &[u64]) -> Mem<Self>
        ensures ok { IfOk result (λ answer. HaveSameCoefficients K.same K.zero answer
            (multiple (K.zero ∷ []) (polynomial_sum K.sum) self.now
            (number_of_limbs bits_le.now))) }
        ensures count { IfOk result
            (λ answer. 0 < number_of_limbs bits_le.now → length answer ≡ length self.now) }
        ensures count_of_zero { IfOk result
            (λ answer. number_of_limbs bits_le.now ≡ 0 → length answer ≡ 1) }
    {
        if all_zero(bits_le) {
            let zero = Self::zero(alloc)?;
            return Ok(zero);
        }
        let out = self.translate(
            alloc,
            |c: &K| -> Mem<K>
                ensures { IfOk result (λ d. K.same d
                    (multiple K.zero K.sum c.now (number_of_limbs bits_le.entry.now))) }
            { c.scale(alloc, bits_le) },
        )?;
        Ok(out)
    }

    ghost group = { polynomials_group K.equality K.group };
}

/// Polynomials are scaled coefficient by coefficient.
impl<R: Ring, K: Space<R>> Space<R> for Poly<K> {
    ghost scaling = { polynomial_multiple K.scaling };

    /// Scales each coefficient by `r`. Where it is refused, the polynomial is as it was.
    fn scale_assign(&mut self, alloc: Global, r: &R) -> Mem<()>
        ensures ok { OnOk result (HaveSameCoefficients K.same K.zero self.new
            (polynomial_multiple K.scaling self.old r.now)) }
        ensures count { OnOk result (length self.new ≡ length self.old) }
        ensures err { OnErr result (self.new ≡ self.old) }
    {
        let scaled = self.translate(
            alloc,
            |c: &K| -> Mem<K>
                ensures { IfOk result (λ d. K.same d (K.scaling c.now r.entry.now)) }
            {
                let copy = c.clone(alloc)?;
                let scaled = copy.scaled(alloc, r)?;
                Ok(scaled)
            },
        )?;
        *self = scaled;
        Ok(())
    }

    /// The polynomial scaled by `r`, with as many stored coefficients.
    fn scaled(self, alloc: Global, r: &R) -> Mem<Self>
        ensures ok { IfOk result (λ answer. HaveSameCoefficients K.same K.zero answer
            (polynomial_multiple K.scaling self r.now)) }
        ensures count { IfOk result (λ answer. length answer ≡ length self) }
    {
        let mut out = self;
        out.scale_assign(alloc, r)?;
        Ok(out)
    }

    /// The sum of polynomial i scaled by scalar i, over the shorter of both slices; zero for none.
    /// It stores as many coefficients as the longest polynomial that has a scalar, and at least
    /// one.
    ///
    /// Coefficient i of the sum is the weighted sum of the coefficients i.
    fn msm(alloc: Global, points: &[Self], scalars: &[R]) -> Mem<Self>
        ensures ok { IfOk result (λ answer. HaveSameCoefficients K.same K.zero answer
            (weighted_sum (K.zero ∷ []) (polynomial_sum K.sum) (polynomial_multiple K.scaling)
            points.now scalars.now)) }
        ensures count { IfOk result
            (λ answer. length answer ≡ greatest_count (take (length scalars.now) points.now)) }
    {
        let weighted = &points[..points.len().min(scalars.len())];
        let count = greatest_count(weighted);
        let mut coefficients = Vec::with_capacity(alloc, count)?;
        for i in 0..count {
            let column = coefficients_at(alloc, weighted, i)?;
            coefficients.push(K::msm(alloc, &column, scalars)?)?;
        }
        Ok(Poly { coefficients })
    }

    ghost spans = { polynomials_module K.equality K.group K.spans };
}

/// Whether each limb is zero, and with it the number that they write.
fn all_zero(limbs: &[u64]) -> bool
    ensures { IsTrue result ↔ number_of_limbs limbs.now ≡ 0 }
{
    limbs.iter().all(|limb| *limb == 0)
}

/// The greatest number of coefficients that one of the polynomials stores, and at least 1.
fn greatest_count<K: Drop>(polynomials: &[Poly<K>]) -> usize
    ensures greatest { result ≡ greatest_count polynomials.now }
    ensures range { result < 2 ^ 32 }
{
    let mut count = 1;
    for p in polynomials {
        count = count.max(p.coefficients.len());
    }
    count
}

/// Coefficient i of each polynomial.
fn coefficients_at<K: Additive>(alloc: Global, polynomials: &[Poly<K>], i: usize) -> Mem<Vec<K>>
    ensures { IfOk result
        (λ v. AllZip (λ p c. K.same c (coefficient K.zero p i)) polynomials.now v.items) }
{
    let column = answers(
        alloc,
        polynomials,
        |p: &Poly<K>| -> Mem<K>
            ensures { IfOk result (λ c. K.same c (coefficient K.zero p.now i)) }
        {
            match p.coefficients.get(i) {
                Some(c) => c.clone(alloc),
                None => K::zero(alloc),
            }
        },
    )?;
    Ok(column)
}
