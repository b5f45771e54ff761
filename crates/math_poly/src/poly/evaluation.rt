//! Values of polynomials, by Horner's rule and as sums weighted by powers.
//!
//! Only types that never refuse have their coefficients taken four at a time: that copies two of
//! each four and squares the point twice, and if a type may refuse, no clause `never` could be
//! promised.

ghost use Rattle.std.specs.Prelude.{◌≡◌, ◌++◌, [], ◌∷◌, IsTrue, IsOk, IfOk, OnOk, length};
ghost use Rattle.std.specs.List.{AllZip, zip};
ghost use Rattle.math_theory.specs.Domains.{coset};
ghost use Rattle.math_base.specs.Members.{value};
ghost use Rattle.math_poly.specs.Combinations.{combination_of_values};

use super::Poly;
use math_base::algebra::{Mem, Ring, Space, powers};
use std::alloc::Global;

impl<K: Drop> Poly<K> {
    /// Returns the value at r: the sum of coefficient i scaled by r to the power i.
    ///
    /// ```
    /// let p = Poly::from_coefficients(vec![in alloc; F::from(4), F::from(6), F::from(8)]?);
    /// p.eval(alloc, &F::from(5))?; // 234
    /// ```
    pub fn eval<R: Ring>(&self, alloc: Global, r: &R) -> Mem<K>
    where
        K: Space<R>,
        ensures ok { IfOk result (λ answer. K.same answer (value K.Space R.Ring self.now r.now)) }
        ensures never { IsTrue K.NEVER_REFUSES → IsOk result }
    {
        let [front @ .., last] = self.coefficients.as_slice() else {
            unreachable!()
        };
        let last = last.clone(alloc)?;
        if R::NEVER_REFUSES && K::NEVER_REFUSES && front.len() >= 8 {
            let out = horner_by_fours(alloc, front, last, r)?;
            return Ok(out);
        }
        let out = horner(alloc, front, last, r)?;
        Ok(out)
    }

    /// Returns the value at r, as `eval` does, by one call of `msm`: the sum of coefficient i
    /// weighted by r to the power i.
    ///
    /// It takes memory for as many powers as there are coefficients.
    ///
    /// ```
    /// let p = Poly::from_coefficients(vec![in alloc; F::from(4), F::from(6), F::from(8)]?);
    /// p.eval_msm(alloc, &F::from(5))?; // 234
    /// ```
    pub fn eval_msm<R: Ring>(&self, alloc: Global, r: &R) -> Mem<K>
    where
        K: Space<R>,
        ensures { IfOk result (λ answer. K.same answer (value K.Space R.Ring self.now r.now)) }
    {
        let one = R::one(alloc)?;
        let weights = first_powers(alloc, one, r, self.coefficients.len())?;
        let out = K::msm(alloc, &self.coefficients, &weights)?;
        Ok(out)
    }

    /// Returns a weighted sum of values. Each pair is a weight and a point, and no pairs give zero.
    ///
    /// The sum over the pairs (w, b) of the value at b scaled by w is the sum of coefficient i
    /// weighted by the sum of w b^i. So it first sums the weights of all points, one sum for each
    /// coefficient, and then calls `msm` once.
    ///
    /// ```
    /// let p = Poly::from_coefficients(vec![in alloc; F::from(4), F::from(6), F::from(8)]?);
    /// p.lin_comb_eval(alloc, &[(F::from(1), F::from(5)), (F::from(10), F::from(0))])?; // 274
    /// ```
    pub fn lin_comb_eval<R: Ring>(&self, alloc: Global, pairs: &[(R, R)]) -> Mem<K>
    where
        K: Space<R>,
        ensures { IfOk result
            (λ answer. K.same answer (combination_of_values K.Space R.Ring self.now pairs.now)) }
    {
        let Some((first, rest)) = pairs.split_first() else {
            let zero = K::zero(alloc)?;
            return Ok(zero);
        };
        let weight = first.0.clone(alloc)?;
        let mut weights = first_powers(alloc, weight, &first.1, self.coefficients.len())?;
        for pair in rest {
            let weight = pair.0.clone(alloc)?;
            add_powers(alloc, &mut weights, weight, &pair.1)?;
        }
        let out = K::msm(alloc, &self.coefficients, &weights)?;
        Ok(out)
    }
}

/// The value at r of the polynomial with these coefficients and then `last`.
///
/// By Horner's rule: the value of a + X p is a plus the value of p scaled by r, so each
/// coefficient, from the last to the first, takes one scaling and one sum.
fn horner<R: Ring, K: Space<R>>(alloc: Global, coefficients: &[K], last: K, r: &R) -> Mem<K>
    ensures ok { IfOk result
        (λ answer. K.same answer (value K.Space R.Ring (coefficients.now ++ last ∷ []) r.now)) }
    ensures never { IsTrue K.NEVER_REFUSES → IsOk result }
{
    let mut out = last;
    let mut front = coefficients;
    while let [before @ .., coefficient] = front {
        horner_step(alloc, &mut out, r, coefficient)?;
        front = before;
    }
    Ok(out)
}

/// Scales `out` by r and adds a coefficient.
fn horner_step<R: Ring, K: Space<R>>(alloc: Global, out: &mut K, r: &R, coefficient: &K) -> Mem<()>
    ensures ok { OnOk result (K.same out.new (K.sum (K.scaling out.old r.now) coefficient.now)) }
    ensures never { IsTrue K.NEVER_REFUSES → IsOk result }
{
    out.scale_assign(alloc, r)?;
    out.add_assign(alloc, coefficient)?;
    Ok(())
}

/// The value that `horner` gives, by four coefficients at a time. Fewer products wait for one
/// another, but two of each four coefficients are copied, so it is for types that never refuse.
///
/// The value of a + b X + c X^2 + d X^3 + X^4 p is (a + b r) + (c + d r) r^2, and to that the value
/// of p scaled by r^4. So for each four coefficients one product waits for those of the four
/// before.
fn horner_by_fours<R: Ring, K: Space<R>>(
    alloc: Global,
    coefficients: &[K],
    last: K,
    r: &R,
) -> Mem<K>
    ensures ok { IfOk result
        (λ answer. K.same answer (value K.Space R.Ring (coefficients.now ++ last ∷ []) r.now)) }
    ensures never { IsTrue R.NEVER_REFUSES → IsTrue K.NEVER_REFUSES → IsOk result }
{
    let mut r2 = r.clone(alloc)?;
    r2.square(alloc)?;
    let mut r4 = r2.clone(alloc)?;
    r4.square(alloc)?;
    let mut out = last;
    let mut front = coefficients;
    while let [before @ .., a, b, c, d] = front {
        let mut low = b.clone(alloc)?;
        horner_step(alloc, &mut low, r, a)?;
        let mut high = d.clone(alloc)?;
        horner_step(alloc, &mut high, r, c)?;
        horner_step(alloc, &mut high, &r2, &low)?;
        horner_step(alloc, &mut out, &r4, &high)?;
        front = before;
    }
    let out = horner(alloc, front, out, r)?;
    Ok(out)
}

/// The first n of shift, shift * base, shift * base^2 and so on.
fn first_powers<R: Ring>(alloc: Global, shift: R, base: &R, n: usize) -> Mem<Vec<R>>
    ensures count { IfOk result (λ v. length v.items ≡ n) }
    ensures powers { IfOk result
        (λ v. AllZip R.same v.items (coset R.one R.product shift base.now n)) }
{
    let mut out = Vec::with_capacity(alloc, n)?;
    for power in powers(alloc, shift, base).take(n) {
        out.push(power?)?;
    }
    Ok(out)
}

/// Adds shift, shift * base, shift * base^2 and so on to the sums in turn.
fn add_powers<R: Ring>(alloc: Global, sums: &mut [R], shift: R, base: &R) -> Mem<()>
    ensures { OnOk result (AllZip (λ terms new. R.same new (R.sum terms.0 terms.1))
        (zip sums.old (coset R.one R.product shift base.now (length sums.old))) sums.new) }
{
    let mut terms = powers(alloc, shift, base);
    for total in sums.iter_mut() {
        if let Some(term) = terms.next() {
            total.add_assign(alloc, &term?)?;
        }
    }
    Ok(())
}
