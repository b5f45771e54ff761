//! Polynomials with random coefficients.

ghost use Rattle.std.specs.Prelude.{◌≡◌, ◌+◌, ◌-◌, ◌<◌, ◌^◌, IfOk, IfErr, Some, None, drop, length, slice_get};
ghost use Rattle.math_base.specs.Samples.{samples};
ghost use Rattle.math_base.specs.declared.algebra.RandomError.TheVariants.{TooManyWords};

use super::Poly;
use math_base::algebra::{Random, RandomError};
use rand_core::{CryptoRng, Rng};
use std::alloc::Global;

impl<K: Random + Drop> Poly<K> {
    /// Samples a polynomial of `degree + 1` coefficients, from the constant upwards. `degree` is at
    /// most 2^32 - 2.
    ///
    /// It refuses with `TooManyWords` if one of these samples is refused, or with `Memory`.
    ///
    /// ```
    /// Poly::<F>::new(alloc, rng, 2)?; // Poly(1 + 2 X^1 + 3 X^2)
    /// ```
    pub fn new<G: Rng + CryptoRng>(
        alloc: Global,
        rng: &mut G,
        degree: u32,
    ) -> Result<Self, RandomError>
        requires { degree < 2 ^ 32 - 1 }
        ensures count { IfOk result (λ p. length p ≡ degree + 1) }
        ensures sampled { IfOk result (λ p. samples K.sample (degree + 1) (G.stream rng.old) ≡
            (Some p, G.stream rng.new)) }
        ensures refused { IfErr result (λ error. error ≡ TooManyWords
            → samples K.sample (degree + 1) (G.stream rng.old) ≡ (None, G.stream rng.new)) }
    {
        let constant = K::random(alloc, rng)?;
        let p = Poly::new_with_constant(alloc, rng, degree, constant)?;
        Ok(p)
    }

    /// Samples a polynomial of `degree + 1` coefficients with the given constant; the others are
    /// samples, upwards. `degree` is at most 2^32 - 2.
    ///
    /// It refuses with `TooManyWords` if one of these samples is refused, or with `Memory`.
    ///
    /// ```
    /// Poly::new_with_constant(alloc, rng, 2, F::from(9))?; // Poly(9 + 1 X^1 + 2 X^2)
    /// ```
    pub fn new_with_constant<G: Rng + CryptoRng>(
        alloc: Global,
        rng: &mut G,
        degree: u32,
        constant: K,
    ) -> Result<Self, RandomError>
        requires { degree < 2 ^ 32 - 1 }
        ensures count { IfOk result (λ p. length p ≡ degree + 1) }
        ensures constant { IfOk result (λ p. slice_get p 0 ≡ Some constant) }
        ensures sampled { IfOk result (λ p. samples K.sample degree (G.stream rng.old) ≡
            (Some (drop 1 p), G.stream rng.new)) }
        ensures refused { IfErr result (λ error. error ≡ TooManyWords
            → samples K.sample degree (G.stream rng.old) ≡ (None, G.stream rng.new)) }
    {
        let mut coefficients = Vec::new(alloc);
        coefficients.push(constant)?;
        for _sampled in 0..degree {
            let coefficient = K::random(alloc, rng)?;
            coefficients.push(coefficient)?;
        }
        Ok(Poly { coefficients })
    }
}
