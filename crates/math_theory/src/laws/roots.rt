//! Roots of polynomials over a field.
//!
//! Where c is a root of p, p is X - c times a polynomial of one coefficient less, whose roots are
//! the other roots of p. So the number of distinct roots is below the number of coefficients,
//! unless all of these are zero. Two polynomials that agree at a point have that point as a root of
//! their difference.

ghost use Rattle.std.specs.Prelude.{◌≡◌, ◌≤◌, ◌-◌, List, length, All};
ghost use Rattle.math_theory.specs.OverRing.{AreDistinct, value, IsZeroPolynomial, HaveSameCoefficients};
ghost use Rattle.math_theory.specs.Rings.{Field};

/// A polynomial of m coefficients, not all zero, takes the value zero at no more than m - 1
/// distinct points.
pub fn few_roots<T>()
    ensures { (F : Field T) → (p roots : List T) → ¬ (IsZeroPolynomial F.ring p) → AreDistinct roots
        → All (λ x. value F.ring x p ≡ F.zero) roots → length roots ≤ length p - 1 }
{}

/// Two polynomials of at most n coefficients that agree at n distinct points have the same
/// coefficients, the shorter list padded with zeros.
pub fn agreement<T>()
    ensures { (F : Field T) → (points p q : List T) → AreDistinct points
        → length p ≤ length points → length q ≤ length points
        → All (λ x. value F.ring x p ≡ value F.ring x q) points → HaveSameCoefficients F.ring p q }
{}
