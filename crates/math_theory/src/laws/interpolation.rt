//! Interpolation over a field, and weights by which values at given points give the value
//! elsewhere.
//!
//! For distinct points, Lagrange's polynomial for point p is the product of (X - y) / (p - y) over
//! the other points y: it is one at p and zero at the others. The sum of value i times polynomial i
//! goes through the values, and by agreement at the points it is the only polynomial of so few
//! coefficients that does. So the values of Lagrange's polynomials at x are weights for the value
//! at x, and each list of weights, tried at Lagrange's polynomials, is seen to be theirs.

ghost use Rattle.std.specs.Prelude.{◌≡◌, ◌≢◌, ◌≤◌, ◌<◌, ℕ, List, length, map, slice_index_or};
ghost use Rattle.math_theory.specs.OverRing.{AreDistinct, coefficient, HaveSameCoefficients, weighted_sum, values_at, AreWeightsAt, lagrange_weights};
ghost use Rattle.math_theory.specs.Rings.{CommutativeRing, Field};
ghost use Rattle.math_theory.specs.Spaces.{Space, value_in, weighted_sum_in};

/// Through n values at n distinct points goes a polynomial of n coefficients, and no other of at
/// most n.
pub fn interpolation<T>()
    ensures through { (F : Field T) → (points values : List T) → AreDistinct points
        → length points ≡ length values
        → (p : List T) × (length p ≡ length points) × (values_at F.ring points p ≡ values) }
    ensures once { (F : Field T) → (points p q : List T) → AreDistinct points
        → length p ≤ length points → length q ≤ length points
        → values_at F.ring points p ≡ values_at F.ring points q → HaveSameCoefficients F.ring p q }
{}

/// At distinct points there are weights for the value at x, given by Lagrange's formula, and no
/// others.
pub fn weights<T>()
    ensures given { (F : Field T) → (x : T) → (points : List T) → AreDistinct points
        → AreWeightsAt F.ring x points (lagrange_weights F x points) }
    ensures once { (F : Field T) → (x : T) → (points weights : List T) → AreDistinct points
        → AreWeightsAt F.ring x points weights → weights ≡ lagrange_weights F x points }
{}

/// Where x is one of the points, its weight is one and the others are zero.
pub fn weights_at_point<T>()
    ensures one { (F : Field T) → (points weights : List T) → (k : ℕ) → AreDistinct points
        → k < length points → AreWeightsAt F.ring (slice_index_or points k F.zero) points weights
        → slice_index_or weights k F.zero ≡ F.one }
    ensures zero { (F : Field T) → (points weights : List T) → (i k : ℕ) → AreDistinct points
        → k < length points → AreWeightsAt F.ring (slice_index_or points k F.zero) points weights
        → i < length points → i ≢ k → slice_index_or weights i F.zero ≡ F.zero }
{}

/// Weights for the value at zero give the constant coefficient.
pub fn weights_at_zero<T>()
    ensures { (R : CommutativeRing T) → (points weights p : List T)
        → AreWeightsAt R R.zero points weights → length p ≤ length points
        → weighted_sum R (values_at R points p) weights ≡ coefficient R p 0 }
{}

/// Weights for values in the ring are weights for values in each space over it.
pub fn weights_in_spaces<T, S>()
    ensures { (R : CommutativeRing T) → (M : Space R S) → (x : T) → (points weights : List T)
        → AreWeightsAt R x points weights → (p : List S) → length p ≤ length points
        → weighted_sum_in M (map (λ y. value_in M y p) points) weights ≡ value_in M x p }
{}
