//! Division of polynomials with remainder, and unique decoding.
//!
//! Values stand at m distinct points, and at most (m - k) / 2 of them are wrong. Two polynomials of
//! at most k coefficients that agree with all others agree with each other at k points or more, so
//! there is one at most. It is found by Euclid's algorithm on r_0, the product of X - x over the
//! points, and r_1, the polynomial through the values: each remainder r has a factor v such that
//! r(x) is v(x) y at each point x with value y. The first remainder of degree below (m + k) / 2 is
//! the wanted polynomial times v (Gao, A new algorithm for decoding Reed-Solomon codes, 2003).

ghost use Rattle.std.specs.List.Sorted.{IsStrictlyIncreasing};
ghost use Rattle.std.specs.Prelude.{◌≢◌, ◌+◌, ◌-◌, ◌<◌, ◌≤◌, ℕ, suc, List, length, slice_index_or, All};
ghost use Rattle.math_theory.specs.OverRing.{AreDistinct, value, HaveSameCoefficients, polynomial_difference};
ghost use Rattle.math_theory.specs.OverRing.{polynomial_product, HasExactDegree, IsDivision};
ghost use Rattle.math_theory.specs.OverRing.{IsKept, IsWithinRadius};
ghost use Rattle.math_theory.specs.Rings.{Field};

/// By a polynomial d of degree n each polynomial has a quotient and a remainder of at most n
/// coefficients, and they are the only ones.
pub fn division<T>()
    ensures { (F : Field T) → (p d : List T) → (n : ℕ) → HasExactDegree F.ring d n
        → (q : List T) × (r : List T) × IsDivision F.ring n p d q r
        × ((q' r' : List T) → IsDivision F.ring n p d q' r'
        → HaveSameCoefficients F.ring q' q × HaveSameCoefficients F.ring r' r) }
{}

/// Where the values of r are those of v times the values given, and those of r' are those of v'
/// times them, the same holds of the remainder r'' of r by r' and of v'', which is v less the
/// quotient times v'.
pub fn kept_by_division<T>()
    ensures { (F : Field T) → (points values r v r' v' q r'' v'' : List T) → (n : ℕ)
        → IsKept F.ring points values r v → IsKept F.ring points values r' v'
        → IsDivision F.ring n r r' q r''
        → HaveSameCoefficients F.ring v''
        (polynomial_difference F.ring v (polynomial_product F.ring q v'))
        → IsKept F.ring points values r'' v'' }
{}

/// And where r has degree a, r' degree b, v' degree s and v at most s coefficients, v'' has degree
/// a - b + s: so it is not zero, and its degree and that of r' have the sum that those of v' and r
/// had.
pub fn degrees_by_division<T>()
    ensures { (F : Field T) → (a b s : ℕ) → (r r' r'' q v v' v'' : List T) → b ≤ a
        → HasExactDegree F.ring r a → HasExactDegree F.ring r' b → IsDivision F.ring b r r' q r''
        → length q ≤ suc (a - b) → HasExactDegree F.ring v' s → length v ≤ s
        → HaveSameCoefficients F.ring v''
        (polynomial_difference F.ring v (polynomial_product F.ring q v'))
        → HasExactDegree F.ring v'' ((a - b) + s) }
{}

/// Where the values of r are those of v times the values given, r has degree below (m + count) / 2
/// and v has degree at most (m - count) / 2: r is g times v for every g of at most count
/// coefficients that agrees with all but at most (m - count) / 2 of the values.
pub fn decoding<T>()
    ensures { (F : Field T) → (points values r v g : List T) → (count : ℕ) → AreDistinct points
        → IsKept F.ring points values r v → length r + length r ≤ suc (length points + count)
        → length v + length v + count ≤ suc (suc (length points))
        → IsWithinRadius F.ring points values count g
        → HaveSameCoefficients F.ring r (polynomial_product F.ring g v) }
{}

/// And where v is not zero and r is f times v, f differs from the values at no more places than the
/// degree of v.
pub fn wrong_places<T>()
    ensures { (F : Field T) → (points values r v f : List T) → (wrong : List ℕ) → (n : ℕ)
        → AreDistinct points
        → IsKept F.ring points values r v → HasExactDegree F.ring v n
        → HaveSameCoefficients F.ring r (polynomial_product F.ring f v)
        → IsStrictlyIncreasing wrong → All (λ i. i < length points) wrong
        → All (λ i. value F.ring (slice_index_or points i F.zero) f
        ≢ slice_index_or values i F.zero) wrong
        → length wrong ≤ length v - 1 }
{}

/// Two lists of at most count coefficients that agree with all but at most (m - count) / 2 of the
/// values at m distinct points have the same coefficients.
pub fn decoding_once<T>()
    ensures { (F : Field T) → (points values g f : List T) → (count : ℕ) → AreDistinct points
        → count ≤ length points
        → IsWithinRadius F.ring points values count f → IsWithinRadius F.ring points values count g
        → HaveSameCoefficients F.ring g f }
{}
