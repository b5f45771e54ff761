//! Polynomials that vanish at the missing points of a domain.
//!
//! The points of even index are the powers of w², and those of odd index are w times these. So the
//! product of r - x over the missing points is that over the missing ones of even index, times that
//! over those of odd index, which is, up to a power of w, the same product for the domain of w² at
//! r / w. Where all points are missing the product is r^N
//! - 1, and where none is it is one: this is how it is built from halves.

ghost use Rattle.std.specs.Prelude.{◌≡◌, ◌<◌, ◌↔◌, ◌+◌, ◌^◌, ◌++◌, ℕ, List, Bool, true, false, length, map, replicate, slice_index_or};
ghost use Rattle.math_theory.specs.BitReversal.{even_items, odd_items};
ghost use Rattle.math_theory.specs.DomainsOverRing.{HasExactOrder, IsPrincipalRoot, IsVanishing, missing_points, missing_product, VanishesAt};
ghost use Rattle.math_theory.specs.OverRing.{power, powers, root_product};
ghost use Rattle.math_theory.specs.Rings.{CommutativeRing, Field};

/// Roots multiplied by s: their product of differences at r is, up to a power of s, that of the
/// roots at r / s.
pub fn scaled_roots<T>()
    ensures { (R : CommutativeRing T) → (r s s_inverse : T) → R.product s s_inverse ≡ R.one
        → (roots : List T)
        → root_product R r (map (R.product s) roots)
        ≡ R.product (power R s (length roots)) (root_product R (R.product s_inverse r) roots) }
{}

/// The product over the missing points splits over the even and the odd indices of the domain.
pub fn missing_by_halves<T>()
    ensures points { (R : CommutativeRing T) → (r w : T) → (n : ℕ) → (filled : List Bool)
        → length filled ≡ n + n
        → missing_product R r w filled
        ≡ R.product (missing_product R r (R.product w w) (even_items filled))
        (root_product R r (map (R.product w)
        (missing_points R (R.product w w) (odd_items filled)))) }
    ensures scaled { (R : CommutativeRing T) → (r w w_inverse : T) → (n : ℕ) → (filled : List Bool)
        → R.product w w_inverse ≡ R.one → length filled ≡ n + n
        → missing_product R r w filled
        ≡ R.product (power R w (length (missing_points R (R.product w w) (odd_items filled))))
        (R.product (missing_product R r (R.product w w) (even_items filled))
        (missing_product R (R.product w_inverse r) (R.product w w) (odd_items filled))) }
{}

/// The product where no point is missing, and where all are.
pub fn missing_none_and_all<T>()
    ensures none { (R : CommutativeRing T) → (r w : T) → (n : ℕ)
        → missing_product R r w (replicate n true) ≡ R.one }
    ensures all { (R : CommutativeRing T) → (lg : ℕ) → (r w : T) → IsPrincipalRoot R lg w
        → missing_product R r w (replicate (2 ^ lg) false)
        ≡ R.sum (power R r (2 ^ lg)) (R.negative R.one) }
{}

/// A function that vanishes at some roots, times one that vanishes at others, taken at r / s,
/// vanishes at the first and at s times the others.
pub fn vanishing_merged<T>()
    ensures { (F : Field T) → (s s_inverse : T) → F.product s s_inverse ≡ F.one → (xs ys : List T)
        → (u v : T → T)
        → VanishesAt F.ring xs u → VanishesAt F.ring ys v
        → VanishesAt F.ring (xs ++ map (F.product s) ys)
        (λ r. F.product (u r) (v (F.product s_inverse r))) }
{}

/// The values of what vanishes at the missing points of a domain, which are zero at the missing
/// points and at no others.
pub fn vanishing_values<T>()
    ensures values { (R : CommutativeRing T) → (w : T) → (filled : List Bool) → (v : T → T)
        → VanishesAt R (missing_points R w filled) v
        → IsVanishing R w filled (v R.zero) (map v (powers R w (length filled))) }
    ensures zero { (F : Field T) → (w : T) → (filled : List Bool) → (at_zero : T)
        → (values : List T)
        → HasExactOrder F.ring w (length filled) → IsVanishing F.ring w filled at_zero values
        → (i : ℕ) → i < length filled
        → (slice_index_or values i F.zero ≡ F.zero) ↔ (slice_index_or filled i false ≡ false) }
{}
