//! Domains: the powers of a root of unity, and their cosets.
//!
//! A domain of N = 2^lg points is the list of the first N powers of w, where N is the least
//! positive exponent at which the power of w is one. Then no two of these powers are equal, since
//! the quotient of two of them is a power between. In a field the power at half of N, whose square
//! is one, is minus one; and from minus one at half, in turn, the exact order follows: an odd power
//! of w can't be one, and an even power is one of the square of w, by induction.

ghost use Rattle.std.specs.Prelude.{◌≡◌, ◌≢◌, ◌<◌, ◌≤◌, ◌^◌, ℕ, suc};
ghost use Rattle.math_theory.specs.DomainsOverRing.{coset, HasExactOrder, IsNoPower, IsPrincipalRoot};
ghost use Rattle.math_theory.specs.OverRing.{AreDistinct, HasCoset, power, powers, root_product};
ghost use Rattle.math_theory.specs.Rings.{CommutativeRing, Field};

/// The first n powers of a root of exact order n are distinct.
pub fn points_of_domain<T>()
    ensures { (R : CommutativeRing T) → (w : T) → (n : ℕ) → HasExactOrder R w n
        → AreDistinct (powers R w n) }
{}

/// Exact order from minus one at half, where one is not minus one, and the other way round in a
/// field; and minus one at half for roots of which each is the square of the next, from one and
/// minus one on.
pub fn orders_of_roots<T>()
    ensures exact { (R : CommutativeRing T) → R.one ≢ R.negative R.one → (lg : ℕ) → (w : T)
        → IsPrincipalRoot R lg w → HasExactOrder R w (2 ^ lg) }
    ensures principal { (F : Field T) → (lg : ℕ) → (w : T) → HasExactOrder F.ring w (2 ^ lg)
        → IsPrincipalRoot F.ring lg w }
    ensures squares { (R : CommutativeRing T) → (root : ℕ → T) → (greatest lg : ℕ)
        → root 0 ≡ R.one → (0 < greatest → root 1 ≡ R.negative R.one)
        → ((k : ℕ) → k < greatest → R.product (root (suc k)) (root (suc k)) ≡ root k)
        → lg ≤ greatest → IsPrincipalRoot R lg (root lg) }
{}

/// A coset whose shift is no power of the root meets no point of the domain, and its own points are
/// distinct.
pub fn points_of_coset<T>()
    ensures apart { (R : CommutativeRing T) → (w s : T) → (n : ℕ) → 0 < n → power R w n ≡ R.one
        → IsNoPower R w s
        → (i j : ℕ) → R.product s (power R w i) ≢ power R w j }
    ensures distinct { (R : CommutativeRing T) → (w s s_inverse : T) → (n : ℕ)
        → R.product s_inverse s ≡ R.one
        → HasExactOrder R w n → AreDistinct (coset R s w n) }
    ensures recovery { (R : CommutativeRing T) → (w s : T) → (n : ℕ) → HasExactOrder R w n
        → s ≢ R.zero → IsNoPower R w s → HasCoset R w s n }
{}

/// The product of r - x over all points x of a domain of N points is r^N - 1.
pub fn product_over_domain<T>()
    ensures principal { (R : CommutativeRing T) → (lg : ℕ) → (r w : T) → IsPrincipalRoot R lg w
        → root_product R r (powers R w (2 ^ lg)) ≡ R.sum (power R r (2 ^ lg)) (R.negative R.one) }
    ensures exact { (F : Field T) → (lg : ℕ) → (r w : T) → HasExactOrder F.ring w (2 ^ lg)
        → root_product F.ring r (powers F.ring w (2 ^ lg))
        ≡ F.sum (power F.ring r (2 ^ lg)) (F.negative F.one) }
{}
