//! Recovery of a polynomial from some of its values on a domain.
//!
//! The domain is that of the first n powers of w. Let f be the polynomial of as few coefficients as
//! there are filled cells that agrees with these, and v one that is zero at the missing points and
//! at no others. On the domain the values of f v are the cells times those of v, whatever stands in
//! the missing cells, and f v has at most n coefficients: so it can be interpolated. It can't be
//! divided by v on the domain, where both are zero at the missing points, but on a coset of the
//! domain v is nowhere zero, and the quotients are the values of f.

ghost use Rattle.std.specs.Prelude.{◌≡◌, ◌≢◌, ◌≤◌, ◌<◌, ◌+◌, ◌*◌, ℕ, List, Bool, false, length, All, slice_index_or};
ghost use Rattle.math_theory.specs.OverRing.{AreDistinct, power, powers, value, HaveSameCoefficients, polynomial_product, Fits, HasCoset, VanishesAtMissing, HasProductValues, DividesOnCoset};
ghost use Rattle.math_theory.specs.Recovery.{count_true};
ghost use Rattle.math_theory.specs.Rings.{Field};

/// A polynomial of n coefficients fits the filled cells, and all that fit have the same
/// coefficients.
pub fn fits<T>()
    ensures some { (F : Field T) → (w : T) → (cells : List T) → (filled : List Bool)
        → length filled ≡ length cells → AreDistinct (powers F.ring w (length cells))
        → (q : List T) × (length q ≡ length cells) × Fits F.ring w cells filled q }
    ensures once { (F : Field T) → (w : T) → (cells : List T) → (filled : List Bool)
        → length filled ≡ length cells → AreDistinct (powers F.ring w (length cells))
        → (p q : List T) → Fits F.ring w cells filled p → Fits F.ring w cells filled q
        → HaveSameCoefficients F.ring p q }
{}

/// Let f fit with as many coefficients as there are filled cells, and let v, with one coefficient
/// more than there are missing points, be zero at these. Then f v has as many coefficients as there
/// are cells, and its values on the domain are the cells times those of v.
pub fn product_of_fit<T>()
    ensures short { (F : Field T) → (filled : List Bool) → (f v : List T)
        → length f ≤ count_true filled → length v + count_true filled ≤ length filled + 1
        → length (polynomial_product F.ring f v) ≤ length filled }
    ensures values { (F : Field T) → (w : T) → (cells : List T) → (filled : List Bool)
        → (f v : List T)
        → length filled ≡ length cells → Fits F.ring w cells filled f
        → ((j : ℕ) → j < length cells → slice_index_or filled j false ≡ false
        → value F.ring (power F.ring w j) v ≡ F.zero)
        → (j : ℕ) → j < length cells
        → value F.ring (power F.ring w j) (polynomial_product F.ring f v)
        ≡ F.product (slice_index_or cells j F.zero) (value F.ring (power F.ring w j) v) }
{}

/// Where v is nowhere zero on n distinct points, a polynomial of at most n coefficients is
/// determined by its products with v there.
pub fn division<T>()
    ensures { (F : Field T) → (points p q v : List T) → AreDistinct points
        → length p ≤ length points → length q ≤ length points
        → All (λ x. value F.ring x v ≢ F.zero) points
        → All (λ x. F.product (value F.ring x p) (value F.ring x v)
        ≡ F.product (value F.ring x q) (value F.ring x v)) points
        → HaveSameCoefficients F.ring p q }
{}

/// What division on a coset, or on every d-th point of it, gives fits the filled cells, where there
/// is one, and no more of them than points at which is divided.
pub fn division_on_coset<T>()
    ensures { (F : Field T) → (w s u : T) → (d m : ℕ) → (cells : List T) → (filled : List Bool)
        → (v g q : List T)
        → length filled ≡ length cells → 0 < count_true filled → count_true filled ≤ m
        → 0 < d → d * m ≤ length cells
        → HasCoset F.ring w s (length cells)
        → VanishesAtMissing F.ring w (length cells) filled u v
        → HasProductValues F.ring w (length cells) cells v g
        → DividesOnCoset F.ring w s d m v g q
        → Fits F.ring w cells filled q }
{}
