//! Transforms: values at all points of a domain, by halves.
//!
//! The value of a polynomial at r is that of its coefficients of even index at r², plus r times
//! that of its coefficients of odd index at r². So the values at the N powers of w come from those
//! of both halves at the N / 2 powers of w²: the power i + N / 2 of w is minus its power i, and
//! gives a - b where the power i gives a + b. The coefficients of even index stand in the lower
//! half of the cells where these are in bit-reversed order.
//!
//! The way back takes the sums and the differences of both halves, the latter times powers of the
//! inverse root, and goes on with each. It undoes the transform, but for a factor two at each of
//! the lg levels.

ghost use Rattle.std.specs.Prelude.{◌≡◌, ◌<◌, ◌^◌, ℕ, List, length, slice_index_or};
ghost use Rattle.math_theory.specs.BitReversal.{bit_reversed, bit_reversed_order, even_items, odd_items};
ghost use Rattle.math_theory.specs.DomainsOverRing.{inverse_transform, IsPrincipalRoot, power_of_two, transform};
ghost use Rattle.math_theory.specs.OverRing.{polynomial_multiple, powers, value, values_at};
ghost use Rattle.math_theory.specs.Rings.{CommutativeRing};

/// The value of a polynomial by its coefficients of even and of odd index.
pub fn value_by_halves<T>()
    ensures { (R : CommutativeRing T) → (r : T) → (p : List T)
        → value R r p
        ≡ R.sum (value R (R.product r r) (even_items p))
        (R.product r (value R (R.product r r) (odd_items p))) }
{}

/// Bit-reversed order takes the item at place i from the place whose bits are those of i in the
/// opposite order, and is undone by itself.
pub fn bit_reversal<T>()
    ensures below { (lg i : ℕ) → bit_reversed lg i < 2 ^ lg }
    ensures twice { (lg i : ℕ) → i < 2 ^ lg → bit_reversed lg (bit_reversed lg i) ≡ i }
    ensures place { (d : T) → (lg : ℕ) → (items : List T) → (i : ℕ) → length items ≡ 2 ^ lg
        → i < 2 ^ lg
        → slice_index_or (bit_reversed_order lg items) i d
        ≡ slice_index_or items (bit_reversed lg i) d }
    ensures order_twice { (lg : ℕ) → (items : List T) → length items ≡ 2 ^ lg
        → bit_reversed_order lg (bit_reversed_order lg items) ≡ items }
{}

/// The transform of coefficients in bit-reversed order gives their values at the powers of the
/// root.
pub fn transform_to_values<T>()
    ensures { (R : CommutativeRing T) → (lg : ℕ) → (w : T) → (cells : List T)
        → length cells ≡ 2 ^ lg → IsPrincipalRoot R lg w
        → transform R lg w cells ≡ values_at R (powers R w (2 ^ lg)) (bit_reversed_order lg cells) }
{}

/// By the inverse root the transform is undone both ways, up to the factor 2^lg.
pub fn transform_and_back<T>()
    ensures undone { (R : CommutativeRing T) → (lg : ℕ) → (w w_inverse : T) → (cells : List T)
        → R.product w w_inverse ≡ R.one → length cells ≡ 2 ^ lg
        → inverse_transform R lg w_inverse (transform R lg w cells)
        ≡ polynomial_multiple R cells (power_of_two R lg) }
    ensures redone { (R : CommutativeRing T) → (lg : ℕ) → (w w_inverse : T) → (cells : List T)
        → R.product w w_inverse ≡ R.one → length cells ≡ 2 ^ lg
        → transform R lg w (inverse_transform R lg w_inverse cells)
        ≡ polynomial_multiple R cells (power_of_two R lg) }
{}

/// What the way back gives, put in natural order, has the cells, times 2^lg, as its values at the
/// powers of the root.
pub fn values_to_coefficients<T>()
    ensures { (R : CommutativeRing T) → (lg : ℕ) → (w w_inverse : T) → (cells : List T)
        → IsPrincipalRoot R lg w → R.product w w_inverse ≡ R.one → length cells ≡ 2 ^ lg
        → values_at R (powers R w (2 ^ lg))
        (bit_reversed_order lg (inverse_transform R lg w_inverse cells))
        ≡ polynomial_multiple R cells (power_of_two R lg) }
{}

/// The inversion formula: values at the powers of the inverse root, of values at the powers of the
/// root, are the coefficients times 2^lg.
pub fn values_of_values<T>()
    ensures { (R : CommutativeRing T) → (lg : ℕ) → (w w_inverse : T) → (p : List T)
        → IsPrincipalRoot R lg w → R.product w w_inverse ≡ R.one → length p ≡ 2 ^ lg
        → values_at R (powers R w_inverse (2 ^ lg)) (values_at R (powers R w (2 ^ lg)) p)
        ≡ polynomial_multiple R p (power_of_two R lg) }
{}
