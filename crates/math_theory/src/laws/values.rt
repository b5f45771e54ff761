//! Values of polynomials over a commutative ring.
//!
//! A polynomial is the list of its coefficients from the constant upwards, and its value at r is
//! the sum of coefficient i times the i-th power of r. Values go over sums, products and multiples
//! of polynomials.

ghost use Rattle.std.specs.Prelude.{◌≡◌, List, ◌∷◌};
ghost use Rattle.math_theory.specs.OverRing.{value, polynomial_sum, polynomial_negative, polynomial_difference, polynomial_product, polynomial_multiple, polynomial_dilation};
ghost use Rattle.math_theory.specs.Rings.{CommutativeRing};

/// Horner's rule: the value of a + X p is a and r times the value of p.
pub fn horners_rule<T>()
    ensures { (R : CommutativeRing T) → (r a : T) → (p : List T)
        → value R r (a ∷ p) ≡ R.sum a (R.product r (value R r p)) }
{}

/// The value of a sum, a negative or a difference is that of the values.
pub fn values_of_sums<T>()
    ensures sum { (R : CommutativeRing T) → (r : T) → (p q : List T)
        → value R r (polynomial_sum R p q) ≡ R.sum (value R r p) (value R r q) }
    ensures negative { (R : CommutativeRing T) → (r : T) → (p : List T)
        → value R r (polynomial_negative R p) ≡ R.negative (value R r p) }
    ensures difference { (R : CommutativeRing T) → (r : T) → (p q : List T)
        → value R r (polynomial_difference R p q) ≡ R.sum (value R r p) (R.negative (value R r q)) }
{}

/// The value of a product is the product of the values, and the value of a multiple is that
/// multiple of the value.
pub fn values_of_products<T>()
    ensures product { (R : CommutativeRing T) → (r : T) → (p q : List T)
        → value R r (polynomial_product R p q) ≡ R.product (value R r p) (value R r q) }
    ensures multiple { (R : CommutativeRing T) → (r : T) → (p : List T) → (s : T)
        → value R r (polynomial_multiple R p s) ≡ R.product (value R r p) s }
{}

/// Where coefficient i is multiplied by the i-th power of s, the value at r is the former value at
/// s r.
pub fn values_of_dilations<T>()
    ensures { (R : CommutativeRing T) → (r s : T) → (p : List T)
        → value R r (polynomial_dilation R s p) ≡ value R (R.product s r) p }
{}
