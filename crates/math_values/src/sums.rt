//! Sums of products of elements.
//!
//! The products are summed as whole numbers, with the carries past 128 bits counted, so that only
//! the sum is reduced modulo P, once for all products.

ghost use Rattle.std.specs.Prelude.{◌≡◌, ◌≤◌, length};
ghost use Rattle.math_fields.specs.Elements.{residue, sum, product};
ghost use Rattle.math_theory.specs.Sums.{weighted_sum};

use crate::products::paired_products;
use math_fields::goldilocks::F;

/// Returns the sum of each element times its weight: the first element times the first weight, and
/// so on.
///
/// There are at least as many weights as elements; further weights do not count. If there are no
/// elements, it is zero.
///
/// ```
/// use math_values::sums::sum_of_products;
/// sum_of_products(&[F::from(2), F::from(3)], &[F::from(4), F::from(6)]); // 26
/// ```
pub fn sum_of_products(elements: &[F], weights: &[F]) -> F
    requires { length elements.now ≤ length weights.now }
    ensures { result ≡ weighted_sum (residue 0) sum product elements.now weights.now }
{
    paired_products(elements, weights).remainder()
}
