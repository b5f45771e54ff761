//! Values of polynomials.
ghost use Rattle.math_base.specs.Polynomials.{HasFewZeros, HasConstantAtZero};

use crate::algebra::{Field, Ring, Space};

/// A list of m coefficients, not all same as zero, takes the value zero at no more than m - 1
/// points of which no two are same.
pub fn few_zeros<F: Field>()
    ensures { HasFewZeros F.Ring }
{}

/// The value at zero is the constant coefficient.
pub fn value_at_zero<R: Ring, K: Space<R>>()
    ensures { HasConstantAtZero K.Space R.Ring }
{}
