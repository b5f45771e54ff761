//! Evaluation and interpolation over a domain undo each other.

ghost use Rattle.math_transforms.specs.DomainValues.{HasOnePolynomial, HasOneValues};

use math_base::algebra::FieldNTT;

/// Polynomials of 2^lg coefficients that have the same values at the powers of the root of order
/// 2^lg have the same coefficients. So interpolation after evaluation gives the coefficients back:
/// both the polynomial that was evaluated and the one that is interpolated have those values.
pub fn interpolation_undoes_evaluation<F: FieldNTT>()
    ensures { HasOnePolynomial F.Ring F.root F.MAX_LG_ROOT_ORDER }
{}

/// A polynomial has one list of values at the powers of a root. So evaluation after interpolation
/// gives the values back: both lists are the values of the polynomial that was interpolated.
pub fn evaluation_undoes_interpolation<F: FieldNTT>()
    ensures { HasOneValues F.Ring F.root }
{}
