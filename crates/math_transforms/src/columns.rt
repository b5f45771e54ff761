//! One polynomial by its coefficients, or by its values at the points of a domain.

ghost use Rattle.std.specs.Prelude.{◌≡◌, ◌<◌, ◌^◌, ℕ, List, Some, IfOk, length, slice_get};
ghost use Rattle.math_theory.specs.Recovery.{count_true};
ghost use Rattle.math_base.specs.Polynomials.{value_in_ring};
ghost use Rattle.math_transforms.specs.DomainValues.{one_column, HasDomain, AreValuesOnDomain};
ghost use Rattle.math_transforms.specs.MissingPoints.{IsVanishing};

use super::transform::{
    evaluate_rows, evaluation_table, interpolate_rows, interpolation_table, lg_of,
};
use super::vanishing::vanishing_values;
use super::vanishing_points::VanishingPoints;
use super::work::Work;
use math_base::algebra::{FieldNTT, Mem, Ring};
use std::alloc::Global;
use std::marker::Model;

/// The coefficients of one polynomial, from the constant upwards. Their number is a power of two,
/// and the last ones may be zero.
#[derive(Debug, Drop)]
pub struct PolynomialColumn<F: Drop> {
    pub(super) coefficients: Vec<F>,
}

/// The list of the coefficients.
impl<F: Drop> Model for PolynomialColumn<F> {
    ghost use Rattle.std.specs.Prelude.{List, length};
    ghost use Rattle.std.specs.Int.{IsPowerOfTwo};

    ghost Value = { List F };

    ghost view = { λ p. p.coefficients.items };

    ghost invariant = { λ p. IsPowerOfTwo (length p.coefficients.items) };
}

/// The values of one polynomial at the points of a domain. Their number is a power of two, and
/// value i is at power i of the root.
#[derive(Debug, Drop)]
pub struct EvaluationColumn<F: Drop> {
    pub(super) values: Vec<F>,
}

/// The list of the values.
impl<F: Drop> Model for EvaluationColumn<F> {
    ghost use Rattle.std.specs.Prelude.{List, length};
    ghost use Rattle.std.specs.Int.{IsPowerOfTwo};

    ghost Value = { List F };

    ghost view = { λ v. v.values.items };

    ghost invariant = { λ v. IsPowerOfTwo (length v.values.items) };
}

impl<F: Drop> PolynomialColumn<F> {
    /// Returns coefficient i, which is that of the power i. i is below the number of coefficients.
    ///
    /// ```
    /// let points = VanishingPoints::all_non_vanishing(alloc, 1)?;
    /// let (_, column) = EvaluationColumn::<F>::vanishing(alloc, &points)?;
    /// column.interpolate(alloc)?.coefficient(1); // 0
    /// ```
    pub fn coefficient(&self, i: usize) -> &F
        requires { i < length self.now }
        ensures { slice_get self.now i ≡ Some result.now }
    {
        &self.coefficients[i]
    }
}

impl<F: FieldNTT> PolynomialColumn<F> {
    /// Evaluates the polynomial at the powers of the root of order N, where N is the number of
    /// coefficients.
    ///
    /// lg N is at most `F::MAX_LG_ROOT_ORDER`. Takes memory for a table of N elements; the values
    /// stand where the coefficients stood.
    ///
    /// ```
    /// let mut points = VanishingPoints::new(alloc, 1)?;
    /// points.set_non_vanishing(0);
    /// let (_, column) = EvaluationColumn::<F>::vanishing(alloc, &points)?;
    /// column.interpolate(alloc)?.evaluate(alloc)?.values()[1]; // 0
    /// ```
    pub fn evaluate(self, alloc: Global) -> Mem<EvaluationColumn<F>>
        requires domain { HasDomain F.MAX_LG_ROOT_ORDER (length self) }
        ensures count { IfOk result (λ v. length v ≡ length self) }
        ensures values { IfOk result
            (λ v. AreValuesOnDomain F.Ring F.root (one_column self) (one_column v)) }
    {
        let mut cells = self.coefficients;
        let lg = lg_of(cells.len());
        let table = evaluation_table(alloc, lg)?;
        evaluate_rows(alloc, &mut cells, 1, lg, &table, &mut Work::new())?;
        Ok(EvaluationColumn { values: cells })
    }
}

impl<F: Drop> EvaluationColumn<F> {
    /// Returns the values, in natural order.
    pub fn values(&self) -> &[F]
        ensures { result.now ≡ self.now }
    {
        &self.values
    }
}

impl<F: FieldNTT> EvaluationColumn<F> {
    /// Makes the values of a polynomial that is zero at the points that are `false` and at no
    /// others.
    ///
    /// The answer is its value at zero, and its values at the powers of the root of order N, where
    /// N is the number of points. Up to a factor that is not zero, the polynomial is the product of
    /// X - x over the points x at which it is zero.
    ///
    /// lg N is at most `F::MAX_LG_ROOT_ORDER`, and some point is `true`. It takes memory for two
    /// tables of N elements, and for as many coefficients, most of them twice.
    ///
    /// ```
    /// let mut points = VanishingPoints::new(alloc, 1)?;
    /// points.set_non_vanishing(0);
    /// let (at_zero, column) = EvaluationColumn::<F>::vanishing(alloc, &points)?;
    /// column.values()[0] * at_zero.inv(); // 2
    /// column.values()[1]; // 0
    /// ```
    pub fn vanishing(alloc: Global, points: &VanishingPoints) -> Mem<(F, Self)>
        requires domain { HasDomain F.MAX_LG_ROOT_ORDER (length points.now) }
        requires some { 0 < count_true points.now }
        ensures vanishing { IfOk result (λ answer. (lg : ℕ) → length points.now ≡ 2 ^ lg
            → IsVanishing F.Ring (F.root lg) points.now answer.0 answer.1) }
    {
        let lg = points.lg_size() as u8;
        let (at_zero, values) = vanishing_values(alloc, points, lg)?;
        Ok((at_zero, EvaluationColumn { values }))
    }

    /// Finds the polynomial that has these values at the powers of the root of order N, where N is
    /// the number of values. It has N coefficients.
    ///
    /// lg N is at most `F::MAX_LG_ROOT_ORDER`. Takes memory for a table of N elements; the
    /// coefficients stand where the values stood.
    pub fn interpolate(self, alloc: Global) -> Mem<PolynomialColumn<F>>
        requires domain { HasDomain F.MAX_LG_ROOT_ORDER (length self) }
        ensures count { IfOk result (λ p. length p ≡ length self) }
        ensures values { IfOk result
            (λ p. AreValuesOnDomain F.Ring F.root (one_column p) (one_column self)) }
    {
        let mut cells = self.values;
        let lg = lg_of(cells.len());
        let table = interpolation_table(alloc, lg)?;
        interpolate_rows(alloc, &mut cells, 1, lg, &table, &mut Work::new())?;
        Ok(PolynomialColumn {
            coefficients: cells,
        })
    }
}

/// The value at x of the polynomial that has the values of the column at the points of its domain.
pub fn value_at<F: FieldNTT>(alloc: Global, column: EvaluationColumn<F>, x: &F) -> Mem<F>
    requires { HasDomain F.MAX_LG_ROOT_ORDER (length column) }
    ensures { IfOk result (λ v. (a : List F) × (length a ≡ length column)
        × AreValuesOnDomain F.Ring F.root (one_column a) (one_column column)
        × F.same v (value_in_ring F.Ring a x.now)) }
{
    let polynomial = column.interpolate(alloc)?;
    let out = horner(alloc, &polynomial.coefficients, x)?;
    Ok(out)
}

/// The value at x, by Horner's rule.
fn horner<F: Ring>(alloc: Global, coefficients: &[F], x: &F) -> Mem<F>
    ensures { IfOk result (λ v. F.same v (value_in_ring F.Ring coefficients.now x.now)) }
{
    let mut out = F::zero(alloc)?;
    for coefficient in coefficients.iter().rev() {
        out.mul_assign(alloc, x)?;
        out.add_assign(alloc, coefficient)?;
    }
    Ok(out)
}
