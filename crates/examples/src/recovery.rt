//! Lost rows.

ghost use Rattle.std.specs.Prelude.{◌≡◌, ◌<◌, IfOk, length};
ghost use Rattle.math_theory.specs.Recovery.{count_true};
ghost use Rattle.math_transforms.specs.DomainValues.{HasDomain};
ghost use Rattle.math_ntt.specs.PolynomialRows.{HaveFewCoefficients, HaveSamePolynomials};

use commonware_math::algebra::{FieldNTT, Mem};
use commonware_math::ntt::{EvaluationVector, PolynomialVector, VanishingPoints};
use math_ntt::laws::recovery::recovered_values;
use std::alloc::Global;

/// Evaluates the polynomials on their domain, keeps only the rows that `kept` marks, and recovers
/// the polynomials from these.
///
/// Where each polynomial has at most as many coefficients as rows are kept, zeros at the end aside,
/// it gives the polynomials back.
pub fn keep_and_recover<F: FieldNTT>(
    alloc: Global,
    polynomials: PolynomialVector<F>,
    kept: VanishingPoints,
) -> Mem<PolynomialVector<F>>
    requires domain { HasDomain F.MAX_LG_ROOT_ORDER polynomials.rows }
    requires count { length kept ≡ polynomials.rows }
    ensures { IfOk result (λ answer.
        HaveFewCoefficients F.same F.zero (count_true kept) polynomials
        → HaveSamePolynomials F.same F.zero answer polynomials) }
{
    let values = polynomials.evaluate(alloc)?;
    let left = EvaluationVector::from_parts(values.data(), kept);
    let answer = left.recover(alloc)?;
    recovered_values::<F>();
    Ok(answer)
}
