//! Values of polynomials whose coefficients are words.
//!
//! A `PowerTable` gives the values: no coefficient is copied, and each block of words is tested
//! while it is summed.

ghost use Rattle.std.specs.Prelude.{◌≡◌, None, IfOk, IfSome};
ghost use Rattle.math_fields.specs.Elements.{number, residue};
ghost use Rattle.math_base.specs.Polynomials.{value_in_ring};
ghost use Rattle.c_calls.specs.WordElements.{AreElements, elements, goldilocks};

use commonware_math::algebra::Mem;
use commonware_math::fields::goldilocks::F;
use math_values::values::PowerTable;
use math_values::words::Word;
use std::alloc::Global;

/// The value at x of the polynomial with these coefficients, where each is below P. They are gone
/// over once.
pub fn value(alloc: Global, coefficients: &[u64], x: u64) -> Mem<Option<u64>>
    ensures some { IfOk result (λ answer. IfSome answer (λ v. AreElements coefficients.now
        × (v ≡ number (value_in_ring goldilocks (elements coefficients.now) (residue x))))) }
    ensures none { IfOk result (λ answer. answer ≡ None → ¬ (AreElements coefficients.now)) }
{
    let table = PowerTable::for_list(alloc, F::from(x), coefficients.len())?;
    let Some(value) = table.value_of_words_below(coefficients) else {
        return Ok(None);
    };
    Ok(Some(value.word()))
}
