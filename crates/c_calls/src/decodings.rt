//! Polynomials from values of which some are wrong, as words.

ghost use Rattle.std.specs.Prelude.{◌≡◌, ◌≢◌, ◌↔◌, ◌⊎◌, IsTrue, IfOk, OnErr, length};
ghost use Rattle.math_theory.specs.Interpolation.{AreApart};
ghost use Rattle.math_fields.specs.Elements.{same};
ghost use Rattle.c_calls.specs.WordDecodings.{AreDecodedWords, HasDecodingSizes, HasNearWords};
ghost use Rattle.c_calls.specs.WordElements.{AreElements, elements};
ghost use Rattle.c_calls.specs.declared.status.Status.TheVariants.{Done, Inconsistent, Repeated};

use crate::elements::{elements, write_numbers};
use crate::status::Status;
use commonware_math::algebra::Mem;
use math_decoding::decoding::decode;
use math_decoding::points::are_distinct;
use std::alloc::Global;

/// Whether there are as many values as points, no more coefficients than these, and room for half
/// of the others.
pub fn are_decoding_sizes(points: usize, values: usize, coefficients: usize, wrong: usize) -> bool
    ensures { IsTrue result ↔ HasDecodingSizes points values coefficients wrong }
{
    values == points && coefficients <= points && (points - coefficients) / 2 <= wrong
}

/// Writes the coefficients of the polynomial that differs from so few values, and the places at
/// which it does.
pub fn decode_words(
    alloc: Global,
    points: &[u64],
    values: &[u64],
    coefficients: &mut [u64],
    wrong: &mut [usize],
    count: &mut usize,
) -> Mem<Status>
    requires points { AreElements points.now }
    requires values { AreElements values.now }
    requires sizes { HasDecodingSizes (length points.now) (length values.now)
        (length coefficients.old) (length wrong.old) }
    ensures done { IfOk result (λ status. status ≡ Done
        → AreDecodedWords points.now values.now coefficients.new wrong.old wrong.new count.new) }
    ensures kept { IfOk result (λ status. status ≢ Done
        → (coefficients.new ≡ coefficients.old) × (wrong.new ≡ wrong.old)
        × (count.new ≡ count.old)) }
    ensures err { OnErr result
        ((coefficients.new ≡ coefficients.old) × (wrong.new ≡ wrong.old)
        × (count.new ≡ count.old)) }
    ensures repeated { IfOk result (λ status. status ≡ Repeated
        → ¬ (AreApart same (elements points.now))) }
    ensures distinct { IfOk result (λ status. status ≡ Inconsistent
        → AreApart same (elements points.now)) }
    ensures none { IfOk result (λ status. status ≡ Inconsistent
        → ¬ (HasNearWords points.now values.now (length coefficients.old))) }
    ensures statuses { IfOk result
        (λ status. (status ≡ Done) ⊎ ((status ≡ Repeated) ⊎ (status ≡ Inconsistent))) }
{
    let points = elements(alloc, points)?;
    let values = elements(alloc, values)?;
    if !are_distinct(alloc, &points)? {
        return Ok(Status::Repeated);
    }
    let Some(found) = decode(alloc, &points, &values, coefficients.len())? else {
        return Ok(Status::Inconsistent);
    };
    write_numbers(coefficients, &found.coefficients);
    let places = found.wrong.len();
    wrong[..places].copy_from_slice(&found.wrong);
    *count = places;
    Ok(Status::Done)
}
