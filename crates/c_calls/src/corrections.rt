//! Polynomials recovered from rows of words of which some are wrong.

ghost use Rattle.std.specs.Prelude.{◌≡◌, ◌≢◌, ◌⊎◌, ◌+◌, ◌*◌, ◌<◌, ◌≤◌, IfOk, OnErr, length};
ghost use Rattle.math_theory.specs.Recovery.{count_true};
ghost use Rattle.c_calls.specs.WordCorrections.{AreCorrectedWords, HaveNearRows};
ghost use Rattle.c_calls.specs.WordRows.{AreFilledElements, truth};
ghost use Rattle.c_calls.specs.declared.status.Status.TheVariants.{Done, Inconsistent, TooFew};

use crate::elements::write_numbers;
use crate::rows::{FilledRows, filled_elements, matrix_of, points};
use crate::status::Status;
use commonware_math::algebra::Mem;
use commonware_math::ntt::{Corrected, EvaluationVector};
use std::alloc::Global;

/// Puts the coefficients of the polynomials that fit all filled rows but so few in place of the
/// cells, and writes these rows.
pub fn correct_words(
    alloc: Global,
    cells: &mut [u64],
    filled: &FilledRows<'_>,
    count: usize,
    wrong: &mut [usize],
    written: &mut usize,
) -> Mem<Status>
    requires whole { length cells.old ≡ length filled.now.bytes.now * filled.now.cols }
    requires below { AreFilledElements filled.now.cols cells.old filled.now.bytes.now }
    requires room { length filled.now.bytes.now ≤ 2 * length wrong.old + 1 }
    ensures done { IfOk result (λ status. status ≡ Done → AreCorrectedWords filled.now.cols count
        cells.old filled.now.bytes.now cells.new wrong.old wrong.new written.new) }
    ensures kept { IfOk result (λ status. status ≢ Done
        → (cells.new ≡ cells.old) × (wrong.new ≡ wrong.old) × (written.new ≡ written.old)) }
    ensures err { OnErr result
        ((cells.new ≡ cells.old) × (wrong.new ≡ wrong.old) × (written.new ≡ written.old)) }
    ensures too_few { IfOk result (λ status. status ≡ TooFew
        → count_true (truth filled.now.bytes.now) < count) }
    ensures enough { IfOk result (λ status. status ≡ Inconsistent
        → count ≤ count_true (truth filled.now.bytes.now)) }
    ensures none { IfOk result (λ status. status ≡ Inconsistent
        → ¬ (HaveNearRows filled.now.cols count cells.old filled.now.bytes.now)) }
    ensures statuses { IfOk result
        (λ status. (status ≡ Done) ⊎ ((status ≡ TooFew) ⊎ (status ≡ Inconsistent))) }
{
    let FilledRows { lg, cols, bytes } = *filled;
    let items = filled_elements(alloc, cells, cols, bytes)?;
    let matrix = matrix_of(items, bytes.len(), cols);
    let points = points(alloc, lg, bytes)?;
    if count as u64 > points.count_non_vanishing() {
        return Ok(Status::TooFew);
    }
    let values = EvaluationVector::from_parts(matrix, points);
    let Some(corrected) = values.correct(alloc, count)? else {
        return Ok(Status::Inconsistent);
    };
    let Corrected {
        polynomials,
        wrong: rows,
    } = corrected;
    let coefficients = polynomials.data().into_cells();
    write_numbers(cells, &coefficients);
    let places = rows.len();
    wrong[..places].copy_from_slice(&rows);
    *written = places;
    Ok(Status::Done)
}
