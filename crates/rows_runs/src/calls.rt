//! The calls that rows name: each module runs those of one subject.

mod breaches;
mod combinations;
mod interpolation;
mod root_weights;

use crate::row::Row;
use commonware_math::fields::goldilocks::F;
use math_samples::boxed::Boxed;
use math_samples::elements::Element;
use math_samples::quotients::Quotient;
use rows_base::answer::Answer;
use rows_base::fault::Fault;
use rows_base::{algebra, goldilocks, maps};
use rows_ntt::{bitmaps, correction, matrices, recovery, transforms, vectors};
use rows_poly::{decoding, encodings, groups, hostile, polynomials, sampling, shards, texts};
use rows_secrets::{byte_shares, commitments, element_shares, lines};
use std::alloc::Global;

/// Runs a call that adds words alone; `false` where it is none.
fn of_words(alloc: Global, row: Row<'_>, text: &mut String) -> Result<bool, Fault> {
    let Row {
        call,
        arguments,
        ..
    } = row;
    Ok(
        goldilocks::run(alloc, call, arguments, text)?
            || encodings::run(alloc, call, arguments, text)?
            || hostile::run(alloc, call, arguments, text)?
            || texts::run(alloc, call, arguments, text)?
            || maps::run(alloc, call, arguments, text)?
            || bitmaps::run(alloc, call, arguments, text)?
            || shards::run(alloc, call, arguments, text)?
            || lines::run(alloc, call, arguments, text)?
            || byte_shares::run(alloc, call, arguments, text)?
            || breaches::run(alloc, call, arguments, text)?,
    )
}

/// Runs a call that each field has; `false` where it is none.
fn at_any<R: Element>(alloc: Global, row: Row<'_>, answer: &mut Answer<R>) -> Result<bool, Fault> {
    let Row {
        call,
        arguments,
        ..
    } = row;
    Ok(
        algebra::run(alloc, call, arguments, answer)?
            || polynomials::run(alloc, call, arguments, answer)?
            || decoding::run(alloc, call, arguments, answer)?
            || combinations::run(alloc, call, arguments, answer)?
            || interpolation::run(alloc, call, arguments, answer)?
            || matrices::run(alloc, call, arguments, answer)?
            || vectors::run(alloc, call, arguments, answer)?
            || transforms::run(alloc, call, arguments, answer)?
            || recovery::run(alloc, call, arguments, answer)?
            || correction::run(alloc, call, arguments, answer)?
            || root_weights::run(alloc, call, arguments, answer)?
            || of_words(alloc, row, &mut answer.text)?,
    )
}

/// A field that rows are run at.
pub trait Field: Element {
    /// What rows call it.
    const NAME: &'static str;

    /// Runs the call of a row; `false` where there is none.
    fn run(alloc: Global, row: Row<'_>, answer: &mut Answer<Self>) -> Result<bool, Fault>;
}

impl Field for F {
    const NAME: &'static str = "field";

    fn run(alloc: Global, row: Row<'_>, answer: &mut Answer<F>) -> Result<bool, Fault> {
        Ok(
            at_any(alloc, row, answer)?
                || sampling::run(alloc, row.call, row.arguments, answer)?
                || element_shares::run(alloc, row.call, row.arguments, answer)?,
        )
    }
}

impl Field for Boxed<F> {
    const NAME: &'static str = "boxed";

    fn run(alloc: Global, row: Row<'_>, answer: &mut Answer<Boxed<F>>) -> Result<bool, Fault> {
        Ok(
            at_any(alloc, row, answer)?
                || sampling::run(alloc, row.call, row.arguments, answer)?
                || groups::run(alloc, row.call, row.arguments, answer)?
                || element_shares::run(alloc, row.call, row.arguments, answer)?
                || commitments::run(alloc, row.call, row.arguments, answer)?,
        )
    }
}

impl Field for Quotient {
    const NAME: &'static str = "quotients";

    fn run(alloc: Global, row: Row<'_>, answer: &mut Answer<Quotient>) -> Result<bool, Fault> {
        Ok(
            at_any(alloc, row, answer)?
                || groups::run(alloc, row.call, row.arguments, answer)?
                || element_shares::run(alloc, row.call, row.arguments, answer)?
                || commitments::run(alloc, row.call, row.arguments, answer)?,
        )
    }
}
