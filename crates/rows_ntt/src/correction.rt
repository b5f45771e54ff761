//! Polynomials recovered from rows of values of which some are wrong.

use crate::bounds::keep_recoveries;
use crate::recovery::{listed_rows, put_rows};
use crate::transforms::has_domain;
use crate::vectors::Values;
use math_base::algebra::Mem;
use math_ntt::ntt::{Corrected, Work};
use math_samples::elements::Element;
use rows_base::answer::{Answer, put};
use rows_base::fault::Fault;
use rows_base::refusals::{begin, end};
use rows_base::words::{number, split_at_mark};
use std::alloc::Global;

/// Runs a call of this module; `false` where it is none.
pub fn run<R: Element>(
    alloc: Global,
    call: &str,
    arguments: &str,
    answer: &mut Answer<R>,
) -> Result<bool, Fault> {
    match call {
        "correct" => correct(alloc, arguments, answer).and(Ok(true)),
        "correct_uncounted" => correct_uncounted(alloc, arguments, answer).and(Ok(true)),
        _ => Ok(false),
    }
}

/// What `correct` answers, where it may be called.
fn correct_values<R: Element>(
    alloc: Global,
    values: Values<R>,
    count: usize,
) -> Result<Option<Corrected<R>>, Fault> {
    if !has_domain::<R>(values.rows) || count > values.vector.filled_rows() {
        return Err(Fault::OutOfRange("no such domain, or too many coefficients"));
    }
    let given = begin(alloc, &());
    let found = values.vector.correct(alloc, count);
    end(alloc, given, &(), found.is_err());
    found.map_err(Fault::Memory)
}

/// How many recoveries a correction of m filled rows makes at most.
fn recoveries(filled: usize, count: usize) -> u64 {
    (filled.saturating_sub(count) as u64 / 2).saturating_add(1)
}

/// What `correct_counted` answers, where it may be called, and its work.
fn correct_values_counted<R: Element>(
    alloc: Global,
    values: Values<R>,
    count: usize,
) -> Result<(Option<Corrected<R>>, Work), Fault> {
    let (rows, cols) = (values.rows, values.cols);
    let filled = values.vector.filled_rows();
    if !has_domain::<R>(rows) || count > filled {
        return Err(Fault::OutOfRange("no such domain, or too many coefficients"));
    }
    let mut work = Work::new();
    let given = begin(alloc, &());
    let found = values.vector.correct_counted(alloc, count, &mut work);
    end(alloc, given, &(), found.is_err());
    keep_recoveries(alloc, &work, rows, cols, recoveries(filled, count));
    Ok((found?, work))
}

/// The number and the rows of `COUNT @ LG COLUMNS ROW: CELL .. ; ..`.
fn count_and_rows<R: Element>(alloc: Global, text: &str) -> Result<(usize, Values<R>), Fault> {
    let (count, rows) = split_at_mark(text, '@')?;
    let count = number(count.trim())? as usize;
    Ok((count, listed_rows::<R>(alloc, rows)?))
}

/// `correct COUNT @ LG COLUMNS ROW: CELL .. ; ..`: butterflies, and the rows of coefficients with the wrong rows, or
/// `none`.
fn correct<R: Element>(
    alloc: Global,
    arguments: &str,
    answer: &mut Answer<R>,
) -> Result<(), Fault> {
    let (count, values) = count_and_rows(alloc, arguments)?;
    let (found, work) = correct_values_counted(alloc, values, count)?;
    write!(answer.text, " {}", work.butterflies())?;
    put_found(alloc, &found, answer).map_err(Fault::Memory)
}

/// `correct_uncounted COUNT @ LG COLUMNS ROW: CELL .. ; ..`: without the butterflies, by the call
/// that counts none.
fn correct_uncounted<R: Element>(
    alloc: Global,
    arguments: &str,
    answer: &mut Answer<R>,
) -> Result<(), Fault> {
    let (count, values) = count_and_rows(alloc, arguments)?;
    put_found(alloc, &correct_values(alloc, values, count)?, answer).map_err(Fault::Memory)
}

/// Adds the rows of coefficients with the wrong rows, or `none`.
fn put_found<R: Element>(
    alloc: Global,
    found: &Option<Corrected<R>>,
    answer: &mut Answer<R>,
) -> Mem<()> {
    match found {
        Some(corrected) => put_corrected(alloc, corrected, answer),
        None => answer.text.push_str(" none"),
    }
}

/// Adds the rows of coefficients as `recover` does, `;`, and the wrong rows.
fn put_corrected<R: Element>(
    alloc: Global,
    corrected: &Corrected<R>,
    answer: &mut Answer<R>,
) -> Mem<()> {
    put_rows(alloc, &corrected.polynomials, answer)?;
    answer.text.push_str(" ;")?;
    for row in &corrected.wrong {
        put(&mut answer.text, *row as u64)?;
    }
    Ok(())
}
