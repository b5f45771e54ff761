//! Values of polynomials at the points of domains, and polynomials that vanish at some.

ghost use Rattle.std.specs.Prelude.{◌≡◌, ◌≤◌, length, IsTrue};
ghost use Rattle.math_transforms.specs.DomainValues.{HasDomain};

use crate::bitmaps::{empty, set};
use crate::bounds::keep_evaluation;
use crate::matrices::{matrix, put_matrix};
use crate::refusing::evaluate_refused;
use crate::vectors::padded_columns;
use math_base::algebra::{Field, Mem, Multiplicative, Object};
use math_ntt::ntt::{
    EvaluationColumn, EvaluationVector, Matrix, PolynomialColumn, VanishingPoints, Work,
};
use math_samples::elements::Element;
use rows_base::answer::{Answer, put};
use rows_base::fault::Fault;
use rows_base::refusals::{begin, end};
use rows_base::words::{number, split_at_mark};
use std::alloc::Global;

/// Runs a call of this module; `false` where it is none.
pub fn run<R: Element>(
    alloc: Global,
    call: &str,
    arguments: &str,
    answer: &mut Answer<R>,
) -> Result<bool, Fault> {
    let done = match call {
        "evaluate" => evaluate(alloc, arguments, answer),
        "evaluate_work" => evaluate_work::<R>(alloc, arguments, &mut answer.text),
        "evaluate_refused" => evaluate_refused::<R>(alloc, arguments, &mut answer.text),
        "vanishing" => put_vanishing(alloc, arguments, answer),
        "vanishing_polynomial" => put_polynomial(alloc, arguments, answer),
        _ => return Ok(false),
    };
    done.and(Ok(true))
}

/// Whether the field has a root of unity of order `rows`, which is a power of two.
pub fn has_domain<R: Element>(rows: usize) -> bool
    ensures { IsTrue result → HasDomain R.MAX_LG_ROOT_ORDER rows }
{
    let lg = rows.trailing_zeros() as u8;
    lg <= R::MAX_LG_ROOT_ORDER
}

/// The columns as polynomials of n coefficients at least, evaluated, and the work in `work`.
pub(crate) fn evaluated_columns<R: Element>(
    alloc: Global,
    m: &Matrix<R>,
    n: usize,
    work: &mut Work,
) -> Result<EvaluationVector<R>, Fault>
    requires { work.old.butterflies ≡ 0 }
{
    let Some(rows) = n.checked_next_power_of_two() else {
        return Err(Fault::OutOfRange("too many rows"));
    };
    if !has_domain::<R>(rows) {
        return Err(Fault::OutOfRange("no such domain"));
    }
    let Some(v) = padded_columns(alloc, m, n)? else {
        return Err(Fault::OutOfRange("no polynomials"));
    };
    let given = begin(alloc, &());
    let values = v.evaluate_counted(alloc, work);
    end(alloc, given, &(), values.is_err());
    keep_evaluation(alloc, work, rows, m.cols());
    values.map_err(Fault::Memory)
}

/// Number and matrix of `N @ M`.
pub(crate) fn columns<R: Element>(alloc: Global, text: &str) -> Result<(usize, Matrix<R>), Fault> {
    let (n, m) = split_at_mark(text, '@')?;
    let n = number(n.trim())? as usize;
    Ok((n, matrix::<R>(alloc, m)?))
}

/// The columns of M of `N @ M` as polynomials of N coefficients at least, evaluated: their values,
/// and the work that it took.
fn evaluate_columns<R: Element>(
    alloc: Global,
    arguments: &str,
) -> Result<(EvaluationVector<R>, Work), Fault> {
    let (n, m) = columns::<R>(alloc, arguments)?;
    let mut work = Work::new();
    let values = evaluated_columns(alloc, &m, n, &mut work)?;
    Ok((values, work))
}

/// Adds how many butterflies it took, and how many rows are filled.
fn put_counts<R: Element>(values: &EvaluationVector<R>, work: &Work, text: &mut String) -> Mem<()> {
    write!(text, " {}", work.butterflies())?;
    put(text, values.filled_rows() as u64)
}

/// `evaluate N @ M`: the columns of M as polynomials of N coefficients at least, evaluated: how
/// many butterflies that took, how many rows are filled, and the matrix of the values.
fn evaluate<R: Element>(
    alloc: Global,
    arguments: &str,
    answer: &mut Answer<R>,
) -> Result<(), Fault> {
    let (values, work) = evaluate_columns::<R>(alloc, arguments)?;
    put_counts(&values, &work, &mut answer.text)?;
    put_matrix(alloc, &values.data(), answer).map_err(Fault::Memory)
}

/// `evaluate_work N @ M`: without the matrix.
fn evaluate_work<R: Element>(
    alloc: Global,
    arguments: &str,
    text: &mut String,
) -> Result<(), Fault> {
    let (values, work) = evaluate_columns::<R>(alloc, arguments)?;
    put_counts(&values, &work, text).map_err(Fault::Memory)
}

/// The points of which those in the list do not vanish, from `LG ; [I, ..]`.
fn points(alloc: Global, text: &str) -> Result<VanishingPoints, Fault> {
    let (lg, list) = split_at_mark(text, ';')?;
    let mut points = empty(alloc, lg)?;
    for word in list.split(',') {
        let word = word.trim().trim_start_matches('[').trim_end_matches(']');
        set(&mut points, number(word)?)?;
    }
    Ok(points)
}

/// The inverse of the value at zero, and the values, of what vanishes at the other points.
fn vanishing<R: Element>(
    alloc: Global,
    points: &VanishingPoints,
) -> Result<(R, EvaluationColumn<R>), Fault> {
    if points.count_non_vanishing() == 0 || !has_domain::<R>(1 << points.lg_size()) {
        return Err(Fault::OutOfRange("no such domain"));
    }
    let given = begin(alloc, points);
    let answer = EvaluationColumn::<R>::vanishing(alloc, points);
    end(alloc, given, points, answer.is_err());
    let (at_zero, values) = answer?;
    Ok((at_zero.inv(alloc)?, values))
}

/// An element times another.
fn multiple_of<R: Element>(alloc: Global, x: &R, scale: &R) -> Mem<R> {
    x.clone(alloc)?.mul(alloc, scale)
}

/// Adds the scaled values at the points that do not vanish, with their indices.
fn put_values<R: Element>(
    alloc: Global,
    points: &VanishingPoints,
    values: &[R],
    scale: &R,
    answer: &mut Answer<R>,
) -> Mem<()> {
    for index in 0..1u64 << points.lg_size() {
        if points.get(index)
            && let Some(value) = values.get(index as usize)
        {
            answer.add_keyed(index, multiple_of(alloc, value, scale)?)?;
        }
    }
    Ok(())
}

/// Adds the values of what vanishes at the other points, each over the value at zero.
fn put_over_value_at_zero<R: Element>(
    alloc: Global,
    points: &VanishingPoints,
    answer: &mut Answer<R>,
) -> Result<(), Fault> {
    let (scale, values) = vanishing::<R>(alloc, points)?;
    put_values(alloc, points, values.values(), &scale, answer).map_err(Fault::Memory)
}

/// `vanishing LG ; [I, ..]`: the values of what vanishes at the points that are not listed, at those that
/// are, each over the value at zero.
fn put_vanishing<R: Element>(
    alloc: Global,
    arguments: &str,
    answer: &mut Answer<R>,
) -> Result<(), Fault> {
    answer.text.push_str(" values over the value at zero")?;
    let points = points(alloc, arguments)?;
    put_over_value_at_zero(alloc, &points, answer)
}

/// Adds an element times another.
fn put_scaled<R: Element>(alloc: Global, x: &R, scale: &R, answer: &mut Answer<R>) -> Mem<()> {
    answer.element(multiple_of(alloc, x, scale)?)
}

/// Adds elements, scaled.
fn put_all_scaled<R: Element>(
    alloc: Global,
    xs: &[R],
    scale: &R,
    answer: &mut Answer<R>,
) -> Mem<()> {
    for x in xs {
        put_scaled(alloc, x, scale, answer)?;
    }
    Ok(())
}

/// Adds the first coefficients, scaled, and `:`.
fn put_coefficients<R: Element>(
    alloc: Global,
    polynomial: &PolynomialColumn<R>,
    count: usize,
    scale: &R,
    answer: &mut Answer<R>,
) -> Mem<()>
    requires { count ≤ length polynomial.now }
{
    for i in 0..count {
        put_scaled(alloc, polynomial.coefficient(i), scale, answer)?;
    }
    answer.text.push_str(" :")
}

/// `vanishing_polynomial LG ; [I, ..]`: its coefficients, and after `:` its values at all points, each over
/// the value at zero.
fn put_polynomial<R: Element>(
    alloc: Global,
    arguments: &str,
    answer: &mut Answer<R>,
) -> Result<(), Fault> {
    let (scale, values) = vanishing::<R>(alloc, &points(alloc, arguments)?)?;
    let count = values.values().len();
    if !has_domain::<R>(count) {
        return Err(Fault::OutOfRange("no such domain"));
    }
    let given = begin(alloc, &());
    let polynomial = values.interpolate(alloc);
    end(alloc, given, &(), polynomial.is_err());
    let polynomial = polynomial?;
    put_coefficients(alloc, &polynomial, count, &scale, answer)?;
    let given = begin(alloc, &());
    let values = polynomial.evaluate(alloc);
    end(alloc, given, &(), values.is_err());
    put_all_scaled(alloc, values?.values(), &scale, answer).map_err(Fault::Memory)
}
