//! Interpolation at keyed points.

use commonware_math::algebra::{Mem, Space};
use commonware_math::ordered::Map;
use commonware_math::poly::Interpolator;
use math_samples::elements::Element;
use rows_base::answer::Answer;
use rows_base::fault::Fault;
use rows_base::refusals::{begin, end};
use rows_base::words::{element, elements, keyed_elements, split_at_mark};
use rows_poly::polynomials::{polynomials, put_stored};
use std::alloc::Global;

/// Runs a call of this module; `false` where it is none.
pub fn run<R: Element>(
    alloc: Global,
    call: &str,
    arguments: &str,
    answer: &mut Answer<R>,
) -> Result<bool, Fault> {
    match call {
        "weights" => weights(alloc, arguments, answer)?,
        "interpolator" => interpolator(alloc, arguments, answer)?,
        "interpolator_at" => put_at(alloc, arguments, answer)?,
        "interpolate" => interpolate(alloc, arguments, answer)?,
        "interpolate_poly" => interpolate_polynomials(alloc, arguments, answer)?,
        _ => return Ok(false),
    }
    Ok(true)
}

/// Pairs of the numbers from 0 upwards and of these values.
fn with_numbers<V: Drop>(alloc: Global, values: Vec<V>) -> Mem<Vec<(u64, V)>> {
    let mut out = Vec::new(alloc);
    for (i, value) in values.into_iter().enumerate() {
        out.push((i as u64, value))?;
    }
    Ok(out)
}

/// `interpolator_at X @ K:P ..`: the interpolator for the value at X.
fn interpolator_at<R: Element>(
    alloc: Global,
    arguments: &str,
) -> Result<Interpolator<u64, R>, Fault> {
    let (x, points) = split_at_mark(arguments, '@')?;
    let x = element::<R>(alloc, x)?;
    let points = keyed_elements::<R>(alloc, points)?;
    let given = begin(alloc, &x);
    let out = Interpolator::at(alloc, points, &x);
    end(alloc, given, &x, out.is_err());
    Ok(out?)
}

/// The interpolator for the value at zero.
fn at_zero<R: Element>(alloc: Global, points: Vec<(u64, R)>) -> Mem<Interpolator<u64, R>> {
    let given = begin(alloc, &());
    let out = Interpolator::new(alloc, points);
    end(alloc, given, &(), out.is_err());
    out
}

/// Adds the weights with their keys.
pub fn put_weights<R: Element>(
    alloc: Global,
    interpolator: &Interpolator<u64, R>,
    answer: &mut Answer<R>,
) -> Mem<()> {
    let weights = interpolator.weights();
    for (key, weight) in weights.keys().iter().zip(weights.values()) {
        answer.add_keyed(*key, weight.clone(alloc)?)?;
    }
    Ok(())
}

/// `weights P ..`: the weights at zero of these points, under the keys 0, 1 and so on.
fn weights<R: Element>(
    alloc: Global,
    arguments: &str,
    answer: &mut Answer<R>,
) -> Result<(), Fault> {
    let points = with_numbers(alloc, elements::<R>(alloc, arguments)?)?;
    let interpolator = at_zero(alloc, points)?;
    answer.copies(alloc, interpolator.weights().values())?;
    Ok(())
}

/// `interpolator K:P ..`: the weights at zero with their keys.
fn interpolator<R: Element>(
    alloc: Global,
    arguments: &str,
    answer: &mut Answer<R>,
) -> Result<(), Fault> {
    let interpolator = at_zero(alloc, keyed_elements::<R>(alloc, arguments)?)?;
    put_weights(alloc, &interpolator, answer)?;
    Ok(())
}

/// `interpolator_at X @ K:P ..`: the weights at X with their keys.
fn put_at<R: Element>(alloc: Global, arguments: &str, answer: &mut Answer<R>) -> Result<(), Fault> {
    put_weights(alloc, &interpolator_at::<R>(alloc, arguments)?, answer)?;
    Ok(())
}

/// The map of these pairs.
fn map_of<V: Drop>(alloc: Global, pairs: Vec<(u64, V)>) -> Mem<Map<u64, V>> {
    let given = begin(alloc, &());
    let out = Map::from_iter_dedup(alloc, pairs);
    end(alloc, given, &(), out.is_err());
    out
}

/// The value that these weights give, or `None`.
fn value_by_weights<R: Element, K: Space<R>>(
    alloc: Global,
    interpolator: &Interpolator<u64, R>,
    values: &Map<u64, K>,
) -> Mem<Option<K>> {
    let given = begin(alloc, &(interpolator, values));
    let out = interpolator.interpolate(alloc, values);
    end(alloc, given, &(interpolator, values), out.is_err());
    out
}

/// `interpolate K:V .. @ X @ K:P ..`: the value at X, or `none`.
fn interpolate<R: Element>(
    alloc: Global,
    arguments: &str,
    answer: &mut Answer<R>,
) -> Result<(), Fault> {
    let (values, points) = split_at_mark(arguments, '@')?;
    let values = map_of(alloc, keyed_elements::<R>(alloc, values)?)?;
    let interpolator = interpolator_at::<R>(alloc, points)?;
    match value_by_weights(alloc, &interpolator, &values)? {
        Some(value) => answer.element(value)?,
        None => answer.text.push_str(" none")?,
    }
    Ok(())
}

/// `interpolate_poly A .. ; B .. ; .. @ X @ K:P ..`: the values, of the keys 0, 1 and so on, are
/// polynomials; the stored coefficients of the answer, or `none`.
fn interpolate_polynomials<R: Element>(
    alloc: Global,
    arguments: &str,
    answer: &mut Answer<R>,
) -> Result<(), Fault> {
    let (values, points) = split_at_mark(arguments, '@')?;
    let values = with_numbers(alloc, polynomials::<R>(alloc, values)?)?;
    let values = map_of(alloc, values)?;
    let interpolator = interpolator_at::<R>(alloc, points)?;
    match value_by_weights(alloc, &interpolator, &values)? {
        Some(value) => put_stored(alloc, &value, answer)?,
        None => answer.text.push_str(" none")?,
    }
    Ok(())
}
