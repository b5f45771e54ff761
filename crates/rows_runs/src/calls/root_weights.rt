//! Weights at roots of unity.

ghost use Rattle.std.specs.Prelude.{IfOk};
ghost use Rattle.math_transforms.specs.RootWeights.{HasDomainOf};

use super::interpolation::put_weights;
use commonware_math::algebra::{Mem, Object, powers};
use commonware_math::ntt::{lagrange_coefficients, lagrange_coefficients_at};
use commonware_math::ordered::{BiMap, Map};
use commonware_math::poly::Interpolator;
use math_samples::elements::Element;
use rows_base::answer::{Answer, put};
use rows_base::fault::Fault;
use rows_base::refusals::{begin, end};
use rows_base::words::{element, elements, number, short, split_at_mark};
use rows_ntt::transforms::has_domain;
use std::alloc::Global;
use std::num::NonZeroU32;

/// Runs a call of this module; `false` where it is none.
pub fn run<R: Element>(
    alloc: Global,
    call: &str,
    arguments: &str,
    answer: &mut Answer<R>,
) -> Result<bool, Fault> {
    match call {
        "lagrange" => lagrange(alloc, arguments, answer)?,
        "lagrange_at" => lagrange_at(alloc, arguments, answer)?,
        "lagrange_as_at" => lagrange_as_at::<R>(alloc, arguments, answer)?,
        "roots_of_unity" => roots_of_unity(alloc, arguments, answer)?,
        "roots_of_unity_at" => roots_of_unity_at(alloc, arguments, answer)?,
        "roots_of_unity_as_new" => roots_of_unity_as_new::<R>(alloc, arguments, answer)?,
        _ => return Ok(false),
    }
    Ok(true)
}

/// A total whose domain the field has.
fn total_in<R: Element>(text: &str) -> Result<NonZeroU32, Fault>
    ensures { IfOk result (λ total. HasDomainOf R.MAX_LG_ROOT_ORDER total.value) }
{
    domain_of::<R>(short(text)?)
}

/// The total n, where the field has its domain.
fn domain_of<R: Element>(n: u32) -> Result<NonZeroU32, Fault>
    ensures { IfOk result (λ total. HasDomainOf R.MAX_LG_ROOT_ORDER total.value) }
{
    let Some(total) = NonZeroU32::new(n) else {
        return Err(Fault::OutOfRange("a total of zero"));
    };
    let Some(rows) = (total.get() as usize).checked_next_power_of_two() else {
        return Err(Fault::OutOfRange("too many points"));
    };
    if !has_domain::<R>(rows) {
        return Err(Fault::OutOfRange("no such domain"));
    }
    Ok(total)
}

/// The indices of `[I, ..]`.
fn indices(alloc: Global, text: &str) -> Result<Vec<u32>, Fault> {
    let mut out = Vec::new(alloc);
    let list = text.trim().trim_start_matches('[').trim_end_matches(']');
    for word in list.split(',') {
        out.push(short(word)?)?;
    }
    Ok(out)
}

/// The indices of `K:I ..` by their keys.
fn keys(alloc: Global, text: &str) -> Result<BiMap<u64, u32>, Fault> {
    let mut pairs = Vec::new(alloc);
    for word in text.split_whitespace() {
        let (key, index) = split_at_mark(word, ':')?;
        pairs.push((number(key)?, short(index)?))?;
    }
    Ok(BiMap::try_from_iter(alloc, pairs)?)
}

/// Adds weights with their indices.
fn put_indexed<R: Element>(weights: Vec<(u32, R)>, answer: &mut Answer<R>) -> Mem<()> {
    for (index, weight) in weights {
        answer.add_keyed(u64::from(index), weight)?;
    }
    Ok(())
}

/// The weights for the value at zero.
fn weights<R: Element>(alloc: Global, total: NonZeroU32, indices: Vec<u32>) -> Mem<Vec<(u32, R)>>
    requires { HasDomainOf R.MAX_LG_ROOT_ORDER total.value }
{
    let given = begin(alloc, &());
    let weights = lagrange_coefficients(alloc, total, indices);
    end(alloc, given, &(), weights.is_err());
    weights
}

/// The weights for the value at x.
fn weights_at<R: Element>(
    alloc: Global,
    total: NonZeroU32,
    indices: Vec<u32>,
    x: &R,
) -> Mem<Vec<(u32, R)>>
    requires { HasDomainOf R.MAX_LG_ROOT_ORDER total.value }
{
    let given = begin(alloc, x);
    let weights = lagrange_coefficients_at(alloc, total, indices, x);
    end(alloc, given, x, weights.is_err());
    weights
}

/// `lagrange TOTAL ; [I, ..]`: the weights for the value at zero, with their indices.
fn lagrange<R: Element>(
    alloc: Global,
    arguments: &str,
    answer: &mut Answer<R>,
) -> Result<(), Fault> {
    let (total, list) = split_at_mark(arguments, ';')?;
    let total = total_in::<R>(total)?;
    let weights = weights(alloc, total, indices(alloc, list)?)?;
    put_indexed(weights, answer)?;
    Ok(())
}

/// `lagrange_at X @ TOTAL ; [I, ..]`: the same for the value at X.
fn lagrange_at<R: Element>(
    alloc: Global,
    arguments: &str,
    answer: &mut Answer<R>,
) -> Result<(), Fault> {
    let (x, rest) = split_at_mark(arguments, '@')?;
    let (total, list) = split_at_mark(rest, ';')?;
    let total = total_in::<R>(total)?;
    let x = element::<R>(alloc, x)?;
    let weights = weights_at(alloc, total, indices(alloc, list)?, &x)?;
    put_indexed(weights, answer)?;
    Ok(())
}

/// `roots_of_unity TOTAL ; K:I ..`: the interpolator for the value at zero.
fn roots_of_unity<R: Element>(
    alloc: Global,
    arguments: &str,
    answer: &mut Answer<R>,
) -> Result<(), Fault> {
    let (total, points) = split_at_mark(arguments, ';')?;
    let total = total_in::<R>(total)?;
    let points = keys(alloc, points)?;
    let given = begin(alloc, &());
    let interpolator = Interpolator::roots_of_unity(alloc, total, points);
    end(alloc, given, &(), interpolator.is_err());
    put_weights(alloc, &interpolator?, answer)?;
    Ok(())
}

/// `roots_of_unity_at X @ TOTAL ; K:I ..`: the interpolator for the value at X.
fn roots_of_unity_at<R: Element>(
    alloc: Global,
    arguments: &str,
    answer: &mut Answer<R>,
) -> Result<(), Fault> {
    let (x, rest) = split_at_mark(arguments, '@')?;
    let (total, points) = split_at_mark(rest, ';')?;
    let total = total_in::<R>(total)?;
    let points = keys(alloc, points)?;
    let x = element::<R>(alloc, x)?;
    let given = begin(alloc, &x);
    let interpolator = Interpolator::roots_of_unity_at(alloc, total, points, &x);
    end(alloc, given, &x, interpolator.is_err());
    put_weights(alloc, &interpolator?, answer)?;
    Ok(())
}

/// The first powers of an element.
fn first_powers<R: Element>(alloc: Global, x: &R, count: usize) -> Mem<Vec<R>> {
    let mut out = Vec::new(alloc);
    for power in powers(alloc, R::one(alloc)?, x).take(count) {
        out.push(power?)?;
    }
    Ok(out)
}

/// The powers of the root of the total's domain.
fn domain<R: Element>(alloc: Global, total: NonZeroU32) -> Result<Vec<R>, Fault> {
    let size = (total.get() as usize).next_power_of_two();
    match R::root_of_unity(alloc, size.trailing_zeros() as u8)? {
        Some(root) => Ok(first_powers(alloc, &root, size)?),
        None => Err(Fault::OutOfRange("no such domain")),
    }
}

/// The indices below the total that d divides.
fn multiples(alloc: Global, total: NonZeroU32, d: u32) -> Mem<Vec<u32>> {
    let mut out = Vec::new(alloc);
    for index in 0..total.get() {
        if d != 0 && index % d == 0 {
            out.push(index)?;
        }
    }
    Ok(out)
}

/// The points of indices, each with its index.
fn with_indices<R: Element>(alloc: Global, indices: &[u32], points: &[R]) -> Mem<Vec<(u32, R)>> {
    let mut out = Vec::new(alloc);
    for index in indices {
        if let Some(point) = points.get(*index as usize) {
            out.push((*index, point.clone(alloc)?))?;
        }
    }
    Ok(out)
}

/// Whether keys and weights are the same.
fn are_same<R: Element>(alloc: Global, a: &Map<u32, R>, b: &Map<u32, R>) -> Mem<bool> {
    if a.keys() != b.keys() {
        return Ok(false);
    }
    for (v, w) in a.values().iter().zip(b.values()) {
        if !v.equals(alloc, w)? {
            return Ok(false);
        }
    }
    Ok(true)
}

/// Whether the weights at these points of the domain for the value at x are those of
/// `Interpolator::at`.
fn is_as_at<R: Element>(
    alloc: Global,
    total: NonZeroU32,
    d: u32,
    points: &[R],
    x: &R,
) -> Result<bool, Fault>
    requires { HasDomainOf R.MAX_LG_ROOT_ORDER total.value }
{
    let indices = multiples(alloc, total, d)?;
    let pairs = with_indices(alloc, &indices, points)?;
    let expected = Interpolator::at(alloc, pairs, x)?;
    let weights = weights_at(alloc, total, indices, x)?;
    let weights = Map::from_iter_dedup(alloc, weights)?;
    Ok(are_same(alloc, &weights, expected.weights())?)
}

/// At how many of the points these weights are those of `Interpolator::at`.
fn fits_at<R: Element>(
    alloc: Global,
    total: NonZeroU32,
    d: u32,
    points: &[R],
    xs: &[R],
) -> Result<u64, Fault>
    requires { HasDomainOf R.MAX_LG_ROOT_ORDER total.value }
{
    let mut fits = 0u64;
    for x in xs {
        fits = fits.saturating_add(u64::from(is_as_at(alloc, total, d, points, x)?));
    }
    Ok(fits)
}

/// `lagrange_as_at TOTAL D`: at how many of the points of the domain, zero and five the weights for the
/// indices that D divides are those of `Interpolator::at`.
fn lagrange_as_at<R: Element>(
    alloc: Global,
    arguments: &str,
    answer: &mut Answer<R>,
) -> Result<(), Fault> {
    let (total, d) = split_at_mark(arguments.trim(), ' ')?;
    let total = total_in::<R>(total)?;
    let d = short(d)?;
    let points = domain::<R>(alloc, total)?;
    let others = elements::<R>(alloc, "0 5")?;
    let fits = fits_at(alloc, total, d, &points, &points)?;
    let fits = fits.saturating_add(fits_at(alloc, total, d, &points, &others)?);
    put(&mut answer.text, fits)?;
    Ok(())
}

/// `roots_of_unity_as_new FIRST LAST`: for how many totals of these the weights of all indices are those of
/// `Interpolator::new`.
fn roots_of_unity_as_new<R: Element>(
    alloc: Global,
    arguments: &str,
    answer: &mut Answer<R>,
) -> Result<(), Fault> {
    let (first, last) = split_at_mark(arguments.trim(), ' ')?;
    let mut fits = 0u64;
    for total in short(first)?..=short(last)? {
        fits = fits.saturating_add(u64::from(is_as_new::<R>(alloc, total)?));
    }
    put(&mut answer.text, fits)?;
    Ok(())
}

/// The interpolator of all indices below a total, each its own key.
fn of_all_indices<R: Element>(
    alloc: Global,
    total: NonZeroU32,
) -> Result<Interpolator<u32, R>, Fault>
    requires { HasDomainOf R.MAX_LG_ROOT_ORDER total.value }
{
    let mut pairs = Vec::new(alloc);
    for index in 0..total.get() {
        pairs.push((index, index))?;
    }
    let keys = BiMap::try_from_iter(alloc, pairs)?;
    let given = begin(alloc, &());
    let interpolator = Interpolator::roots_of_unity(alloc, total, keys);
    end(alloc, given, &(), interpolator.is_err());
    interpolator.map_err(Fault::Memory)
}

/// The interpolator of these points by `Interpolator::new`.
fn of_points<R: Element>(alloc: Global, total: NonZeroU32) -> Result<Interpolator<u32, R>, Fault> {
    let points = domain::<R>(alloc, total)?;
    let indices = multiples(alloc, total, 1)?;
    let pairs = with_indices(alloc, &indices, &points)?;
    Ok(Interpolator::new(alloc, pairs)?)
}

/// Whether the weights of all indices below a total are those of `Interpolator::new`.
fn is_as_new<R: Element>(alloc: Global, total: u32) -> Result<bool, Fault> {
    let total = domain_of::<R>(total)?;
    let expected = of_points::<R>(alloc, total)?;
    let interpolator = of_all_indices::<R>(alloc, total)?;
    Ok(are_same(alloc, interpolator.weights(), expected.weights())?)
}
