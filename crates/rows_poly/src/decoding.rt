//! Division of polynomials, and polynomials from values of which some are wrong.

use math_base::algebra::{Field, Mem};
use math_decoding::decoding::{Decoded, decode};
use math_decoding::division::{degree, divide};
use math_decoding::points::are_distinct;
use math_samples::elements::Element;
use rows_base::answer::{Answer, put};
use rows_base::fault::Fault;
use rows_base::refusals::{begin, end, has_come, refuse};
use rows_base::words::{elements, number, split_at_mark, two_numbers};
use std::alloc::Global;

/// Runs a call of this module; `false` where it is none.
pub fn run<R: Element>(
    alloc: Global,
    call: &str,
    arguments: &str,
    answer: &mut Answer<R>,
) -> Result<bool, Fault> {
    let done = match call {
        "divide" => put_division(alloc, arguments, answer),
        "decode" => put_decoded(alloc, arguments, answer),
        "decode_within" => decode_within(alloc, arguments, answer),
        _ => return Ok(false),
    };
    done.and(Ok(true))
}

/// `divide P .. ; D ..`: quotient and remainder.
fn put_division<R: Element>(
    alloc: Global,
    arguments: &str,
    answer: &mut Answer<R>,
) -> Result<(), Fault> {
    let (p, d) = split_at_mark(arguments, ';')?;
    let p = elements::<R>(alloc, p)?;
    let d = elements::<R>(alloc, d)?;
    put_quotient(alloc, &p, &d, answer)
}

/// Adds a list of elements, `;`, and another.
fn put_two<R: Element>(alloc: Global, xs: &[R], ys: &[R], answer: &mut Answer<R>) -> Mem<()> {
    answer.copies(alloc, xs)?;
    answer.text.push_str(" ;")?;
    answer.copies(alloc, ys)
}

/// Adds the quotient, `;`, and the remainder.
fn put_quotient<R: Element>(
    alloc: Global,
    p: &[R],
    d: &[R],
    answer: &mut Answer<R>,
) -> Result<(), Fault> {
    let Some(_) = degree(alloc, d)? else {
        return Err(Fault::OutOfRange("a division by zero"));
    };
    let given = begin(alloc, &(p, d));
    let out = divide(alloc, p, d);
    end(alloc, given, &(p, d), out.is_err());
    let (quotient, remainder) = out?;
    put_two(alloc, &quotient, &remainder, answer).map_err(Fault::Memory)
}

/// `decode COUNT ; POINT .. ; VALUE ..`: the coefficients, `;`, and the wrong places, or `none`.
fn put_decoded<R: Element>(
    alloc: Global,
    arguments: &str,
    answer: &mut Answer<R>,
) -> Result<(), Fault> {
    let done = match decoded_from::<R>(alloc, arguments)? {
        Some(found) => put_found(alloc, &found, answer),
        None => answer.text.push_str(" none"),
    };
    done.map_err(Fault::Memory)
}

/// What `decode` answers to `COUNT ; POINT .. ; VALUE ..`.
fn decoded_from<R: Element>(alloc: Global, text: &str) -> Result<Option<Decoded<R>>, Fault> {
    let (count, rest) = split_at_mark(text, ';')?;
    let (points, values) = split_at_mark(rest, ';')?;
    let count = number(count.trim())? as usize;
    let points = elements::<R>(alloc, points)?;
    let values = elements::<R>(alloc, values)?;
    decode_points(alloc, &points, &values, count)
}

/// What `decode` answers, where it may be called.
fn decode_points<R: Field>(
    alloc: Global,
    points: &[R],
    values: &[R],
    count: usize,
) -> Result<Option<Decoded<R>>, Fault> {
    if points.len() != values.len() || count > points.len() {
        return Err(Fault::OutOfRange("values for other points, or too many coefficients"));
    }
    if !are_distinct(alloc, points)? {
        return Err(Fault::OutOfRange("points that repeat"));
    }
    let given = begin(alloc, &(points, values));
    let out = decode(alloc, points, values, count);
    end(alloc, given, &(points, values), out.is_err());
    out.map_err(Fault::Memory)
}

/// Adds the coefficients, `;`, and the wrong places.
fn put_found<R: Element>(alloc: Global, found: &Decoded<R>, answer: &mut Answer<R>) -> Mem<()> {
    answer.copies(alloc, &found.coefficients)?;
    answer.text.push_str(" ;")?;
    for place in &found.wrong {
        put(&mut answer.text, *place as u64)?;
    }
    Ok(())
}

/// The points 0, 1 and so on, and at each the value 100, but the point itself at the odd points
/// below twice `wrong`.
fn spoiled_values<R: Element>(alloc: Global, count: u64, wrong: u64) -> Mem<(Vec<R>, Vec<R>)> {
    let mut points = Vec::new(alloc);
    let mut values = Vec::new(alloc);
    for n in 0..count {
        points.push(R::from_number(alloc, n)?)?;
        let is_wrong = n % 2 == 1 && n / 2 < wrong;
        values.push(R::from_number(alloc, if is_wrong { n } else { 100 })?)?;
    }
    Ok((points, values))
}

/// Whether the n-th allocation of decoding these values is made, which is refused then, and how
/// many values are wrong. No allocation is refused from then on.
fn refused_at<R: Element>(
    alloc: Global,
    points: &[R],
    values: &[R],
    n: u32,
) -> (bool, Result<u64, Fault>) {
    refuse(alloc, n);
    let out = decode_points(alloc, points, values, 3);
    let met = has_come(alloc);
    refuse(alloc, 0);
    let wrong = match out {
        Ok(Some(found)) => Ok(found.wrong.len() as u64),
        Ok(None) => Ok(0),
        Err(fault) => Err(fault),
    };
    (met, wrong)
}

/// `decode_within COUNT WRONG N`: of the values 100 at so many points, so many of which are wrong,
/// the polynomial of three coefficients is looked for, with the N-th allocation refused. How many
/// values are found to be wrong, and whether that allocation was `met`. No allocation is refused
/// from then on.
fn decode_within<R: Element>(
    alloc: Global,
    arguments: &str,
    answer: &mut Answer<R>,
) -> Result<(), Fault> {
    let (count, rest) = split_at_mark(arguments.trim(), ' ')?;
    let (wrong, n) = two_numbers(rest)?;
    let (points, values) = spoiled_values::<R>(alloc, number(count)?, wrong)?;
    let Ok(n) = u32::try_from(n) else {
        return Err(Fault::OutOfRange("an allocation of number 2^32 or more"));
    };
    let (met, wrong) = refused_at(alloc, &points, &values, n);
    if met {
        return answer.text.push_str(" met").map_err(Fault::Memory);
    }
    put(&mut answer.text, wrong?)?;
    answer.text.push_str(" not met").map_err(Fault::Memory)
}
