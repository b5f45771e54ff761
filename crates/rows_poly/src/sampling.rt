//! Samples of a source, whose words are listed.

ghost use Rattle.std.specs.Prelude.{◌<◌, ◌-◌, ◌^◌};

use crate::polynomials::put_stored;
use math_base::algebra::{Mem, Random, RandomError};
use math_ntt::ntt::Matrix;
use math_poly::poly::Poly;
use math_samples::elements::Element;
use math_samples::sources::Listed;
use rows_base::answer::{Answer, put};
use rows_base::fault::Fault;
use rows_base::refusals::{begin, end};
use rows_base::words::{element, numbers, short, split_at_mark, two_numbers};
use rows_ntt::matrices::put_matrix;
use std::alloc::Global;

/// Runs a call of this module, and adds how many words are left; `false` where it is none.
pub fn run<R: Element + Random>(
    alloc: Global,
    call: &str,
    arguments: &str,
    answer: &mut Answer<R>,
) -> Result<bool, Fault> {
    match call {
        "random" | "poly_random" | "poly_random_with_constant" | "matrix_random" => {
            put_sample(alloc, call, arguments, answer).and(Ok(true))
        }
        "random_left" => put_taken::<R>(alloc, arguments, &mut answer.text).and(Ok(true)),
        _ => Ok(false),
    }
}

/// Whether memory ran out.
fn is_of_memory<T>(out: &Result<T, RandomError>) -> bool {
    matches!(out, Err(RandomError::Memory(_)))
}

/// The next sample of the source.
fn sample<R: Element + Random>(alloc: Global, source: &mut Listed<'_>) -> Result<R, RandomError> {
    let given = begin(alloc, &());
    let out = R::random(alloc, source);
    end(alloc, given, &(), is_of_memory(&out));
    out
}

/// `random_left W ..`: `sampled`, or `refused` where there are too many words; `left`, and how many
/// words are left.
fn put_taken<R: Element + Random>(
    alloc: Global,
    arguments: &str,
    text: &mut String,
) -> Result<(), Fault> {
    let words = numbers(alloc, arguments)?;
    let mut source = Listed::new(&words);
    let told = match sample::<R>(alloc, &mut source) {
        Ok(_) => " sampled",
        Err(RandomError::TooManyWords) => " refused",
        Err(RandomError::Memory(refused)) => return Err(Fault::Memory(refused)),
    };
    text.push_str(told)?;
    put_left(text, source.left()).map_err(Fault::Memory)
}

/// Adds the sample, and how many words are left.
fn put_sample<R: Element + Random>(
    alloc: Global,
    call: &str,
    arguments: &str,
    answer: &mut Answer<R>,
) -> Result<(), Fault> {
    let (how, words) = split_at_mark(arguments, '@')?;
    let words = numbers(alloc, words)?;
    let mut source = Listed::new(&words);
    let done = match call {
        "random" => answer.found(sample(alloc, &mut source).map_err(Fault::from)),
        "matrix_random" => matrix(alloc, how, &mut source, answer),
        _ => put_polynomial(alloc, polynomial(alloc, how, &mut source), answer),
    };
    done?;
    put_left(&mut answer.text, source.left()).map_err(Fault::Memory)
}

/// Adds how many words are left.
fn put_left(text: &mut String, count: usize) -> Mem<()> {
    text.push_str(" left")?;
    put(text, count as u64)
}

/// `matrix_random ROWS COLUMNS @ W ..`: the matrix.
fn matrix<R: Element + Random>(
    alloc: Global,
    size: &str,
    source: &mut Listed<'_>,
    answer: &mut Answer<R>,
) -> Result<(), Fault> {
    let (rows, cols) = two_numbers(size)?;
    let (rows, cols) = (rows as usize, cols as usize);
    if rows.checked_mul(cols).is_none() {
        return Err(Fault::OutOfRange("2^64 cells"));
    }
    let given = begin(alloc, &());
    let out = Matrix::<R>::rand(alloc, source, rows, cols);
    end(alloc, given, &(), is_of_memory(&out));
    let m = out?;
    put_matrix(alloc, &m, answer).map_err(Fault::Memory)
}

/// Adds the stored coefficients of the polynomial that was found, or says why there is none.
fn put_polynomial<R: Element>(
    alloc: Global,
    p: Result<Poly<R>, Fault>,
    answer: &mut Answer<R>,
) -> Result<(), Fault> {
    put_stored(alloc, &p?, answer).map_err(Fault::Memory)
}

/// `poly_random DEGREE @ W ..`, `poly_random_with_constant DEGREE CONSTANT @ W ..`: the polynomial.
fn polynomial<R: Element + Random>(
    alloc: Global,
    how: &str,
    source: &mut Listed<'_>,
) -> Result<Poly<R>, Fault> {
    let (degree, constant) = how.trim().split_once(' ').unwrap_or((how, ""));
    let degree = short(degree)?;
    if degree == u32::MAX {
        return Err(Fault::OutOfRange("2^32 coefficients"));
    }
    if constant.is_empty() {
        return of_degree(alloc, source, degree).map_err(Fault::from);
    }
    let constant = element::<R>(alloc, constant)?;
    with_constant(alloc, source, degree, constant).map_err(Fault::from)
}

/// The polynomial of this degree.
fn of_degree<R: Element + Random>(
    alloc: Global,
    source: &mut Listed<'_>,
    degree: u32,
) -> Result<Poly<R>, RandomError>
    requires { degree < 2 ^ 32 - 1 }
{
    let given = begin(alloc, &());
    let out = Poly::<R>::new(alloc, source, degree);
    end(alloc, given, &(), is_of_memory(&out));
    out
}

/// The polynomial of this degree and this constant.
fn with_constant<R: Element + Random>(
    alloc: Global,
    source: &mut Listed<'_>,
    degree: u32,
    constant: R,
) -> Result<Poly<R>, RandomError>
    requires { degree < 2 ^ 32 - 1 }
{
    let given = begin(alloc, &());
    let out = Poly::<R>::new_with_constant(alloc, source, degree, constant);
    end(alloc, given, &(), is_of_memory(&out));
    out
}
