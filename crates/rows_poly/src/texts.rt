//! Texts for debugging, of values over the Goldilocks field.

use crate::polynomials::polynomial;
use math_fields::goldilocks::F;
use rows_base::answer::put_debug;
use rows_base::fault::Fault;
use rows_base::words::{element, number, split_at_mark};
use rows_ntt::bitmaps::{empty, set};
use rows_ntt::matrices::matrix;
use rows_ntt::vectors::{filled_vector, padded_columns};
use std::alloc::Global;

/// Runs a call of this module; `false` where it is none.
pub fn run(alloc: Global, call: &str, arguments: &str, text: &mut String) -> Result<bool, Fault> {
    let done = match call {
        "text" => put_text(alloc, arguments, text),
        _ => return Ok(false),
    };
    done.and(Ok(true))
}

/// `text KIND VALUE`: the text of a value for debugging, in quotes, with `~` for a space and `|`
/// for the end of a line. A kind is `element A`, `poly C ..`, `matrix M`, `bitmap LG I ..`,
/// `polynomials N @ M` or `values LG COLUMNS @ ROW : CELL .. @ ..`.
fn put_text(alloc: Global, arguments: &str, text: &mut String) -> Result<(), Fault> {
    let (kind, value) = split_at_mark(arguments, ' ')?;
    match kind {
        "element" => put_element(alloc, value, text),
        "poly" => put_polynomial(alloc, value, text),
        "matrix" => put_matrix(alloc, value, text),
        "bitmap" => put_bitmap(alloc, value, text),
        "polynomials" => put_polynomials(alloc, value, text),
        "values" => put_values(alloc, value, text),
        _ => Err(Fault::Unreadable("kind")),
    }
}

/// Adds the text of an element.
fn put_element(alloc: Global, value: &str, text: &mut String) -> Result<(), Fault> {
    let x = element::<F>(alloc, value)?;
    put_debug(alloc, &x, text).map_err(Fault::Memory)
}

/// Adds the text of a polynomial.
fn put_polynomial(alloc: Global, value: &str, text: &mut String) -> Result<(), Fault> {
    let p = polynomial::<F>(alloc, value)?;
    put_debug(alloc, &p, text).map_err(Fault::Memory)
}

/// Adds the text of a matrix.
fn put_matrix(alloc: Global, value: &str, text: &mut String) -> Result<(), Fault> {
    let m = matrix::<F>(alloc, value)?;
    put_debug(alloc, &m, text).map_err(Fault::Memory)
}

/// Adds the text of a bitmap of 2^LG points, of which those that are listed don't vanish.
fn put_bitmap(alloc: Global, value: &str, text: &mut String) -> Result<(), Fault> {
    let (size, indices) = split_at_mark(value, ' ')?;
    let mut points = empty(alloc, size)?;
    for word in indices.split_whitespace() {
        set(&mut points, number(word)?)?;
    }
    put_debug(alloc, &points, text).map_err(Fault::Memory)
}

/// Adds the text of the columns of M as polynomials of N coefficients at least.
fn put_polynomials(alloc: Global, value: &str, text: &mut String) -> Result<(), Fault> {
    let (n, m) = split_at_mark(value, '@')?;
    let n = number(n.trim())? as usize;
    let m = matrix::<F>(alloc, m)?;
    match padded_columns(alloc, &m, n)? {
        Some(v) => put_debug(alloc, &v, text).map_err(Fault::Memory),
        None => Err(Fault::OutOfRange("no polynomials")),
    }
}

/// Adds the text of 2^LG rows of values, of which some are filled.
fn put_values(alloc: Global, value: &str, text: &mut String) -> Result<(), Fault> {
    let values = filled_vector::<F>(alloc, value)?;
    put_debug(alloc, &values.vector, text).map_err(Fault::Memory)
}
