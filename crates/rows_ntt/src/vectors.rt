//! Vectors of polynomials and of evaluations.

ghost use Rattle.std.specs.Prelude.{◌≡◌, IfOk, IfSome};
ghost use Rattle.std.specs.Int.{IsNextPowerOfTwo};

use crate::compared::put_firsts;
use crate::matrices::{matrix, put_matrix};
use math_base::algebra::Mem;
use math_ntt::ntt::{EvaluationVector, Matrix, PolynomialVector};
use math_samples::elements::Element;
use rows_base::answer::{Answer, put};
use rows_base::fault::Fault;
use rows_base::refusals::{begin, end};
use rows_base::words::{elements, number, split_at_mark, two_numbers};
use std::alloc::Global;

/// Runs a call of this module; `false` where it is none.
pub fn run<R: Element>(
    alloc: Global,
    call: &str,
    arguments: &str,
    answer: &mut Answer<R>,
) -> Result<bool, Fault> {
    let done = match call {
        "coefficients_up_to" => first_rows(alloc, arguments, answer),
        "polynomials_equal" => same_polynomials(alloc, arguments, answer),
        "fill_rows" => fill_rows(alloc, arguments, answer),
        "evaluations_equal" => same_evaluations(alloc, arguments, answer),
        _ => return Ok(false),
    };
    done.and(Ok(true))
}

/// The columns of the matrix `M` as polynomials of N coefficients at least, from `N @ M`.
fn polynomials<R: Element>(
    alloc: Global,
    text: &str,
) -> Result<Option<PolynomialVector<R>>, Fault> {
    let (n, m) = split_at_mark(text, '@')?;
    let n = number(n.trim())? as usize;
    padded_columns(alloc, &matrix::<R>(alloc, m)?, n)
}

/// The columns as polynomials of n coefficients at least, where the number of cells fits.
pub fn padded_columns<R: Element>(
    alloc: Global,
    m: &Matrix<R>,
    n: usize,
) -> Result<Option<PolynomialVector<R>>, Fault>
    ensures { IfOk result (λ answer. IfSome answer (λ v. IsNextPowerOfTwo n v.rows)) }
{
    let Some(rows) = n.checked_next_power_of_two() else {
        return Err(Fault::OutOfRange("too many rows"));
    };
    let Some(_cells) = rows.checked_mul(m.cols()) else {
        return Err(Fault::OutOfRange("too many cells"));
    };
    let given = begin(alloc, m);
    let out = m.as_polynomials(alloc, n);
    end(alloc, given, m, out.is_err());
    out.map_err(Fault::Memory)
}

/// Adds the first rows of coefficients, each after `;`.
fn put_first<R: Element>(
    alloc: Global,
    v: &PolynomialVector<R>,
    up_to: usize,
    answer: &mut Answer<R>,
) -> Mem<()> {
    for row in v.coefficients_up_to(up_to) {
        answer.text.push_str(" ;")?;
        answer.copies(alloc, row)?;
    }
    Ok(())
}

/// `coefficients_up_to U @ N @ M`: the columns of M as polynomials of N coefficients at least, and the
/// first U rows of them, each after `;`; or `none`.
fn first_rows<R: Element>(
    alloc: Global,
    arguments: &str,
    answer: &mut Answer<R>,
) -> Result<(), Fault> {
    let (up_to, columns) = split_at_mark(arguments, '@')?;
    let up_to = number(up_to.trim())? as usize;
    let done = match polynomials::<R>(alloc, columns)? {
        Some(v) => put_first(alloc, &v, up_to, answer),
        None => answer.text.push_str(" none"),
    };
    done.map_err(Fault::Memory)
}

/// A copy of a vector of polynomials.
fn copy<R: Element>(alloc: Global, v: &PolynomialVector<R>) -> Result<PolynomialVector<R>, Fault> {
    let given = begin(alloc, v);
    let out = v.clone(alloc);
    end(alloc, given, v, out.is_err());
    out.map_err(Fault::Memory)
}

/// A copy of a vector of polynomials, from `N @ M`.
fn copy_of<R: Element>(alloc: Global, text: &str) -> Result<PolynomialVector<R>, Fault> {
    match polynomials::<R>(alloc, text)? {
        Some(v) => copy(alloc, &v),
        None => Err(Fault::OutOfRange("no polynomials")),
    }
}

/// `polynomials_equal N @ M ; ..`: for each vector of polynomials the place of the first that it equals.
fn same_polynomials<R: Element>(
    alloc: Global,
    arguments: &str,
    answer: &mut Answer<R>,
) -> Result<(), Fault> {
    let mut items = Vec::new(alloc);
    for part in arguments.split(';') {
        items.push(copy_of::<R>(alloc, part)?)?;
    }
    put_firsts(alloc, &items, &mut answer.text).map_err(Fault::Memory)
}

/// Rows of values, some of which are filled.
#[derive(Debug, Drop)]
pub struct Values<R: Element> {
    pub vector: EvaluationVector<R>,
    pub rows: usize,
    pub cols: usize,
    ghost has_rows: { vector.matrix.rows ≡ rows },
    ghost has_cols: { vector.matrix.cols ≡ cols },
}

impl<R: Element> Values<R> {
    /// 2^lg rows of zeros, none of which is filled.
    pub fn empty(alloc: Global, lg: u64, cols: u64) -> Result<Values<R>, Fault> {
        if lg >= 64 {
            return Err(Fault::OutOfRange("too many rows"));
        }
        let rows: usize = 1 << lg;
        let cols = cols as usize;
        if rows.checked_mul(cols).is_none() {
            return Err(Fault::OutOfRange("too many cells"));
        }
        let vector = EvaluationVector::empty(alloc, lg as usize, cols)?;
        Ok(Values { vector, rows, cols })
    }

    /// The same, by a call that is marked.
    fn empty_marked(alloc: Global, lg: u64, cols: u64) -> Result<Values<R>, Fault> {
        let given = begin(alloc, &());
        let values = Values::empty(alloc, lg, cols);
        let refused = matches!(values, Err(Fault::Memory(_)));
        end(alloc, given, &(), refused);
        values
    }

    /// Fills a row.
    pub fn fill(&mut self, alloc: Global, row: usize, cells: &[R]) -> Result<(), Fault> {
        if row >= self.rows || cells.len() > self.cols {
            return Err(Fault::OutOfRange("no such cells"));
        }
        self.vector.fill_row(alloc, row, cells)?;
        Ok(())
    }

    /// The same, by a call that is marked.
    fn fill_marked(&mut self, alloc: Global, row: usize, cells: &[R]) -> Result<(), Fault> {
        let given = begin(alloc, &(&*self, cells));
        let done = self.fill(alloc, row, cells);
        let refused = matches!(done, Err(Fault::Memory(_)));
        end(alloc, given, &(&*self, cells), refused);
        done
    }

    /// Fills a row by a call that is marked, from `ROW : CELL ..`.
    pub fn fill_from(&mut self, alloc: Global, text: &str) -> Result<(), Fault> {
        let (row, cells) = split_at_mark(text, ':')?;
        let row = number(row.trim())? as usize;
        let cells = elements::<R>(alloc, cells)?;
        self.fill_marked(alloc, row, &cells)
    }
}

/// The vector of 2^LG rows of so many columns, of which some are filled one after the other, from
/// `LG COLUMNS @ ROW : CELL .. @ ..`.
pub fn filled_vector<R: Element>(alloc: Global, text: &str) -> Result<Values<R>, Fault> {
    let (size, _fills) = text.split_once('@').unwrap_or((text, ""));
    let (lg, cols) = two_numbers(size)?;
    let mut values = Values::empty_marked(alloc, lg, cols)?;
    for part in text.split('@').skip(1) {
        values.fill_from(alloc, part)?;
    }
    Ok(values)
}

/// `fill_rows LG COLUMNS @ ROW : CELL .. @ ..`: how many rows are filled, and the matrix.
fn fill_rows<R: Element>(
    alloc: Global,
    arguments: &str,
    answer: &mut Answer<R>,
) -> Result<(), Fault> {
    let v = filled_vector::<R>(alloc, arguments)?.vector;
    put(&mut answer.text, v.filled_rows() as u64)?;
    put_matrix(alloc, &v.data(), answer).map_err(Fault::Memory)
}

/// `evaluations_equal LG COLUMNS @ ROW : CELL .. @ .. ; ..`: for each vector the place of the first that
/// it equals.
fn same_evaluations<R: Element>(
    alloc: Global,
    arguments: &str,
    answer: &mut Answer<R>,
) -> Result<(), Fault> {
    let mut items = Vec::new(alloc);
    for part in arguments.split(';') {
        items.push(filled_vector::<R>(alloc, part)?.vector)?;
    }
    put_firsts(alloc, &items, &mut answer.text).map_err(Fault::Memory)
}
