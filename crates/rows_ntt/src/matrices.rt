//! Matrices. One is written `ROWS COLUMNS : CELL ..`, row by row.

ghost use Rattle.std.specs.Prelude.{◌≡◌, ◌*◌, ◌^◌, ◌<◌, length, IfOk};

use crate::compared::put_firsts;
use math_base::algebra::Mem;
use math_ntt::ntt::Matrix;
use math_samples::elements::Element;
use rows_base::answer::{Answer, put};
use rows_base::fault::Fault;
use rows_base::refusals::{begin, end};
use rows_base::words::{element, elements, number, split_at_mark, two_numbers};
use std::alloc::Global;
use std::cell::Cell;

/// Runs a call of this module; `false` where it is none.
pub fn run<R: Element>(
    alloc: Global,
    call: &str,
    arguments: &str,
    answer: &mut Answer<R>,
) -> Result<bool, Fault> {
    let m = match call {
        "matrix" => matrix_of(alloc, arguments),
        "matrix_clone" => copy(alloc, arguments),
        "matrix_mul" => product(alloc, arguments),
        "set_cell" | "set_in_row" => set_cell(alloc, call, arguments),
        _ => return run_others(alloc, call, arguments, answer),
    };
    put_found(alloc, m, answer).and(Ok(true))
}

/// Runs a call that answers no matrix; `false` where it is none.
fn run_others<R: Element>(
    alloc: Global,
    call: &str,
    arguments: &str,
    answer: &mut Answer<R>,
) -> Result<bool, Fault> {
    let done = match call {
        "matrix_equals" => same(alloc, arguments, answer),
        "rows" => rows(alloc, arguments, answer),
        "row" => row(alloc, arguments, answer),
        "cell" => answer.found(cell(alloc, arguments)),
        "matrix_asked" => put_asked(alloc, arguments, answer),
        _ => return Ok(false),
    };
    done.and(Ok(true))
}

/// Numbers of rows and columns, where the number of cells fits.
fn shape(text: &str) -> Result<(usize, usize), Fault>
    ensures { IfOk result (λ size. size.0 * size.1 < 2 ^ 64) }
{
    let (rows, cols) = two_numbers(text)?;
    let (rows, cols) = (rows as usize, cols as usize);
    if rows.checked_mul(cols).is_none() {
        return Err(Fault::OutOfRange("2^64 cells"));
    }
    Ok((rows, cols))
}

/// The matrix with these cells, and with zeros after them.
pub fn matrix<R: Element>(alloc: Global, text: &str) -> Result<Matrix<R>, Fault>
    ensures { IfOk result (λ m. length m.cells ≡ m.rows * m.cols) }
{
    let (size, cells) = split_at_mark(text, ':')?;
    let (rows, cols) = shape(size)?;
    let cells = elements::<R>(alloc, cells)?;
    Matrix::init(alloc, rows, cols, cells).map_err(Fault::Memory)
}

/// `matrix M`: the matrix with these cells, and with zeros after them.
fn matrix_of<R: Element>(alloc: Global, arguments: &str) -> Result<Matrix<R>, Fault> {
    let (size, cells) = split_at_mark(arguments, ':')?;
    let (rows, cols) = shape(size)?;
    let cells = elements::<R>(alloc, cells)?;
    let given = begin(alloc, &());
    let m = Matrix::init(alloc, rows, cols, cells);
    end(alloc, given, &(), m.is_err());
    m.map_err(Fault::Memory)
}

/// Items from the last to the first, but `None` at the call that has the number `end`. It counts
/// the calls.
#[derive(Drop)]
struct Counting<'a, R: Element> {
    calls: &'a Cell<u64>,
    end: u64,
    items: Vec<R>,
}

impl<'a, R: Element> Iterator for Counting<'a, R> {
    type Item = R;

    fn next(&mut self) -> Option<R> {
        let n = self.calls.get().wrapping_add(1);
        self.calls.set(n);
        if n == self.end {
            return None;
        }
        self.items.pop()
    }
}

/// How often a matrix of so many rows and columns asks for an item, where there is none at the call
/// of the number `last`, and the matrix.
fn times_asked<R: Element>(
    alloc: Global,
    rows: usize,
    cols: usize,
    items: Vec<R>,
    last: u64,
) -> Mem<(u64, Matrix<R>)>
    requires { rows * cols < 2 ^ 64 }
{
    let calls = Cell::new(0);
    let data = Counting {
        calls: &calls,
        end: last,
        items,
    };
    let given = begin(alloc, &());
    let m = Matrix::init(alloc, rows, cols, data);
    end(alloc, given, &(), m.is_err());
    Ok((calls.get(), m?))
}

/// `matrix_asked M @ END`: how often `Matrix::init` asks for an item, where the items are the cells
/// of M but there is none at the call of the number END, and the matrix.
fn put_asked<R: Element>(
    alloc: Global,
    arguments: &str,
    answer: &mut Answer<R>,
) -> Result<(), Fault> {
    let (m, last) = split_at_mark(arguments, '@')?;
    let last = number(last.trim())?;
    let (size, cells) = split_at_mark(m, ':')?;
    let (rows, cols) = shape(size)?;
    let mut items = elements::<R>(alloc, cells)?;
    items.reverse();
    let (calls, m) = times_asked(alloc, rows, cols, items, last)?;
    put(&mut answer.text, calls)?;
    put_matrix(alloc, &m, answer).map_err(Fault::Memory)
}

/// The matrices of a text, with `;` between them.
fn matrices<R: Element>(alloc: Global, text: &str) -> Result<Vec<Matrix<R>>, Fault> {
    let mut out = Vec::new(alloc);
    for part in text.split(';') {
        out.push(matrix::<R>(alloc, part)?)?;
    }
    Ok(out)
}

/// Adds a matrix, as it is written.
pub fn put_matrix<R: Element>(alloc: Global, m: &Matrix<R>, answer: &mut Answer<R>) -> Mem<()> {
    put(&mut answer.text, m.rows() as u64)?;
    put(&mut answer.text, m.cols() as u64)?;
    answer.text.push_str(" :")?;
    for row in m.iter() {
        answer.copies(alloc, row)?;
    }
    Ok(())
}

/// Adds the matrix that was found, or says why there is none.
fn put_found<R: Element>(
    alloc: Global,
    m: Result<Matrix<R>, Fault>,
    answer: &mut Answer<R>,
) -> Result<(), Fault> {
    put_matrix(alloc, &m?, answer).map_err(Fault::Memory)
}

/// `matrix_clone M`: a copy of the matrix.
fn copy<R: Element>(alloc: Global, arguments: &str) -> Result<Matrix<R>, Fault> {
    let m = matrix::<R>(alloc, arguments)?;
    let given = begin(alloc, &m);
    let out = m.clone(alloc);
    end(alloc, given, &m, out.is_err());
    out.map_err(Fault::Memory)
}

/// Adds the rows, each after `;`.
fn put_rows<R: Element>(alloc: Global, m: &Matrix<R>, answer: &mut Answer<R>) -> Mem<()> {
    for row in m.iter() {
        answer.text.push_str(" ;")?;
        answer.copies(alloc, row)?;
    }
    Ok(())
}

/// `rows M`: the rows, each after `;`.
fn rows<R: Element>(alloc: Global, arguments: &str, answer: &mut Answer<R>) -> Result<(), Fault> {
    put_rows(alloc, &matrix::<R>(alloc, arguments)?, answer).map_err(Fault::Memory)
}

/// The product, where the shapes fit.
fn multiply<R: Element>(alloc: Global, a: &Matrix<R>, b: &Matrix<R>) -> Result<Matrix<R>, Fault> {
    if a.cols() != b.rows() || a.rows().checked_mul(b.cols()).is_none() {
        return Err(Fault::OutOfRange("shapes that don't fit"));
    }
    let given = begin(alloc, &(a, b));
    let out = a.mul(alloc, b);
    end(alloc, given, &(a, b), out.is_err());
    out.map_err(Fault::Memory)
}

/// `matrix_mul M @ N`: the product.
fn product<R: Element>(alloc: Global, arguments: &str) -> Result<Matrix<R>, Fault> {
    let (a, b) = split_at_mark(arguments, '@')?;
    let a = matrix::<R>(alloc, a)?;
    let b = matrix::<R>(alloc, b)?;
    multiply(alloc, &a, &b)
}

/// `matrix_equals M ; N ; ..`: for each matrix the place of the first that it equals.
fn same<R: Element>(alloc: Global, arguments: &str, answer: &mut Answer<R>) -> Result<(), Fault> {
    let items = matrices::<R>(alloc, arguments)?;
    put_firsts(alloc, &items, &mut answer.text).map_err(Fault::Memory)
}

/// The cells of row i.
fn row_of<R: Element>(m: &Matrix<R>, i: usize) -> Result<&[R], Fault> {
    if i >= m.rows() {
        return Err(Fault::OutOfRange("no such row"));
    }
    Ok(m.row(i))
}

/// `row M @ I`: the cells of row I.
fn row<R: Element>(alloc: Global, arguments: &str, answer: &mut Answer<R>) -> Result<(), Fault> {
    let (m, i) = split_at_mark(arguments, '@')?;
    let i = number(i.trim())? as usize;
    let m = matrix::<R>(alloc, m)?;
    answer.copies(alloc, row_of(&m, i)?).map_err(Fault::Memory)
}

/// A copy of the cell in row i and column j.
fn cell_of<R: Element>(alloc: Global, m: &Matrix<R>, i: usize, j: usize) -> Result<R, Fault> {
    if i >= m.rows() || j >= m.cols() {
        return Err(Fault::OutOfRange("no such cell"));
    }
    m[(i, j)].clone(alloc).map_err(Fault::Memory)
}

/// `cell M @ I J`: the cell in row I and column J.
fn cell<R: Element>(alloc: Global, arguments: &str) -> Result<R, Fault> {
    let (m, place) = split_at_mark(arguments, '@')?;
    let (i, j) = two_numbers(place)?;
    let m = matrix::<R>(alloc, m)?;
    cell_of(alloc, &m, i as usize, j as usize)
}

/// Puts x in row i and column j, by its index or, for `set_in_row`, through the row.
fn set<R: Element>(call: &str, m: &mut Matrix<R>, i: usize, j: usize, x: R) -> Result<(), Fault> {
    if i >= m.rows() || j >= m.cols() {
        return Err(Fault::OutOfRange("no such cell"));
    }
    if call == "set_in_row" {
        m.row_mut(i)[j] = x;
    } else {
        m[(i, j)] = x;
    }
    Ok(())
}

/// `set_cell M @ I J @ X`, `set_in_row M @ I J @ X`: the matrix, after X was put in row I and column J.
fn set_cell<R: Element>(alloc: Global, call: &str, arguments: &str) -> Result<Matrix<R>, Fault> {
    let (m, rest) = split_at_mark(arguments, '@')?;
    let (place, x) = split_at_mark(rest, '@')?;
    let (i, j) = two_numbers(place)?;
    let mut m = matrix::<R>(alloc, m)?;
    let x = element::<R>(alloc, x)?;
    set(call, &mut m, i as usize, j as usize, x)?;
    Ok(m)
}
