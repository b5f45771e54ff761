//! Calls that have allocations refused themselves, where a library does so.

use crate::recovery::{are_constant, lg_and_rule, ones, recover_rows};
use crate::transforms::{columns, evaluated_columns};
use crate::vectors::Values;
use math_base::algebra::Mem;
use math_ntt::ntt::{Matrix, Work};
use math_samples::elements::Element;
use rows_base::fault::Fault;
use rows_base::refusals::{Breach, are_made, has_come, refuse, was_told};
use rows_base::words::{short, split_at_mark, two_numbers};
use std::alloc::Global;

/// More allocations than an evaluation makes that is refused again and again.
const MOST: u32 = 10_000;

/// The butterflies of an evaluation, whether an allocation of it was refused, and whether it did
/// nothing wrong.
#[derive(Clone, Copy)]
struct Run {
    butterflies: u128,
    refused: bool,
    right: bool,
}

/// Whether no breach was told.
fn none_told(alloc: Global) -> bool {
    for breach in Breach::ALL {
        if was_told(alloc, breach) {
            return false;
        }
    }
    true
}

/// The evaluation of the columns at n points, with the allocation of this number refused.
fn evaluated_but<R: Element>(alloc: Global, m: &Matrix<R>, n: usize, place: u32) -> Run {
    let mut work = Work::new();
    refuse(alloc, place);
    let values = evaluated_columns(alloc, m, n, &mut work);
    let refused = has_come(alloc);
    Run {
        butterflies: work.butterflies(),
        refused,
        right: none_told(alloc) && values.is_err() == refused,
    }
}

/// The butterflies of the evaluation that meets no refusal, after those with each allocation
/// refused in turn; `None` where one counts fewer than the one before, or that of the number `place`
/// not this many.
fn risen_butterflies<R: Element>(
    alloc: Global,
    m: &Matrix<R>,
    n: usize,
    place: u64,
    butterflies: u64,
) -> Option<u128> {
    let mut before = 0;
    let mut met = false;
    for i in 1..MOST {
        let run = evaluated_but(alloc, m, n, i);
        if !run.right || run.butterflies < before {
            return None;
        }
        before = run.butterflies;
        if !run.refused {
            return if met { Some(before) } else { None };
        }
        if u64::from(i) == place {
            met = before == u128::from(butterflies);
        }
    }
    None
}

/// Adds `rises` and the butterflies of the evaluation without a refusal, or `falls`.
fn put_risen<R: Element>(
    alloc: Global,
    m: &Matrix<R>,
    n: usize,
    known: (u64, u64),
    text: &mut String,
) -> Mem<()> {
    let count = if are_made(alloc) {
        risen_butterflies(alloc, m, n, known.0, known.1)
    } else {
        Some(evaluated_but(alloc, m, n, 0).butterflies)
    };
    refuse(alloc, 0);
    match count {
        Some(count) => write!(text, " rises {count}"),
        None => text.push_str(" falls"),
    }
}

/// `evaluate_refused PLACE B @ N @ M`: the columns of M as polynomials of N coefficients at least
/// are evaluated with each allocation refused in turn, until one meets no refusal. It is `rises`
/// and the butterflies of that one, where a refusal one allocation later counts no fewer, and that of
/// the number PLACE counts B. Where no library refuses allocations, nothing but that one is run.
pub fn evaluate_refused<R: Element>(
    alloc: Global,
    arguments: &str,
    text: &mut String,
) -> Result<(), Fault> {
    let (known, rest) = split_at_mark(arguments, '@')?;
    let known = two_numbers(known)?;
    let (n, m) = columns::<R>(alloc, rest)?;
    put_risen(alloc, &m, n, known, text).map_err(Fault::Memory)
}

/// Whether the constant one is recovered with fewer allocations than this. The one of that number
/// is refused.
fn is_recovered_below<R: Element>(
    alloc: Global,
    values: Values<R>,
    most: u32,
) -> Result<bool, Fault> {
    refuse(alloc, most);
    let polynomials = recover_rows(alloc, values);
    let right = none_told(alloc) && !has_come(alloc);
    refuse(alloc, 0);
    Ok(right && are_constant(alloc, &polynomials?, true)?)
}

/// `recover_below LG RULE @ N`: `below` where of one column, filled with one by the rule, the
/// constant one is recovered with fewer than N allocations. The N-th is refused, and is not met.
/// Where no library refuses allocations nothing is recovered, and the answer is the same.
pub fn recover_below<R: Element>(
    alloc: Global,
    arguments: &str,
    text: &mut String,
) -> Result<(), Fault> {
    let (column, most) = split_at_mark(arguments, '@')?;
    let (lg, rule) = lg_and_rule(column)?;
    let most = short(most)?;
    let below = !are_made(alloc) || is_recovered_below(alloc, ones::<R>(alloc, lg, rule)?, most)?;
    text.push_str(if below { " below" } else { " beyond" })
        .map_err(Fault::Memory)
}
