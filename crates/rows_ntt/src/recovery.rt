//! Polynomials recovered from some rows of values.

use crate::bounds::keep_recoveries;
use crate::matrices::put_matrix;
use crate::refusing::recover_below;
use crate::transforms::has_domain;
use crate::vectors::{Values, filled_vector};
use math_base::algebra::{Additive, Mem, Object, Ring};
use math_fields::goldilocks::MODULUS;
use math_ntt::ntt::{PolynomialVector, Work};
use math_samples::elements::Element;
use rows_base::answer::{Answer, put};
use rows_base::fault::Fault;
use rows_base::refusals::{begin, end};
use rows_base::words::{number, split_at_mark, two_numbers};
use std::alloc::Global;

/// Runs a call of this module; `false` where it is none.
pub fn run<R: Element>(
    alloc: Global,
    call: &str,
    arguments: &str,
    answer: &mut Answer<R>,
) -> Result<bool, Fault> {
    let done = match call {
        "recover" => recover(alloc, arguments, answer),
        "recover_counted" => recover_counted(alloc, arguments, answer),
        "recover_ones" => recover_ones(alloc, arguments, answer),
        "recover_words" => recover_words(alloc, arguments, answer),
        "recover_ones_within" => recover_within(alloc, arguments, answer),
        "recover_below" => recover_below::<R>(alloc, arguments, &mut answer.text),
        "recover_each_set" => recover_each_set::<R>(alloc, arguments, &mut answer.text),
        _ => return Ok(false),
    };
    done.and(Ok(true))
}

/// The polynomials that fit.
pub(crate) fn recover_rows<R: Element>(
    alloc: Global,
    values: Values<R>,
) -> Result<PolynomialVector<R>, Fault> {
    if !has_domain::<R>(values.rows) {
        return Err(Fault::OutOfRange("no such domain"));
    }
    let given = begin(alloc, &());
    let polynomials = values.vector.recover(alloc);
    end(alloc, given, &(), polynomials.is_err());
    polynomials.map_err(Fault::Memory)
}

/// The polynomials that fit, and the work that they took.
fn recover_rows_counted<R: Element>(
    alloc: Global,
    values: Values<R>,
) -> Result<(PolynomialVector<R>, Work), Fault> {
    let (rows, cols) = (values.rows, values.cols);
    if !has_domain::<R>(rows) {
        return Err(Fault::OutOfRange("no such domain"));
    }
    let mut work = Work::new();
    let given = begin(alloc, &());
    let polynomials = values.vector.recover_counted(alloc, &mut work);
    end(alloc, given, &(), polynomials.is_err());
    keep_recoveries(alloc, &work, rows, cols, 1);
    Ok((polynomials?, work))
}

/// Which rows of a domain are filled.
#[derive(Clone, Copy)]
pub(crate) enum Rule {
    /// Those of even and of odd numbers, from these numbers on.
    From(usize, usize),
    /// Those below a number.
    Below(usize),
    /// Those that are multiples of a number.
    Multiples(usize),
    /// Those that are none.
    Others(usize),
    /// Those at the bits of a number.
    Bits(u64),
}

impl Rule {
    /// Whether a row is filled.
    fn fills(self, row: usize) -> bool {
        match self {
            Rule::From(even, odd) => row >= if row % 2 == 0 { even } else { odd },
            Rule::Below(end) => row < end,
            Rule::Multiples(d) => d != 0 && row % d == 0,
            Rule::Others(d) => d == 0 || row % d != 0,
            Rule::Bits(set) => row < 64 && (set >> row) & 1 == 1,
        }
    }
}

/// The first row that is filled of those of a parity, by what is missing of them: none (`n`), those
/// below half of the rows (`s`), or all (`e`).
fn start(missing: char, rows: usize) -> Result<usize, Fault> {
    match missing {
        'n' => Ok(0),
        's' => Ok(rows / 2),
        'e' => Ok(rows),
        _ => Err(Fault::Unreadable("rule")),
    }
}

/// The rule that words are: two letters, or a word and a number.
fn rule_in(text: &str, rows: usize) -> Result<Rule, Fault> {
    let text = text.trim();
    if let Some((name, n)) = text.split_once(' ') {
        let n = number(n.trim())? as usize;
        return match name {
            "below" => Ok(Rule::Below(n)),
            "multiples" => Ok(Rule::Multiples(n)),
            "others" => Ok(Rule::Others(n)),
            _ => Err(Fault::Unreadable("rule")),
        };
    }
    let mut letters = text.chars();
    match (letters.next(), letters.next()) {
        (Some(even), Some(odd)) => Ok(Rule::From(start(even, rows)?, start(odd, rows)?)),
        _ => Err(Fault::Unreadable("rule")),
    }
}

/// Fills the rows that the rule names with one.
fn fill_ones<R: Element>(alloc: Global, values: &mut Values<R>, rule: Rule) -> Result<(), Fault> {
    let mut one = Vec::new(alloc);
    one.push(R::one(alloc)?)?;
    for row in 0..values.rows {
        if rule.fills(row) {
            values.fill(alloc, row, &one)?;
        }
    }
    Ok(())
}

/// One column of 2^lg rows, of which those that the rule names are filled with one.
pub(crate) fn ones<R: Element>(alloc: Global, lg: u64, rule: Rule) -> Result<Values<R>, Fault> {
    let mut values = Values::empty(alloc, lg, 1)?;
    fill_ones(alloc, &mut values, rule)?;
    Ok(values)
}

/// Whether all cells equal an element.
fn all_equal<R: Element>(alloc: Global, cells: &[R], x: &R) -> Mem<bool> {
    for cell in cells {
        if !cell.equals(alloc, x)? {
            return Ok(false);
        }
    }
    Ok(true)
}

/// How many rows there are up to the last one that is not zero, and how many in all.
fn row_counts<R: Element>(alloc: Global, polynomials: &PolynomialVector<R>) -> Mem<(u64, u64)> {
    let zero = R::zero(alloc)?;
    let mut count = 0u64;
    let mut used = 0;
    for row in polynomials.coefficients_up_to(usize::MAX) {
        count = count.saturating_add(1);
        if !all_equal(alloc, row, &zero)? {
            used = count;
        }
    }
    Ok((used, count))
}

/// Adds the rows of coefficients up to the last one that is not zero, with `;` between them, and
/// how many rows of zeros follow.
pub(crate) fn put_rows<R: Element>(
    alloc: Global,
    polynomials: &PolynomialVector<R>,
    answer: &mut Answer<R>,
) -> Mem<()> {
    let (used, count) = row_counts(alloc, polynomials)?;
    for (i, row) in polynomials.coefficients_up_to(used as usize).enumerate() {
        if i > 0 {
            answer.text.push_str(" ;")?;
        }
        answer.copies(alloc, row)?;
    }
    write!(answer.text, " + {} zero rows", count.saturating_sub(used))
}

/// The rows of values of `LG COLUMNS ROW: CELL .. ; ..`.
pub(crate) fn listed_rows<R: Element>(alloc: Global, text: &str) -> Result<Values<R>, Fault> {
    let (lg, rest) = split_at_mark(text.trim(), ' ')?;
    let (cols, rows) = rest.split_once(' ').unwrap_or((rest, ""));
    let mut values = Values::empty(alloc, number(lg)?, number(cols)?)?;
    for part in rows.split(';') {
        if !part.trim().is_empty() {
            values.fill_from(alloc, part)?;
        }
    }
    Ok(values)
}

/// `recover LG COLUMNS ROW: CELL .. ; ..`: the rows of coefficients.
fn recover<R: Element>(
    alloc: Global,
    arguments: &str,
    answer: &mut Answer<R>,
) -> Result<(), Fault> {
    let polynomials = recover_rows(alloc, listed_rows::<R>(alloc, arguments)?)?;
    put_rows(alloc, &polynomials, answer).map_err(Fault::Memory)
}

/// Adds the butterflies and the root products.
fn put_work(work: &Work, text: &mut String) -> Mem<()> {
    write!(text, " {} {}", work.butterflies(), work.root_products())
}

/// `recover_counted LG COLUMNS @ ROW : CELL .. @ ..`: butterflies, root products, and the coefficients.
fn recover_counted<R: Element>(
    alloc: Global,
    arguments: &str,
    answer: &mut Answer<R>,
) -> Result<(), Fault> {
    let (polynomials, work) = recover_rows_counted(alloc, filled_vector::<R>(alloc, arguments)?)?;
    put_work(&work, &mut answer.text)?;
    put_matrix(alloc, &polynomials.data(), answer).map_err(Fault::Memory)
}

/// The rule and the lg of `LG RULE`.
pub(crate) fn lg_and_rule(text: &str) -> Result<(u64, Rule), Fault> {
    let (lg, words) = split_at_mark(text.trim(), ' ')?;
    let lg = number(lg)?;
    if lg >= 64 {
        return Err(Fault::OutOfRange("too many rows"));
    }
    Ok((lg, rule_in(words, 1 << lg)?))
}

/// `recover_ones LG RULE`: the rows of coefficients of one column, filled with one by the rule.
fn recover_ones<R: Element>(
    alloc: Global,
    arguments: &str,
    answer: &mut Answer<R>,
) -> Result<(), Fault> {
    let (lg, rule) = lg_and_rule(arguments)?;
    let polynomials = recover_rows(alloc, ones::<R>(alloc, lg, rule)?)?;
    put_rows(alloc, &polynomials, answer).map_err(Fault::Memory)
}

/// Adds `within` where the work is at most so much, else how much it is.
fn put_work_unless_within(
    work: &Work,
    butterflies: u64,
    root_products: u64,
    text: &mut String,
) -> Mem<()> {
    if work.butterflies() <= u128::from(butterflies)
        && work.root_products() <= u128::from(root_products)
    {
        return text.push_str(" within");
    }
    put_work(work, text)
}

/// `recover_ones_within LG RULE @ B R`: the same, and `within` where it took at most B butterflies and R
/// root products, else how many.
fn recover_within<R: Element>(
    alloc: Global,
    arguments: &str,
    answer: &mut Answer<R>,
) -> Result<(), Fault> {
    let (column, bounds) = split_at_mark(arguments, '@')?;
    let (lg, rule) = lg_and_rule(column)?;
    let (butterflies, root_products) = two_numbers(bounds)?;
    let (polynomials, work) = recover_rows_counted(alloc, ones::<R>(alloc, lg, rule)?)?;
    put_rows(alloc, &polynomials, answer)?;
    put_work_unless_within(&work, butterflies, root_products, &mut answer.text).map_err(
        Fault::Memory,
    )
}

/// Whether the first row of coefficients is one in each column.
fn begins_with_one<R: Element>(alloc: Global, polynomials: &PolynomialVector<R>) -> Mem<bool> {
    let one = R::one(alloc)?;
    for row in polynomials.coefficients_up_to(1) {
        if !all_equal(alloc, row, &one)? {
            return Ok(false);
        }
    }
    Ok(true)
}

/// Whether the polynomials are the constant one, or zero where `one` is false.
pub(crate) fn are_constant<R: Element>(
    alloc: Global,
    polynomials: &PolynomialVector<R>,
    one: bool,
) -> Mem<bool> {
    let (used, _count) = row_counts(alloc, polynomials)?;
    if used != u64::from(one) || !one {
        return Ok(used == u64::from(one));
    }
    begins_with_one(alloc, polynomials)
}

/// Whether of the set of rows that are filled with one the constant one is recovered, or zero of
/// none.
fn is_recovered<R: Element>(alloc: Global, lg: u64, set: u64) -> Result<bool, Fault> {
    let values = ones::<R>(alloc, lg, Rule::Bits(set))?;
    let polynomials = recover_rows(alloc, values)?;
    are_constant(alloc, &polynomials, set > 0).map_err(Fault::Memory)
}

/// `recover_each_set LG`: of how many sets of filled rows, with one in each, the constant one is
/// recovered, or zero of none. LG is at most 5.
fn recover_each_set<R: Element>(
    alloc: Global,
    arguments: &str,
    text: &mut String,
) -> Result<(), Fault> {
    let lg = number(arguments.trim())?;
    if lg > 5 {
        return Err(Fault::OutOfRange("too many sets"));
    }
    let Some(sets) = 1u64.checked_shl(1u32 << lg) else {
        return Err(Fault::OutOfRange("too many sets"));
    };
    let mut fits = 0u64;
    for set in 0..sets {
        fits = fits.saturating_add(u64::from(is_recovered::<R>(alloc, lg, set)?));
    }
    put(text, fits).map_err(Fault::Memory)
}

/// The next word of the generator splitmix64.
fn next_word(state: &mut u64) -> u64 {
    *state = state.wrapping_add(0x9e37_79b9_7f4a_7c15);
    let a = (*state ^ (*state >> 30)).wrapping_mul(0xbf58_476d_1ce4_e5b9);
    let b = (a ^ (a >> 27)).wrapping_mul(0x94d0_49bb_1331_11eb);
    b ^ (b >> 31)
}

/// The next word below P, of at most 64 looked at.
fn next_element<R: Element>(alloc: Global, state: &mut u64) -> Result<R, Fault> {
    for _ in 0..64 {
        let word = next_word(state);
        if word < MODULUS {
            return R::from_number(alloc, word).map_err(Fault::Memory);
        }
    }
    Err(Fault::Unreadable("element"))
}

/// The next two elements.
fn next_elements<R: Element>(alloc: Global, state: &mut u64) -> Result<Vec<R>, Fault> {
    let mut out = Vec::new(alloc);
    for _ in 0..2 {
        out.push(next_element(alloc, state)?)?;
    }
    Ok(out)
}

/// One step of the hash FNV-1a, for the eight bytes of a number, lowest first.
fn fnv1a_step(hash: u64, n: u64) -> u64 {
    let mut out = hash;
    for byte in n.to_le_bytes() {
        out = (out ^ u64::from(byte)).wrapping_mul(0x0000_0100_0000_01b3);
    }
    out
}

/// The hash FNV-1a of all coefficients.
fn fnv1a_hash<R: Element>(polynomials: &PolynomialVector<R>) -> u64 {
    let mut hash = 0xcbf2_9ce4_8422_2325;
    for row in polynomials.coefficients_up_to(usize::MAX) {
        for cell in row {
            hash = fnv1a_step(hash, cell.parts().0);
        }
    }
    hash
}

/// Fills the rows that the rule names with the next elements.
fn fill_words<R: Element>(
    alloc: Global,
    values: &mut Values<R>,
    rule: Rule,
    state: &mut u64,
) -> Result<(), Fault> {
    for row in 0..values.rows {
        if rule.fills(row) {
            values.fill(alloc, row, &next_elements::<R>(alloc, state)?)?;
        }
    }
    Ok(())
}

/// Two columns of words of splitmix64, whose state begins at lg times 2^32, in the rows that the
/// rule names.
fn words<R: Element>(alloc: Global, lg: u64, rule: Rule) -> Result<Values<R>, Fault> {
    let mut values = Values::<R>::empty(alloc, lg, 2)?;
    let mut state = lg << 32;
    fill_words(alloc, &mut values, rule, &mut state)?;
    Ok(values)
}

/// `recover_words LG RULE`: two columns of words of splitmix64, whose state begins at LG times 2^32, in the
/// rows that are filled, and the hash FNV-1a of all coefficients.
fn recover_words<R: Element>(
    alloc: Global,
    arguments: &str,
    answer: &mut Answer<R>,
) -> Result<(), Fault> {
    let (lg, rule) = lg_and_rule(arguments)?;
    let polynomials = recover_rows(alloc, words::<R>(alloc, lg, rule)?)?;
    write!(answer.text, " fnv {:016x}", fnv1a_hash(&polynomials)).map_err(Fault::Memory)
}
