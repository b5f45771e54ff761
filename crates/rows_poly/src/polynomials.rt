//! Polynomials.

use math_base::algebra::{Additive, Mem, Object, Space};
use math_poly::poly::Poly;
use math_samples::elements::Element;
use rows_base::answer::{Answer, put, put_firsts};
use rows_base::fault::Fault;
use rows_base::refusals::{begin, end};
use rows_base::words::{element, elements, numbers, split_at_mark};
use std::alloc::Global;

/// Runs a call of this module; `false` where it is none.
pub fn run<R: Element>(
    alloc: Global,
    call: &str,
    arguments: &str,
    answer: &mut Answer<R>,
) -> Result<bool, Fault> {
    let p = match call {
        "poly_zero" => zero(alloc),
        "poly_clone" | "poly_neg" => of_one(alloc, call, arguments),
        "poly_double" => double(alloc, arguments),
        "poly_add" | "poly_sub" => of_two(alloc, call, arguments),
        "poly_add_assign" | "poly_sub_assign" => by_another(alloc, call, arguments),
        "poly_scaled" => multiple(alloc, arguments),
        "poly_scale_assign" => scaled_in_place(alloc, arguments),
        "translate" => translate(alloc, arguments),
        "poly_scale" => by_limbs(alloc, arguments),
        "poly_msm" => weighted_sum(alloc, arguments),
        _ => return run_others(alloc, call, arguments, answer),
    };
    put_found(alloc, p, answer).and(Ok(true))
}

/// `poly_zero`.
fn zero<R: Element>(alloc: Global) -> Result<Poly<R>, Fault> {
    let given = begin(alloc, &());
    let out = Poly::<R>::zero(alloc);
    end(alloc, given, &(), out.is_err());
    out.map_err(Fault::Memory)
}

/// Runs a call that answers no polynomial; `false` where it is none.
fn run_others<R: Element>(
    alloc: Global,
    call: &str,
    arguments: &str,
    answer: &mut Answer<R>,
) -> Result<bool, Fault> {
    let done = match call {
        "eval" | "eval_msm" => answer.found(eval(alloc, call, arguments)),
        "lin_comb_eval" => answer.found(combined_values(alloc, arguments)),
        "poly_equals" => same(alloc, arguments, answer),
        "degree" => sizes(alloc, arguments, answer),
        _ => return Ok(false),
    };
    done.and(Ok(true))
}

/// The polynomial whose coefficients are the words, from the constant upwards.
pub fn polynomial<R: Element>(alloc: Global, text: &str) -> Result<Poly<R>, Fault> {
    let coefficients = elements::<R>(alloc, text)?;
    if coefficients.is_empty() || coefficients.len() > u32::MAX as usize {
        return Err(Fault::OutOfRange("no coefficient, or 2^32"));
    }
    Ok(Poly::from_coefficients(coefficients))
}

/// The polynomials of a text, with `;` between them.
pub fn polynomials<R: Element>(alloc: Global, text: &str) -> Result<Vec<Poly<R>>, Fault> {
    let mut out = Vec::new(alloc);
    for part in text.split(';') {
        out.push(polynomial::<R>(alloc, part)?)?;
    }
    Ok(out)
}

/// Adds the stored coefficients.
pub fn put_stored<R: Element>(alloc: Global, p: &Poly<R>, answer: &mut Answer<R>) -> Mem<()> {
    answer.copies(alloc, p.coefficients())
}

/// Adds the stored coefficients of the polynomial that was found, or says why there is none.
fn put_found<R: Element>(
    alloc: Global,
    p: Result<Poly<R>, Fault>,
    answer: &mut Answer<R>,
) -> Result<(), Fault> {
    put_stored(alloc, &p?, answer).map_err(Fault::Memory)
}

/// The value at x, by `eval` or by `eval_msm`.
fn value<R: Element>(alloc: Global, call: &str, p: &Poly<R>, x: &R) -> Mem<R> {
    match call {
        "eval" => p.eval(alloc, x),
        _ => p.eval_msm(alloc, x),
    }
}

/// `eval C .. @ X`, `eval_msm C .. @ X`: the value at X.
fn eval<R: Element>(alloc: Global, call: &str, arguments: &str) -> Result<R, Fault> {
    let (coefficients, point) = split_at_mark(arguments, '@')?;
    let p = polynomial::<R>(alloc, coefficients)?;
    let x = element::<R>(alloc, point)?;
    let given = begin(alloc, &(&p, &x));
    let out = value(alloc, call, &p, &x);
    end(alloc, given, &(&p, &x), out.is_err());
    out.map_err(Fault::Memory)
}

/// The weight and the point of `W:X`, with this mark between them.
pub fn weighted_point<R: Element>(alloc: Global, word: &str, mark: char) -> Result<(R, R), Fault> {
    let (weight, point) = split_at_mark(word, mark)?;
    let weight = element::<R>(alloc, weight)?;
    Ok((weight, element::<R>(alloc, point)?))
}

/// The weights and the points of `W:X ..`.
fn weighted_points<R: Element>(alloc: Global, text: &str) -> Result<Vec<(R, R)>, Fault> {
    let mut out = Vec::new(alloc);
    for word in text.split_whitespace() {
        out.push(weighted_point::<R>(alloc, word, ':')?)?;
    }
    Ok(out)
}

/// `lin_comb_eval C .. @ W:X ..`: the sum of the values at the points X, each times its weight W.
fn combined_values<R: Element>(alloc: Global, arguments: &str) -> Result<R, Fault> {
    let (coefficients, pairs) = split_at_mark(arguments, '@')?;
    let p = polynomial::<R>(alloc, coefficients)?;
    let pairs = weighted_points::<R>(alloc, pairs)?;
    let given = begin(alloc, &(&p, &pairs));
    let out = p.lin_comb_eval(alloc, &pairs);
    end(alloc, given, &(&p, &pairs), out.is_err());
    out.map_err(Fault::Memory)
}

/// A copy of the polynomial.
fn clone_of<R: Element>(alloc: Global, p: &Poly<R>) -> Mem<Poly<R>> {
    let given = begin(alloc, p);
    let out = p.clone(alloc);
    end(alloc, given, p, out.is_err());
    out
}

/// The negative, of a polynomial that is taken.
fn negative<R: Element>(alloc: Global, p: Poly<R>) -> Mem<Poly<R>> {
    let given = begin(alloc, &());
    let out = p.neg(alloc);
    end(alloc, given, &(), out.is_err());
    out
}

/// `poly_clone C ..`, `poly_neg C ..`.
fn of_one<R: Element>(alloc: Global, call: &str, arguments: &str) -> Result<Poly<R>, Fault> {
    let p = polynomial::<R>(alloc, arguments)?;
    let out = match call {
        "poly_clone" => clone_of(alloc, &p),
        _ => negative(alloc, p),
    };
    out.map_err(Fault::Memory)
}

/// `poly_double C ..`.
fn double<R: Element>(alloc: Global, arguments: &str) -> Result<Poly<R>, Fault> {
    let mut p = polynomial::<R>(alloc, arguments)?;
    let given = begin(alloc, &p);
    let done = p.double(alloc);
    end(alloc, given, &p, done.is_err());
    done?;
    Ok(p)
}

/// The sum for `poly_add`, else the difference.
fn sum_or_difference<R: Element>(
    alloc: Global,
    call: &str,
    p: Poly<R>,
    q: &Poly<R>,
) -> Mem<Poly<R>> {
    match call {
        "poly_add" => p.add(alloc, q),
        _ => p.sub(alloc, q),
    }
}

/// The polynomials of `A .. @ B ..`.
fn two<R: Element>(alloc: Global, text: &str) -> Result<(Poly<R>, Poly<R>), Fault> {
    let (a, b) = split_at_mark(text, '@')?;
    let p = polynomial::<R>(alloc, a)?;
    Ok((p, polynomial::<R>(alloc, b)?))
}

/// `poly_add A .. @ B ..`, `poly_sub A .. @ B ..`.
fn of_two<R: Element>(alloc: Global, call: &str, arguments: &str) -> Result<Poly<R>, Fault> {
    let (p, q) = two::<R>(alloc, arguments)?;
    let given = begin(alloc, &q);
    let out = sum_or_difference(alloc, call, p, &q);
    end(alloc, given, &q, out.is_err());
    out.map_err(Fault::Memory)
}

/// Adds q for `poly_add_assign`, else takes it away.
fn change_by<R: Element>(alloc: Global, call: &str, p: &mut Poly<R>, q: &Poly<R>) -> Mem<()> {
    match call {
        "poly_add_assign" => p.add_assign(alloc, q),
        _ => p.sub_assign(alloc, q),
    }
}

/// `poly_add_assign A .. @ B ..`, `poly_sub_assign A .. @ B ..`.
fn by_another<R: Element>(alloc: Global, call: &str, arguments: &str) -> Result<Poly<R>, Fault> {
    let (mut p, q) = two::<R>(alloc, arguments)?;
    let given = begin(alloc, &(&p, &q));
    let done = change_by(alloc, call, &mut p, &q);
    end(alloc, given, &(&p, &q), done.is_err());
    done?;
    Ok(p)
}

/// The polynomial and the element of `C .. @ X`.
fn with_element<R: Element>(alloc: Global, text: &str) -> Result<(Poly<R>, R), Fault> {
    let (coefficients, x) = split_at_mark(text, '@')?;
    let p = polynomial::<R>(alloc, coefficients)?;
    Ok((p, element::<R>(alloc, x)?))
}

/// `poly_scaled C .. @ X`: the multiple by X.
fn multiple<R: Element>(alloc: Global, arguments: &str) -> Result<Poly<R>, Fault> {
    let (p, x) = with_element::<R>(alloc, arguments)?;
    let given = begin(alloc, &x);
    let out = Space::<R>::scaled(p, alloc, &x);
    end(alloc, given, &x, out.is_err());
    out.map_err(Fault::Memory)
}

/// `poly_scale_assign C .. @ X`: the multiple by X.
fn scaled_in_place<R: Element>(alloc: Global, arguments: &str) -> Result<Poly<R>, Fault> {
    let (mut p, x) = with_element::<R>(alloc, arguments)?;
    let given = begin(alloc, &(&p, &x));
    let done = Space::<R>::scale_assign(&mut p, alloc, &x);
    end(alloc, given, &(&p, &x), done.is_err());
    done?;
    Ok(p)
}

/// `translate C .. @ X`: X is added to each coefficient.
fn translate<R: Element>(alloc: Global, arguments: &str) -> Result<Poly<R>, Fault> {
    let (p, x) = with_element::<R>(alloc, arguments)?;
    let given = begin(alloc, &(&p, &x));
    let out = p.translate(alloc, |c: &R| c.clone(alloc)?.add(alloc, &x));
    end(alloc, given, &(&p, &x), out.is_err());
    out.map_err(Fault::Memory)
}

/// `poly_scale C .. @ LIMB ..`: the multiple.
fn by_limbs<R: Element>(alloc: Global, arguments: &str) -> Result<Poly<R>, Fault> {
    let (coefficients, limbs) = split_at_mark(arguments, '@')?;
    let limbs = numbers(alloc, limbs)?;
    let p = polynomial::<R>(alloc, coefficients)?;
    let given = begin(alloc, &(&p, &limbs));
    let out = p.scale(alloc, &limbs);
    end(alloc, given, &(&p, &limbs), out.is_err());
    out.map_err(Fault::Memory)
}

/// `poly_msm A .. ; B .. ; .. @ S ..`: the sum of the multiples.
fn weighted_sum<R: Element>(alloc: Global, arguments: &str) -> Result<Poly<R>, Fault> {
    let (points, scalars) = split_at_mark(arguments, '@')?;
    let points = polynomials::<R>(alloc, points)?;
    let scalars = elements::<R>(alloc, scalars)?;
    let given = begin(alloc, &(&points, &scalars));
    let out = Space::<R>::msm(alloc, &points, &scalars);
    end(alloc, given, &(&points, &scalars), out.is_err());
    out.map_err(Fault::Memory)
}

/// `poly_equals A .. ; B .. ; ..`: for each polynomial the place of the first that it equals.
fn same<R: Element>(alloc: Global, arguments: &str, answer: &mut Answer<R>) -> Result<(), Fault> {
    let items = polynomials::<R>(alloc, arguments)?;
    put_firsts(alloc, &items, &mut answer.text).map_err(Fault::Memory)
}

/// Adds the degree, the exact degree, and the number of values that fix the polynomial.
fn put_sizes<R: Element>(alloc: Global, p: &Poly<R>, text: &mut String) -> Mem<()> {
    let given = begin(alloc, p);
    let exact = p.degree_exact(alloc);
    end(alloc, given, p, exact.is_err());
    put(text, u64::from(p.degree()))?;
    put(text, u64::from(exact?))?;
    put(text, u64::from(p.required().get()))
}

/// `degree C ..`: the degree, the exact degree, the number of values that fix the polynomial, and the
/// constant.
fn sizes<R: Element>(alloc: Global, arguments: &str, answer: &mut Answer<R>) -> Result<(), Fault> {
    let p = polynomial::<R>(alloc, arguments)?;
    put_sizes(alloc, &p, &mut answer.text)?;
    answer
        .element(p.constant().clone(alloc)?)
        .map_err(Fault::Memory)
}
