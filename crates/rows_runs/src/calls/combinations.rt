//! Linear combinations of free generators and points of the field, as a group over itself.

use commonware_math::algebra::{Additive, Mem, Object, Space};
use commonware_math::poly::Poly;
use commonware_math::synthetic::{Generators, Synthetic};
use math_samples::elements::Element;
use rows_base::answer::{Answer, are_equal, put, put_debug, put_firsts};
use rows_base::fault::Fault;
use rows_base::refusals::{Breach, begin, end, tell};
use rows_base::words::{element, elements, number, numbers, split_at_mark};
use std::alloc::Global;

/// Runs a call of this module; `false` where it is none.
pub fn run<R: Element>(
    alloc: Global,
    call: &str,
    arguments: &str,
    answer: &mut Answer<R>,
) -> Result<bool, Fault> {
    match call {
        "synthetic" => value(alloc, arguments, answer)?,
        "synthetic_equals" => same(alloc, arguments, answer)?,
        "synthetic_clone" => copy(alloc, arguments, answer)?,
        "synthetic_text" => {
            let c = combination::<R>(alloc, arguments)?;
            put_debug(alloc, &c, &mut answer.text)?
        }
        "generators" => put_generators(alloc, arguments, answer)?,
        "three_generators" => put_three(alloc, arguments, answer)?,
        "commitments_add" => commitments(alloc, arguments, answer)?,
        _ => return Ok(false),
    }
    Ok(true)
}

/// `synthetic STEP .. @ G ..`: the greatest index that is stored, or `none`, and the value under the generators G.
fn value<R: Element>(alloc: Global, arguments: &str, answer: &mut Answer<R>) -> Result<(), Fault> {
    let (steps, generators) = split_at_mark(arguments, '@')?;
    let generators = elements::<R>(alloc, generators)?;
    put_value(alloc, combination::<R>(alloc, steps)?, &generators, answer)
}

/// Adds the greatest index that is stored, or `none`, and the value.
fn put_value<R: Element>(
    alloc: Global,
    c: Synthetic<R, R>,
    generators: &[R],
    answer: &mut Answer<R>,
) -> Result<(), Fault> {
    if let Some(i) = c.max_free_index() {
        if generators.len() <= i as usize {
            return Err(Fault::OutOfRange("a generator without a value"));
        }
        put(&mut answer.text, u64::from(i))?;
    } else {
        answer.text.push_str(" none")?;
    }
    let given = begin(alloc, &generators);
    let out = c.eval(alloc, generators);
    end(alloc, given, &generators, out.is_err());
    answer.element(out?)?;
    Ok(())
}

/// `synthetic_clone STEP .. @ G ..`: the same of a copy.
fn copy<R: Element>(alloc: Global, arguments: &str, answer: &mut Answer<R>) -> Result<(), Fault> {
    let (steps, generators) = split_at_mark(arguments, '@')?;
    let generators = elements::<R>(alloc, generators)?;
    let c = combination::<R>(alloc, steps)?;
    let given = begin(alloc, &c);
    let out = c.clone(alloc);
    end(alloc, given, &c, out.is_err());
    put_value(alloc, out?, &generators, answer)
}

/// `synthetic_equals STEP .. ; STEP .. ; ..`: for each combination the place of the first that it equals.
fn same<R: Element>(alloc: Global, arguments: &str, answer: &mut Answer<R>) -> Result<(), Fault> {
    let mut items = Vec::new(alloc);
    for steps in arguments.split(';') {
        items.push(combination::<R>(alloc, steps)?)?;
    }
    put_firsts(alloc, &items, &mut answer.text).map_err(Fault::Memory)
}

/// The next generator, or `None` at the end. After an `Err` there has to be no further one.
fn next<R: Element>(
    alloc: Global,
    items: &mut Generators<R, R>,
) -> Result<Option<Synthetic<R, R>>, Fault> {
    let given = begin(alloc, &());
    let item = items.next();
    end(alloc, given, &(), matches!(item, Some(Err(_))));
    match item {
        Some(Ok(generator)) => Ok(Some(generator)),
        Some(Err(refused)) => {
            if items.next().is_some() {
                tell(alloc, Breach::GoesOn);
            }
            Err(Fault::Memory(refused))
        }
        None => Ok(None),
    }
}

/// `generators G ..`: of the first generators, as many as these, index and value under the
/// generators G.
fn put_generators<R: Element>(
    alloc: Global,
    arguments: &str,
    answer: &mut Answer<R>,
) -> Result<(), Fault> {
    let values = elements::<R>(alloc, arguments)?;
    let mut items = Synthetic::<R, R>::generators(alloc);
    for _ in 0..values.len() {
        if let Some(generator) = next(alloc, &mut items)? {
            put_value(alloc, generator, &values, answer)?;
        }
    }
    Ok(())
}

/// `three_generators G ..`: of the first three generators, made at once, index and value under the
/// generators G.
fn put_three<R: Element>(
    alloc: Global,
    arguments: &str,
    answer: &mut Answer<R>,
) -> Result<(), Fault> {
    let values = elements::<R>(alloc, arguments)?;
    let given = begin(alloc, &());
    let out = Synthetic::<R, R>::generators_array::<3>(alloc);
    end(alloc, given, &(), out.is_err());
    for generator in out? {
        put_value(alloc, generator, &values, answer)?;
    }
    Ok(())
}

/// The commitment to a polynomial whose coefficients are numbers: the first generator, scaled by
/// each.
fn commitment<R: Element>(alloc: Global, text: &str) -> Result<Poly<Synthetic<R, R>>, Fault> {
    let generator = generator::<R>(alloc, 0)?;
    let mut coefficients = Vec::new(alloc);
    for n in &numbers(alloc, text)? {
        coefficients.push(multiple(alloc, &generator, *n)?)?;
    }
    if coefficients.is_empty() || coefficients.len() > u32::MAX as usize {
        return Err(Fault::OutOfRange("no coefficient, or 2^32"));
    }
    Ok(Poly::from_coefficients(coefficients))
}

/// `commitments_add A .. @ B .. @ C ..`: whether the commitments to two polynomials add up to that
/// to a third.
fn commitments<R: Element>(
    alloc: Global,
    arguments: &str,
    answer: &mut Answer<R>,
) -> Result<(), Fault> {
    let (a, rest) = split_at_mark(arguments, '@')?;
    let (b, c) = split_at_mark(rest, '@')?;
    let mut sum = commitment::<R>(alloc, a)?;
    add_commitment(alloc, &mut sum, &commitment::<R>(alloc, b)?)?;
    let equal = are_equal(alloc, &sum, &commitment::<R>(alloc, c)?)?;
    answer
        .text
        .push_str(if equal { " equal" } else { " not equal" })?;
    Ok(())
}

/// Adds another commitment to a first.
fn add_commitment<R: Element>(
    alloc: Global,
    sum: &mut Poly<Synthetic<R, R>>,
    other: &Poly<Synthetic<R, R>>,
) -> Mem<()> {
    let given = begin(alloc, &(&*sum, other));
    let done = sum.add_assign(alloc, other);
    end(alloc, given, &(&*sum, other), done.is_err());
    done
}

/// The combination that is on top after these steps.
fn combination<R: Element>(alloc: Global, steps: &str) -> Result<Synthetic<R, R>, Fault> {
    let mut stack = Vec::new(alloc);
    for step in steps.split_whitespace() {
        let next = take_step::<R>(alloc, step, &mut stack)?;
        stack.push(next)?;
    }
    top(&mut stack)
}

/// The combination on top, which is taken away.
fn top<R: Element>(stack: &mut Vec<Synthetic<R, R>>) -> Result<Synthetic<R, R>, Fault> {
    stack
        .pop()
        .ok_or(Fault::Unreadable("combination on the stack"))
}

/// What a step puts on top: `gI` generator I, `cS*P,..` the points P with the weights S, and of
/// what it takes from the top `*X` the multiple by X, and `*=X` the same in place, `sN` the N-fold
/// sum, and what the other steps make of it.
fn take_step<R: Element>(
    alloc: Global,
    step: &str,
    stack: &mut Vec<Synthetic<R, R>>,
) -> Result<Synthetic<R, R>, Fault> {
    if let Some(index) = step.strip_prefix('g') {
        return generator::<R>(alloc, number(index)?);
    }
    if let Some(terms) = step.strip_prefix('c') {
        return concrete(alloc, weighted_points::<R>(alloc, terms)?);
    }
    if let Some(factor) = step.strip_prefix("*=") {
        let factor = element::<R>(alloc, factor)?;
        return scaled_in_place(alloc, top(stack)?, &factor);
    }
    if let Some(factor) = step.strip_prefix('*') {
        let factor = element::<R>(alloc, factor)?;
        return multiple_of(alloc, top(stack)?, &factor);
    }
    if let Some(count) = step.strip_prefix('s') {
        let count = number(count)?;
        return multiple(alloc, &top(stack)?, count);
    }
    if let Some(scalars) = step.strip_prefix('m') {
        return weighted_sum(alloc, scalars, stack);
    }
    of_top(alloc, step, stack)
}

/// The combination of points with weights.
fn concrete<R: Element>(alloc: Global, terms: Vec<(R, R)>) -> Result<Synthetic<R, R>, Fault> {
    let given = begin(alloc, &());
    let out = Synthetic::concrete(alloc, terms);
    end(alloc, given, &(), out.is_err());
    Ok(out?)
}

/// The multiple by an element.
fn multiple_of<R: Element>(
    alloc: Global,
    c: Synthetic<R, R>,
    factor: &R,
) -> Result<Synthetic<R, R>, Fault> {
    let given = begin(alloc, factor);
    let out = Space::<R>::scaled(c, alloc, factor);
    end(alloc, given, factor, out.is_err());
    Ok(out?)
}

/// The multiple by an element, made in place.
fn scaled_in_place<R: Element>(
    alloc: Global,
    c: Synthetic<R, R>,
    factor: &R,
) -> Result<Synthetic<R, R>, Fault> {
    let mut c = c;
    let given = begin(alloc, &(&c, factor));
    let done = Space::<R>::scale_assign(&mut c, alloc, factor);
    end(alloc, given, &(&c, factor), done.is_err());
    done?;
    Ok(c)
}

/// The multiple by a number.
fn multiple<R: Element>(
    alloc: Global,
    c: &Synthetic<R, R>,
    count: u64,
) -> Result<Synthetic<R, R>, Fault> {
    let given = begin(alloc, c);
    let out = c.scale(alloc, &[count]);
    end(alloc, given, c, out.is_err());
    Ok(out?)
}

/// The free generator of an index.
fn generator<R: Element>(alloc: Global, index: u64) -> Result<Synthetic<R, R>, Fault> {
    if index > u64::from(u32::MAX) {
        return Err(Fault::OutOfRange("an index of 2^32 or more"));
    }
    let mut items = Synthetic::<R, R>::generators(alloc);
    for _ in 0..index {
        let _passed = next(alloc, &mut items)?;
    }
    next(alloc, &mut items)?.ok_or(Fault::Unreadable("generator"))
}

/// The weights and the points of `S*P,..`.
fn weighted_points<R: Element>(alloc: Global, terms: &str) -> Result<Vec<(R, R)>, Fault> {
    let mut out = Vec::new(alloc);
    for term in terms.split_terminator(',') {
        let (weight, point) = split_at_mark(term, '*')?;
        let weight = element::<R>(alloc, weight)?;
        out.push((weight, element::<R>(alloc, point)?))?;
    }
    Ok(out)
}

/// `mX,Y`: the sum of the two on top, the lower one times X and the upper one times Y.
fn weighted_sum<R: Element>(
    alloc: Global,
    scalars: &str,
    stack: &mut Vec<Synthetic<R, R>>,
) -> Result<Synthetic<R, R>, Fault> {
    let (x, y) = split_at_mark(scalars, ',')?;
    let mut weights = Vec::new(alloc);
    weights.push(element::<R>(alloc, x)?)?;
    weights.push(element::<R>(alloc, y)?)?;
    let points = two(alloc, stack)?;
    let given = begin(alloc, &(&points, &weights));
    let out = Space::<R>::msm(alloc, &points, &weights);
    end(alloc, given, &(&points, &weights), out.is_err());
    Ok(out?)
}

/// The two on top, the lower one first.
fn two<R: Element>(
    alloc: Global,
    stack: &mut Vec<Synthetic<R, R>>,
) -> Result<Vec<Synthetic<R, R>>, Fault> {
    let upper = top(stack)?;
    let lower = top(stack)?;
    let mut out = Vec::new(alloc);
    out.push(lower)?;
    out.push(upper)?;
    Ok(out)
}

/// `z` zero; of what is on top `n` the negative, `d` the double; of the two on top `+` the sum, `-`
/// the difference, and `+=` and `-=` the same in place.
fn of_top<R: Element>(
    alloc: Global,
    step: &str,
    stack: &mut Vec<Synthetic<R, R>>,
) -> Result<Synthetic<R, R>, Fault> {
    match step {
        "z" => zero(alloc),
        "n" => negative(alloc, top(stack)?),
        "d" => double(alloc, top(stack)?),
        "+" | "-" => {
            let b = top(stack)?;
            of_two(alloc, step, top(stack)?, &b)
        }
        "+=" | "-=" => {
            let b = top(stack)?;
            changed_by(alloc, step, top(stack)?, &b)
        }
        _ => Err(Fault::Unreadable("step")),
    }
}

/// Zero.
fn zero<R: Element>(alloc: Global) -> Result<Synthetic<R, R>, Fault> {
    let given = begin(alloc, &());
    let out = Synthetic::<R, R>::zero(alloc);
    end(alloc, given, &(), out.is_err());
    Ok(out?)
}

/// The negative.
fn negative<R: Element>(alloc: Global, c: Synthetic<R, R>) -> Result<Synthetic<R, R>, Fault> {
    let given = begin(alloc, &());
    let out = c.neg(alloc);
    end(alloc, given, &(), out.is_err());
    Ok(out?)
}

/// Twice the combination.
fn double<R: Element>(alloc: Global, c: Synthetic<R, R>) -> Result<Synthetic<R, R>, Fault> {
    let mut c = c;
    let given = begin(alloc, &c);
    let done = c.double(alloc);
    end(alloc, given, &c, done.is_err());
    done?;
    Ok(c)
}

/// The sum for `+`, else the difference.
fn of_two<R: Element>(
    alloc: Global,
    step: &str,
    a: Synthetic<R, R>,
    b: &Synthetic<R, R>,
) -> Result<Synthetic<R, R>, Fault> {
    let given = begin(alloc, b);
    let out = match step {
        "+" => a.add(alloc, b),
        _ => a.sub(alloc, b),
    };
    end(alloc, given, b, out.is_err());
    Ok(out?)
}

/// The sum for `+=`, else the difference, made in place.
fn changed_by<R: Element>(
    alloc: Global,
    step: &str,
    a: Synthetic<R, R>,
    b: &Synthetic<R, R>,
) -> Result<Synthetic<R, R>, Fault> {
    let mut a = a;
    let given = begin(alloc, &(&a, b));
    let done = match step {
        "+=" => a.add_assign(alloc, b),
        _ => a.sub_assign(alloc, b),
    };
    end(alloc, given, &(&a, b), done.is_err());
    done?;
    Ok(a)
}
