//! Operations of a field.

ghost use Rattle.std.specs.Prelude.{◌≤◌, ◌⊎◌};

use crate::answer::{Answer, put, put_firsts};
use crate::fault::Fault;
use crate::refusals::{Breach, begin, end, tell};
use crate::words::{element, elements, number, numbers, split_at_mark};
use math_base::algebra::{Mem, Powers, Space, msm_naive, powers};
use math_samples::elements::Element;
use std::alloc::Global;

/// Runs a call of this module; `false` where it is none.
pub fn run<R: Element>(
    alloc: Global,
    call: &str,
    arguments: &str,
    answer: &mut Answer<R>,
) -> Result<bool, Fault> {
    let x = match call {
        "zero" | "one" | "coset_shift" | "coset_shift_inv" => constant(alloc, call),
        "neg" => negative(alloc, arguments),
        "inv" | "div_2" | "clone" => of_one(alloc, call, arguments),
        "double" | "square" => in_place(alloc, call, arguments),
        "add" | "sub" | "mul" | "scaled" => of_two(alloc, call, arguments),
        "add_assign" | "sub_assign" | "mul_assign" | "scale_assign" => {
            by_another(alloc, call, arguments)
        }
        "scale" | "exp" => by_limbs(alloc, call, arguments),
        "msm" | "msm_naive" => weighted_sum(alloc, call, arguments),
        "sum_of_products" => of_four(alloc, arguments),
        _ => return run_others(alloc, call, arguments, answer),
    };
    answer.found(x).and(Ok(true))
}

/// Runs a call that answers more than an element, or none; `false` where it is none.
fn run_others<R: Element>(
    alloc: Global,
    call: &str,
    arguments: &str,
    answer: &mut Answer<R>,
) -> Result<bool, Fault> {
    let done = match call {
        "powers" => progression(alloc, arguments, answer),
        "root_of_unity" => root(alloc, arguments, answer),
        "times_root_of_four" => by_root_of_four(alloc, arguments, answer),
        "equals" => same(alloc, arguments, answer),
        "parts" => parts(alloc, arguments, answer),
        "parts_add" | "parts_sub" | "parts_mul" => parts_of_two(alloc, call, arguments, answer),
        _ => return Ok(false),
    };
    done.and(Ok(true))
}

/// One of the elements that a field names.
fn named_element<R: Element>(alloc: Global, call: &str) -> Mem<R> {
    match call {
        "zero" => R::zero(alloc),
        "one" => R::one(alloc),
        "coset_shift" => R::coset_shift(alloc),
        _ => R::coset_shift_inv(alloc),
    }
}

/// `zero`, `one`, `coset_shift`, `coset_shift_inv`.
fn constant<R: Element>(alloc: Global, call: &str) -> Result<R, Fault> {
    let given = begin(alloc, &());
    let out = named_element(alloc, call);
    end(alloc, given, &(), out.is_err());
    out.map_err(Fault::Memory)
}

/// `neg A`.
fn negative<R: Element>(alloc: Global, arguments: &str) -> Result<R, Fault> {
    let x = element::<R>(alloc, arguments)?;
    let given = begin(alloc, &());
    let out = x.neg(alloc);
    end(alloc, given, &(), out.is_err());
    out.map_err(Fault::Memory)
}

/// The operation of one element that is read.
fn call_on_one<R: Element>(alloc: Global, call: &str, x: &R) -> Mem<R> {
    match call {
        "inv" => x.inv(alloc),
        "div_2" => x.div_2(alloc),
        _ => x.clone(alloc),
    }
}

/// `inv A`, `div_2 A`, `clone A`.
fn of_one<R: Element>(alloc: Global, call: &str, arguments: &str) -> Result<R, Fault> {
    let x = element::<R>(alloc, arguments)?;
    let given = begin(alloc, &x);
    let out = call_on_one(alloc, call, &x);
    end(alloc, given, &x, out.is_err());
    out.map_err(Fault::Memory)
}

/// The operation of one element in place.
fn change<R: Element>(alloc: Global, call: &str, x: &mut R) -> Mem<()> {
    match call {
        "double" => x.double(alloc),
        _ => x.square(alloc),
    }
}

/// `double A`, `square A`.
fn in_place<R: Element>(alloc: Global, call: &str, arguments: &str) -> Result<R, Fault> {
    let mut x = element::<R>(alloc, arguments)?;
    let given = begin(alloc, &x);
    let done = change(alloc, call, &mut x);
    end(alloc, given, &x, done.is_err());
    done?;
    Ok(x)
}

/// The operation of two elements.
fn call_on_two<R: Element>(alloc: Global, call: &str, a: R, b: &R) -> Mem<R> {
    match call {
        "add" | "parts_add" => a.add(alloc, b),
        "sub" | "parts_sub" => a.sub(alloc, b),
        "scaled" => Space::<R>::scaled(a, alloc, b),
        _ => a.mul(alloc, b),
    }
}

/// `add A B`, `sub A B`, `mul A B`, `scaled A B`.
fn of_two<R: Element>(alloc: Global, call: &str, arguments: &str) -> Result<R, Fault> {
    let (a, b) = split_at_mark(arguments, ' ')?;
    let a = element::<R>(alloc, a)?;
    let b = element::<R>(alloc, b)?;
    let given = begin(alloc, &b);
    let out = call_on_two(alloc, call, a, &b);
    end(alloc, given, &b, out.is_err());
    out.map_err(Fault::Memory)
}

/// The operation of an element in place, by another.
fn change_by<R: Element>(alloc: Global, call: &str, a: &mut R, b: &R) -> Mem<()> {
    match call {
        "add_assign" => a.add_assign(alloc, b),
        "sub_assign" => a.sub_assign(alloc, b),
        "mul_assign" => a.mul_assign(alloc, b),
        _ => Space::<R>::scale_assign(a, alloc, b),
    }
}

/// `add_assign A B`, `sub_assign A B`, `mul_assign A B`, `scale_assign A B`.
fn by_another<R: Element>(alloc: Global, call: &str, arguments: &str) -> Result<R, Fault> {
    let (a, b) = split_at_mark(arguments, ' ')?;
    let mut a = element::<R>(alloc, a)?;
    let b = element::<R>(alloc, b)?;
    let given = begin(alloc, &(&a, &b));
    let done = change_by(alloc, call, &mut a, &b);
    end(alloc, given, &(&a, &b), done.is_err());
    done?;
    Ok(a)
}

/// The multiple for `scale`, else the power.
fn repeat<R: Element>(alloc: Global, call: &str, x: &R, limbs: &[u64]) -> Mem<R> {
    match call {
        "scale" => x.scale(alloc, limbs),
        _ => x.exp(alloc, limbs),
    }
}

/// `scale A @ LIMB ..`, `exp A @ LIMB ..`: the multiple and the power.
fn by_limbs<R: Element>(alloc: Global, call: &str, arguments: &str) -> Result<R, Fault> {
    let (x, limbs) = split_at_mark(arguments, '@')?;
    let limbs = numbers(alloc, limbs)?;
    let x = element::<R>(alloc, x)?;
    let given = begin(alloc, &(&x, &limbs));
    let out = repeat(alloc, call, &x, &limbs);
    end(alloc, given, &(&x, &limbs), out.is_err());
    out.map_err(Fault::Memory)
}

/// The sum of the points, each scaled, by `msm` or by `msm_naive`.
fn sum<R: Element>(alloc: Global, call: &str, points: &[R], scalars: &[R]) -> Mem<R> {
    match call {
        "msm" => R::msm(alloc, points, scalars),
        _ => msm_naive::<R, R>(alloc, points, scalars),
    }
}

/// `msm P .. @ S ..`, `msm_naive P .. @ S ..`: the sum of the points, each scaled.
fn weighted_sum<R: Element>(alloc: Global, call: &str, arguments: &str) -> Result<R, Fault> {
    let (points, scalars) = split_at_mark(arguments, '@')?;
    let points = elements::<R>(alloc, points)?;
    let scalars = elements::<R>(alloc, scalars)?;
    let given = begin(alloc, &(&points, &scalars));
    let out = sum(alloc, call, &points, &scalars);
    end(alloc, given, &(&points, &scalars), out.is_err());
    out.map_err(Fault::Memory)
}

/// `sum_of_products A X B Y`: a x + b y.
fn of_four<R: Element>(alloc: Global, arguments: &str) -> Result<R, Fault> {
    let factors = elements::<R>(alloc, arguments)?;
    let [a, x, b, y] = &factors[..] else {
        return Err(Fault::OutOfRange("four factors"));
    };
    let given = begin(alloc, &factors);
    let out = R::sum_of_products(alloc, a, x, b, y);
    end(alloc, given, &factors, out.is_err());
    out.map_err(Fault::Memory)
}

/// Adds the next item. After an `Err` there has to be no further one.
fn put_next<R: Element>(
    alloc: Global,
    items: &mut Powers<'_, R>,
    base: &R,
    answer: &mut Answer<R>,
) -> Mem<()> {
    let given = begin(alloc, base);
    let item = items.next();
    end(alloc, given, base, matches!(item, Some(Err(_))));
    match item {
        Some(Ok(power)) => answer.element(power),
        Some(Err(refused)) => {
            if items.next().is_some() {
                tell(alloc, Breach::GoesOn);
            }
            Err(refused)
        }
        None => answer.text.push_str(" end"),
    }
}

/// Adds the first powers of an element, each times `shift`.
fn put_powers<R: Element>(
    alloc: Global,
    shift: R,
    base: &R,
    count: usize,
    answer: &mut Answer<R>,
) -> Mem<()> {
    let mut items = powers(alloc, shift, base);
    for _ in 0..count {
        put_next(alloc, &mut items, base, answer)?;
    }
    Ok(())
}

/// `powers SHIFT BASE @ N`: the first N items.
fn progression<R: Element>(
    alloc: Global,
    arguments: &str,
    answer: &mut Answer<R>,
) -> Result<(), Fault> {
    let (terms, count) = split_at_mark(arguments, '@')?;
    let (shift, base) = split_at_mark(terms.trim(), ' ')?;
    let count = number(count.trim())? as usize;
    let shift = element::<R>(alloc, shift)?;
    let base = element::<R>(alloc, base)?;
    put_powers(alloc, shift, &base, count, answer).map_err(Fault::Memory)
}

/// Adds the root of unity of the order 2^lg, or `none`.
fn put_root<R: Element>(alloc: Global, lg: u8, answer: &mut Answer<R>) -> Mem<()> {
    let given = begin(alloc, &());
    let root = R::root_of_unity(alloc, lg);
    end(alloc, given, &(), root.is_err());
    match root? {
        Some(root) => answer.element(root),
        None => answer.text.push_str(" none"),
    }
}

/// `root_of_unity LG`: the root, or `none`.
fn root<R: Element>(alloc: Global, arguments: &str, answer: &mut Answer<R>) -> Result<(), Fault> {
    let lg = number(arguments)?;
    if lg > 255 {
        return Err(Fault::OutOfRange("lg above 255"));
    }
    put_root(alloc, lg as u8, answer).map_err(Fault::Memory)
}

/// Adds the product of x and `root`.
fn put_multiple<R: Element>(alloc: Global, x: &R, root: &R, answer: &mut Answer<R>) -> Mem<()>
    requires order { 2 ≤ R.MAX_LG_ROOT_ORDER }
    requires root { R.same root.now (R.root 2) ⊎ R.same root.now (R.inverse (R.root 2)) }
{
    let mut out = x.clone(alloc)?;
    let given = begin(alloc, &out);
    let done = out.times_root_of_four(alloc, root);
    end(alloc, given, &out, done.is_err());
    done?;
    answer.element(out)
}

/// Adds the products of x and the root of order four, and of x and the inverse of that root.
fn put_multiples<R: Element>(alloc: Global, x: &R, answer: &mut Answer<R>) -> Mem<()> {
    if let Some(root) = R::root_of_unity(alloc, 2)? {
        let inverse = root.inv(alloc)?;
        put_multiple(alloc, x, &root, answer)?;
        put_multiple(alloc, x, &inverse, answer)?;
    }
    Ok(())
}

/// `times_root_of_four A`: A times the root of order four, and A times the inverse of that root.
fn by_root_of_four<R: Element>(
    alloc: Global,
    arguments: &str,
    answer: &mut Answer<R>,
) -> Result<(), Fault> {
    let x = element::<R>(alloc, arguments)?;
    put_multiples(alloc, &x, answer).map_err(Fault::Memory)
}

/// `equals A ..`: for each element the place of the first that it equals.
fn same<R: Element>(alloc: Global, arguments: &str, answer: &mut Answer<R>) -> Result<(), Fault> {
    let items = elements::<R>(alloc, arguments)?;
    put_firsts(alloc, &items, &mut answer.text).map_err(Fault::Memory)
}

/// Adds the two numbers that an element is shown by.
fn put_parts<R: Element>(text: &mut String, x: &R) -> Mem<()> {
    let (a, b) = x.parts();
    put(text, a)?;
    put(text, b)
}

/// `parts A ..`: numerator and denominator of each element.
fn parts<R: Element>(alloc: Global, arguments: &str, answer: &mut Answer<R>) -> Result<(), Fault> {
    for x in elements::<R>(alloc, arguments)?.iter() {
        put_parts(&mut answer.text, x)?;
    }
    Ok(())
}

/// `parts_add A B`, `parts_sub A B`, `parts_mul A B`: numerator and denominator of the result.
fn parts_of_two<R: Element>(
    alloc: Global,
    call: &str,
    arguments: &str,
    answer: &mut Answer<R>,
) -> Result<(), Fault> {
    let out = of_two::<R>(alloc, call, arguments)?;
    put_parts(&mut answer.text, &out).map_err(Fault::Memory)
}
