//! Secrets that are elements of a field, in shares.

use math_base::algebra::{Mem, Random, msm_naive};
use math_poly::poly::Poly;
use math_samples::elements::Element;
use math_samples::sources::Listed;
use rows_base::answer::{Answer, put};
use rows_base::fault::Fault;
use rows_base::refusals::{begin, end};
use rows_base::words::{element, elements, numbers, short, split_at_mark};
use shared_secret::{
    CombineError, Corrected, DealError, Share, Weights, combine, combine_corrected, deal, point,
    secret_of, shares_of, weigh,
};
use std::alloc::{AllocError, Global};

/// Runs a call of this module; `false` where it is none.
pub fn run<R: Element + Random>(
    alloc: Global,
    call: &str,
    arguments: &str,
    answer: &mut Answer<R>,
) -> Result<bool, Fault> {
    let done = match call {
        "point_of" => point_of(alloc, arguments, answer),
        "deal" => deal_shares(alloc, arguments, answer),
        "shares_of" => shares_of_polynomial(alloc, arguments, answer),
        "combine" => combine_shares(alloc, arguments, answer),
        "combine_corrected" => correct_shares(alloc, arguments, answer),
        "weigh" => weigh_shares(alloc, arguments, answer),
        "secret_of" => weighed_secret(alloc, arguments, answer),
        _ => return Ok(false),
    };
    done.and(Ok(true))
}

/// Adds the point of an index.
fn put_point<R: Element>(alloc: Global, index: u32, answer: &mut Answer<R>) -> Mem<()> {
    let given = begin(alloc, &());
    let found = point::<R>(alloc, index);
    end(alloc, given, &(), found.is_err());
    answer.element(found?)
}

/// `point_of INDEX`: the point.
fn point_of<R: Element>(
    alloc: Global,
    arguments: &str,
    answer: &mut Answer<R>,
) -> Result<(), Fault> {
    let index = short(arguments.trim())?;
    put_point(alloc, index, answer).map_err(Fault::Memory)
}

/// `SECRET T N`: the word of the secret, and the two numbers.
pub(crate) fn secret_and_counts(text: &str) -> Result<(&str, u32, u32), Fault> {
    let mut words = text.split_whitespace();
    let (Some(secret), Some(t), Some(n)) = (words.next(), words.next(), words.next()) else {
        return Err(Fault::Unreadable("secret and two numbers"));
    };
    Ok((secret, short(t)?, short(n)?))
}

/// Adds how many words of the source are left.
pub(crate) fn put_left(text: &mut String, count: usize) -> Mem<()> {
    text.push_str(" left")?;
    put(text, count as u64)
}

/// Adds shares, each as `INDEX:VALUE`.
pub(crate) fn put_shares<R: Element>(shares: Vec<Share<R>>, answer: &mut Answer<R>) -> Mem<()> {
    for share in shares {
        let Share { index, value } = share;
        answer.add_keyed(u64::from(index), value)?;
    }
    Ok(())
}

/// Adds why nothing is dealt.
pub(crate) fn put_undealt(text: &mut String, error: &DealError) -> Mem<()> {
    match error {
        DealError::Memory(_) => Err(AllocError),
        _ => write!(text, " refused {error}"),
    }
}

/// Adds why nothing is combined.
fn put_uncombined(text: &mut String, error: &CombineError) -> Mem<()> {
    match error {
        CombineError::Memory(_) => Err(AllocError),
        _ => write!(text, " refused {error}"),
    }
}

/// Adds the shares of a secret, and how many words of the source are left, or why there are none.
fn put_dealt<R: Element>(
    dealt: Result<Vec<Share<R>>, DealError>,
    left: usize,
    answer: &mut Answer<R>,
) -> Mem<()> {
    match dealt {
        Ok(shares) => {
            put_shares(shares, answer)?;
            put_left(&mut answer.text, left)
        }
        Err(error) => put_undealt(&mut answer.text, &error),
    }
}

/// Deals n shares of a secret, of which any t give it back, from a source of these words.
fn deal_from<R: Element + Random>(
    alloc: Global,
    secret: R,
    t: u32,
    n: u32,
    words: &[u64],
    answer: &mut Answer<R>,
) -> Result<(), Fault> {
    if t == 0 || n < t {
        return Err(Fault::OutOfRange("no such numbers of shares"));
    }
    let mut source = Listed::new(words);
    let given = begin(alloc, &());
    let dealt = deal(alloc, secret, t, n, &mut source);
    end(
        alloc,
        given,
        &(),
        matches!(dealt, Err(DealError::Memory(_))),
    );
    put_dealt(dealt, source.left(), answer).map_err(Fault::Memory)
}

/// `deal SECRET T N @ W ..`: the shares, each as `INDEX:VALUE`, and how many words are left.
fn deal_shares<R: Element + Random>(
    alloc: Global,
    arguments: &str,
    answer: &mut Answer<R>,
) -> Result<(), Fault> {
    let (head, words) = split_at_mark(arguments, '@')?;
    let (secret, t, n) = secret_and_counts(head)?;
    let words = numbers(alloc, words)?;
    let secret = element::<R>(alloc, secret)?;
    deal_from(alloc, secret, t, n, &words, answer)
}

/// The polynomial with these coefficients, from the constant upwards.
pub(crate) fn polynomial_of<R: Element>(alloc: Global, text: &str) -> Result<Poly<R>, Fault> {
    let coefficients = elements::<R>(alloc, text)?;
    if coefficients.is_empty() || coefficients.len() > u32::MAX as usize {
        return Err(Fault::OutOfRange("no coefficient, or 2^32"));
    }
    Ok(Poly::from_coefficients(coefficients))
}

/// Adds the shares of a polynomial, or why there are none.
fn put_shares_of<R: Element>(
    alloc: Global,
    p: &Poly<R>,
    n: u32,
    answer: &mut Answer<R>,
) -> Mem<()> {
    let given = begin(alloc, &p);
    let shares = shares_of(alloc, p, n);
    end(
        alloc,
        given,
        &p,
        matches!(shares, Err(DealError::Memory(_))),
    );
    match shares {
        Ok(shares) => put_shares(shares, answer),
        Err(error) => put_undealt(&mut answer.text, &error),
    }
}

/// `shares_of N @ C ..`: the shares of the polynomial, each as `INDEX:VALUE`.
fn shares_of_polynomial<R: Element>(
    alloc: Global,
    arguments: &str,
    answer: &mut Answer<R>,
) -> Result<(), Fault> {
    let (n, coefficients) = split_at_mark(arguments, '@')?;
    let n = short(n)?;
    let p = polynomial_of::<R>(alloc, coefficients)?;
    put_shares_of(alloc, &p, n, answer).map_err(Fault::Memory)
}

/// The share that a word `INDEX:VALUE` writes.
pub(crate) fn share_of<R: Element>(alloc: Global, word: &str) -> Result<Share<R>, Fault> {
    let (index, value) = split_at_mark(word, ':')?;
    let index = short(index)?;
    let value = element::<R>(alloc, value)?;
    Ok(Share { index, value })
}

/// The shares that the words of a text write.
fn shares_in<R: Element>(alloc: Global, text: &str) -> Result<Vec<Share<R>>, Fault> {
    let mut shares = Vec::new(alloc);
    for word in text.split_whitespace() {
        shares.push(share_of::<R>(alloc, word)?)?;
    }
    Ok(shares)
}

/// Adds the secret that shares give, or why they give none.
fn put_combined<R: Element>(
    alloc: Global,
    t: u32,
    shares: &[Share<R>],
    answer: &mut Answer<R>,
) -> Mem<()> {
    let given = begin(alloc, &shares);
    let secret = combine(alloc, t, shares);
    end(
        alloc,
        given,
        &shares,
        matches!(secret, Err(CombineError::Memory(_))),
    );
    match secret {
        Ok(secret) => answer.element(secret),
        Err(error) => put_uncombined(&mut answer.text, &error),
    }
}

/// `combine T @ INDEX:VALUE ..`: the secret.
fn combine_shares<R: Element>(
    alloc: Global,
    arguments: &str,
    answer: &mut Answer<R>,
) -> Result<(), Fault> {
    let (t, shares) = split_at_mark(arguments, '@')?;
    let t = short(t)?;
    let shares = shares_in::<R>(alloc, shares)?;
    put_combined(alloc, t, &shares, answer).map_err(Fault::Memory)
}

/// Adds a secret, and the places of the shares that are wrong.
fn put_corrected<R: Element>(found: Corrected<R>, answer: &mut Answer<R>) -> Mem<()> {
    let Corrected { secret, wrong } = found;
    answer.element(secret)?;
    answer.text.push_str(" wrong")?;
    for place in &wrong {
        put(&mut answer.text, *place as u64)?;
    }
    Ok(())
}

/// Adds the secret that all shares but a few give and the places of these, or `none`, or why they
/// are refused.
fn put_found<R: Element>(
    alloc: Global,
    t: u32,
    shares: &[Share<R>],
    answer: &mut Answer<R>,
) -> Mem<()> {
    let given = begin(alloc, &shares);
    let found = combine_corrected(alloc, t, shares);
    end(
        alloc,
        given,
        &shares,
        matches!(found, Err(CombineError::Memory(_))),
    );
    match found {
        Ok(Some(found)) => put_corrected(found, answer),
        Ok(None) => answer.text.push_str(" none"),
        Err(error) => put_uncombined(&mut answer.text, &error),
    }
}

/// `combine_corrected T @ INDEX:VALUE ..`: the secret, `wrong` and the places of the shares that
/// are wrong, or `none`.
fn correct_shares<R: Element>(
    alloc: Global,
    arguments: &str,
    answer: &mut Answer<R>,
) -> Result<(), Fault> {
    let (t, shares) = split_at_mark(arguments, '@')?;
    let t = short(t)?;
    let shares = shares_in::<R>(alloc, shares)?;
    put_found(alloc, t, &shares, answer).map_err(Fault::Memory)
}

/// Adds elements.
fn put_elements<R: Element>(elements: Vec<R>, answer: &mut Answer<R>) -> Mem<()> {
    for x in elements {
        answer.element(x)?;
    }
    Ok(())
}

/// Adds the weights for the secret, and after a bar those for each further share.
fn put_weights<R: Element>(weights: Weights<R>, answer: &mut Answer<R>) -> Mem<()> {
    let Weights { secret, further } = weights;
    put_elements(secret, answer)?;
    for weights in further {
        answer.text.push_str(" |")?;
        put_elements(weights, answer)?;
    }
    Ok(())
}

/// Adds the weights of shares, or why they are refused.
fn put_weighed<R: Element>(
    alloc: Global,
    t: u32,
    shares: &[Share<R>],
    answer: &mut Answer<R>,
) -> Mem<()> {
    let given = begin(alloc, &shares);
    let weights = weigh(alloc, t, shares);
    end(
        alloc,
        given,
        &shares,
        matches!(weights, Err(CombineError::Memory(_))),
    );
    match weights {
        Ok(weights) => put_weights(weights, answer),
        Err(error) => put_uncombined(&mut answer.text, &error),
    }
}

/// `weigh T @ INDEX:VALUE ..`: the weights by which the first T values give the secret, and after
/// a bar those by which they give each further value.
fn weigh_shares<R: Element>(
    alloc: Global,
    arguments: &str,
    answer: &mut Answer<R>,
) -> Result<(), Fault> {
    let (t, shares) = split_at_mark(arguments, '@')?;
    let t = short(t)?;
    let shares = shares_in::<R>(alloc, shares)?;
    put_weighed(alloc, t, &shares, answer).map_err(Fault::Memory)
}

/// Adds the secret that values give by weights, or `none`.
fn put_secret<R: Element>(
    alloc: Global,
    weights: &Weights<R>,
    values: &[R],
    answer: &mut Answer<R>,
) -> Mem<()> {
    let given = begin(alloc, &values);
    let secret = secret_of(
        alloc,
        weights,
        values,
        |xs: &[R], ys: &[R]| msm_naive(alloc, xs, ys),
    );
    end(alloc, given, &values, secret.is_err());
    match secret? {
        Some(secret) => answer.element(secret),
        None => answer.text.push_str(" none"),
    }
}

/// Adds the secret that the values of shares give by the weights of these shares, or `none`, or why
/// they are refused.
fn put_secret_of<R: Element>(
    alloc: Global,
    t: u32,
    shares: Vec<Share<R>>,
    answer: &mut Answer<R>,
) -> Mem<()> {
    match weigh(alloc, t, &shares) {
        Ok(weights) => {
            let mut values = Vec::with_capacity(alloc, shares.len())?;
            for share in shares {
                values.push(share.value)?;
            }
            put_secret(alloc, &weights, &values, answer)
        }
        Err(error) => put_uncombined(&mut answer.text, &error),
    }
}

/// `secret_of T @ INDEX:VALUE ..`: the secret of these values by the weights of these shares, or
/// `none`.
fn weighed_secret<R: Element>(
    alloc: Global,
    arguments: &str,
    answer: &mut Answer<R>,
) -> Result<(), Fault> {
    let (t, shares) = split_at_mark(arguments, '@')?;
    let t = short(t)?;
    let shares = shares_in::<R>(alloc, shares)?;
    put_secret_of(alloc, t, shares, answer).map_err(Fault::Memory)
}
