//! Groups over a field.

use crate::polynomials::{polynomial, put_stored};
use math_base::algebra::{CryptoGroup, HashToGroup};
use math_poly::poly::Poly;
use math_samples::elements::Element;
use math_samples::sources::Listed;
use rows_base::answer::Answer;
use rows_base::fault::Fault;
use rows_base::refusals::{begin, end};
use rows_base::words::{bytes, element, numbers, split_at_mark};
use std::alloc::Global;

/// Runs a call of this module; `false` where it is none.
pub fn run<G: Element + HashToGroup>(
    alloc: Global,
    call: &str,
    arguments: &str,
    answer: &mut Answer<G>,
) -> Result<bool, Fault>
where
    <G as CryptoGroup>::Scalar: Element,
{
    let done = match call {
        "generator" => answer.found(generator(alloc)),
        "commit" => commit(alloc, arguments, answer),
        "commit_eval" => answer.found(commit_eval(alloc, arguments)),
        "hash_to_group" => answer.found(hash(alloc, arguments)),
        "rand_to_group" => answer.found(random(alloc, arguments)),
        _ => return Ok(false),
    };
    done.and(Ok(true))
}

/// `generator`: the generator of the group.
fn generator<G: Element + HashToGroup>(alloc: Global) -> Result<G, Fault> {
    let given = begin(alloc, &());
    let out = G::generator(alloc);
    end(alloc, given, &(), out.is_err());
    out.map_err(Fault::Memory)
}

/// The commitment of the polynomial with these coefficients.
fn commitment<G: Element + HashToGroup>(alloc: Global, text: &str) -> Result<Poly<G>, Fault>
where
    <G as CryptoGroup>::Scalar: Element,
{
    let p = polynomial::<<G as CryptoGroup>::Scalar>(alloc, text)?;
    let given = begin(alloc, &());
    let out = Poly::<G>::commit(alloc, p);
    end(alloc, given, &(), out.is_err());
    out.map_err(Fault::Memory)
}

/// `commit C ..`: the stored coefficients of the commitment.
fn commit<G: Element + HashToGroup>(
    alloc: Global,
    arguments: &str,
    answer: &mut Answer<G>,
) -> Result<(), Fault>
where
    <G as CryptoGroup>::Scalar: Element,
{
    put_stored(alloc, &commitment::<G>(alloc, arguments)?, answer).map_err(Fault::Memory)
}

/// `commit_eval C .. @ X`: the value of the commitment at X.
fn commit_eval<G: Element + HashToGroup>(alloc: Global, arguments: &str) -> Result<G, Fault>
where
    <G as CryptoGroup>::Scalar: Element,
{
    let (coefficients, x) = split_at_mark(arguments, '@')?;
    let commitment = commitment::<G>(alloc, coefficients)?;
    let x = element::<<G as CryptoGroup>::Scalar>(alloc, x)?;
    let given = begin(alloc, &(&commitment, &x));
    let out = commitment.eval(alloc, &x);
    end(alloc, given, &(&commitment, &x), out.is_err());
    out.map_err(Fault::Memory)
}

/// `hash_to_group BYTE .. @ BYTE ..`: the element that a separator and a message hash to.
fn hash<G: Element + HashToGroup>(alloc: Global, arguments: &str) -> Result<G, Fault> {
    let (separator, message) = split_at_mark(arguments, '@')?;
    let separator = bytes(alloc, separator)?;
    let message = bytes(alloc, message)?;
    let given = begin(alloc, &(&separator, &message));
    let out = G::hash_to_group(alloc, &separator, &message);
    end(alloc, given, &(&separator, &message), out.is_err());
    out.map_err(Fault::Memory)
}

/// `rand_to_group W ..`: the element of a source.
fn random<G: Element + HashToGroup>(alloc: Global, arguments: &str) -> Result<G, Fault> {
    let words = numbers(alloc, arguments)?;
    let mut source = Listed::new(&words);
    let given = begin(alloc, &());
    let out = G::rand_to_group(alloc, &mut source);
    end(alloc, given, &(), out.is_err());
    out.map_err(Fault::Memory)
}
