//! Secrets that are scalars of a group, in shares that a commitment verifies.

use crate::element_shares::{
    polynomial_of, put_left, put_shares, put_undealt, secret_and_counts, share_of,
};
use math_base::algebra::{CryptoGroup, Mem, Random};
use math_poly::poly::Poly;
use math_samples::elements::Element;
use math_samples::sources::Listed;
use rows_base::answer::Answer;
use rows_base::fault::Fault;
use rows_base::refusals::{begin, end};
use rows_base::words::{element, numbers, split_at_mark};
use shared_secret::{DealError, Share, deal_committed, verify};
use std::alloc::Global;

/// Shares, and the commitment to their polynomial.
type Committed<G> = (Vec<Share<G>>, Poly<G>);

/// Runs a call of this module; `false` where it is none.
pub fn run<G: Element + Random + CryptoGroup<Scalar = G>>(
    alloc: Global,
    call: &str,
    arguments: &str,
    answer: &mut Answer<G>,
) -> Result<bool, Fault> {
    let done = match call {
        "deal_committed" => deal_shares(alloc, arguments, answer),
        "verify" => verify_share(alloc, arguments, answer),
        _ => return Ok(false),
    };
    done.and(Ok(true))
}

/// Adds the shares of a secret, their commitment, and how many words of the source are left, or why
/// there are none.
fn put_dealt<G: Element>(
    alloc: Global,
    dealt: Result<Committed<G>, DealError>,
    left: usize,
    answer: &mut Answer<G>,
) -> Mem<()> {
    match dealt {
        Ok((shares, commitment)) => {
            put_shares(shares, answer)?;
            answer.text.push_str(" commitment")?;
            answer.copies(alloc, commitment.coefficients())?;
            put_left(&mut answer.text, left)
        }
        Err(error) => put_undealt(&mut answer.text, &error),
    }
}

/// Deals n shares of a secret, of which any t give it back, and a commitment, from a source of
/// these words.
fn deal_from<G: Element + Random + CryptoGroup<Scalar = G>>(
    alloc: Global,
    secret: G,
    t: u32,
    n: u32,
    words: &[u64],
    answer: &mut Answer<G>,
) -> Result<(), Fault> {
    if t == 0 || n < t {
        return Err(Fault::OutOfRange("no such numbers of shares"));
    }
    let mut source = Listed::new(words);
    let given = begin(alloc, &());
    let dealt = deal_committed::<G, _>(alloc, secret, t, n, &mut source);
    end(
        alloc,
        given,
        &(),
        matches!(dealt, Err(DealError::Memory(_))),
    );
    put_dealt(alloc, dealt, source.left(), answer).map_err(Fault::Memory)
}

/// `deal_committed SECRET T N @ W ..`: the shares, each as `INDEX:VALUE`, `commitment` and its
/// stored coefficients, and how many words are left.
fn deal_shares<G: Element + Random + CryptoGroup<Scalar = G>>(
    alloc: Global,
    arguments: &str,
    answer: &mut Answer<G>,
) -> Result<(), Fault> {
    let (head, words) = split_at_mark(arguments, '@')?;
    let (secret, t, n) = secret_and_counts(head)?;
    let words = numbers(alloc, words)?;
    let secret = element::<G>(alloc, secret)?;
    deal_from(alloc, secret, t, n, &words, answer)
}

/// Adds whether a commitment verifies a share.
fn put_verified<G: Element + CryptoGroup<Scalar = G>>(
    alloc: Global,
    share: &Share<G>,
    commitment: &Poly<G>,
    text: &mut String,
) -> Mem<()> {
    let given = begin(alloc, &(share, commitment));
    let verified = verify(alloc, share, commitment);
    end(alloc, given, &(share, commitment), verified.is_err());
    write!(text, " {}", verified?)
}

/// `verify INDEX:VALUE @ COMMITMENT ..`: `true` or `false`.
fn verify_share<G: Element + CryptoGroup<Scalar = G>>(
    alloc: Global,
    arguments: &str,
    answer: &mut Answer<G>,
) -> Result<(), Fault> {
    let (share, commitment) = split_at_mark(arguments, '@')?;
    let commitment = polynomial_of::<G>(alloc, commitment)?;
    let share = share_of::<G>(alloc, share.trim())?;
    put_verified(alloc, &share, &commitment, &mut answer.text).map_err(Fault::Memory)
}
