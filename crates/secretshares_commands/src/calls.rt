//! The commands, over what was read.

ghost use Rattle.std.specs.Prelude.{◌≡◌, ◌<◌, ◌≤◌, ℕ, List, [], length, All, IfOk, IfErr, IfSome, IfNone, OnOk};
ghost use Rattle.secret_bytes.specs.declared.share.SecretShare.{SecretShare};
ghost use Rattle.secret_bytes.specs.Deals.{AreDealtBytes};
ghost use Rattle.secret_bytes.specs.Lines.{lines_spelling};
ghost use Rattle.secret_bytes.specs.Texts.{IsDueReading};
ghost use Rattle.secretshares_commands.specs.Answers.{CanBeDealt, IsAnswerTo, IsDueFor, IsFirstTooGreat, IsNamed, IsTooGreat, in_order, with_wrong};

use crate::fault::{Fault, WrongWord};
use rand_core::{CryptoRng, Rng};
use secret_bytes::{
    CombineError, LineError, LineFault, Lines, MOST_BYTES, MOST_SHARES, SecretShare, combine, deal,
    read_lines, text_of,
};
use std::alloc::{AllocError, Global};

/// What stands on standard output, and what on standard error.
#[derive(Drop)]
pub struct Told {
    pub out: Vec<u8>,
    pub err: String,
}

/// The number of shares that a word writes in decimal, without a sign.
fn number(name: &'static str, word: &str) -> Result<u32, Fault>
    ensures { IfOk result (λ number. 0 < number) }
{
    match word.parse::<u32>() {
        Ok(number) if number >= 1 && number <= MOST_SHARES && !word.starts_with('+') => Ok(number),
        _ => Err(Fault::Usage(WrongWord::Number(name))),
    }
}

/// `T N`: how many shares give the secret back, and how many there are.
pub fn counts(words: &[String]) -> Result<(u32, u32), Fault>
    ensures some { IfOk result (λ counts. 0 < counts.0) }
    ensures enough { IfOk result (λ counts. counts.0 ≤ counts.1) }
{
    let [t, n] = words else {
        return Err(Fault::Usage(WrongWord::Counts(words.len())));
    };
    let t = number("T", t)?;
    let n = number("N", n)?;
    if n < t {
        return Err(Fault::Usage(WrongWord::FewerThanT(t, n)));
    }
    Ok((t, n))
}

/// The lines of n shares of the secret, any t of which give it back.
pub fn dealt<G: Rng + CryptoRng>(
    alloc: Global,
    secret: &[u8],
    t: u32,
    n: u32,
    rng: &mut G,
) -> Result<Told, Fault>
    requires some { 0 < t }
    requires enough { t ≤ n }
    ensures { IfOk result (λ told. (shares : List SecretShare)
        × AreDealtBytes secret.now t n (G.stream rng.old) (G.stream rng.new) shares
        × (told.out.items ≡ lines_spelling shares)) }
{
    if secret.len() > MOST_BYTES {
        return Err(Fault::TooLong);
    }
    let shares = deal(alloc, secret, t, n, rng)?;
    Ok(Told {
        out: text_of(alloc, &shares)?,
        err: String::new(alloc),
    })
}

/// The secret of the shares that the lines are, and a line for each share that is wrong, in the
/// order of their lines.
///
/// It refuses as `secret_bytes::read_lines` does; then the first share whose threshold or index is
/// above 255; and then shares as `secret_bytes::combine` does, with the line and the index of the
/// share that is meant.
pub fn combine_lines(alloc: Global, text: &[u8]) -> Result<Told, Fault>
    ensures answer { IfOk result (λ told. IsAnswerTo text.now told.out.items) }
    ensures due { IfErr result (IsDueFor text.now) }
{
    let lines = match read_lines(alloc, text) {
        Ok(lines) => lines,
        Err(fault) => return Err(fault_of(fault)),
    };
    let Lines { shares, numbers } = lines;
    if let Some(fault) = first_too_great(&numbers, &shares) {
        return Err(fault);
    }
    let mut indices = Vec::with_capacity(alloc, shares.len())?;
    for share in &shares {
        indices.push(share.index)?;
    }
    let found = match combine(alloc, shares) {
        Ok(found) => found,
        Err(error) => return Err(fault_in_line(&numbers, &indices, error)),
    };
    let mut err = String::new(alloc);
    for index in &in_order(alloc, &indices, &found.wrong)? {
        writeln!(err, "share {index} is wrong and was left out")?;
    }
    Ok(Told {
        out: found.bytes,
        err,
    })
}

/// Which number of the share `deal` does not give, and this number, where there is one.
fn too_great(share: &SecretShare) -> Option<(&'static str, u32)>
    ensures some { IfSome result (λ r. IsTooGreat share.now r.1) }
    ensures none { IfNone result (CanBeDealt share.now) }
{
    if share.threshold > MOST_SHARES {
        return Some(("threshold", share.threshold));
    }
    if share.index > MOST_SHARES {
        return Some(("index", share.index));
    }
    None
}

/// The fault of the first share that `deal` cannot have given, where there is one. The shares stand
/// in the lines of these numbers.
fn first_too_great(numbers: &[usize], shares: &[SecretShare]) -> Option<Fault>
    requires { length numbers.now ≡ length shares.now }
    ensures some { IfSome result (IsFirstTooGreat numbers.now shares.now) }
    ensures none { IfNone result (All CanBeDealt shares.now) }
{
    for (place, share) in shares.iter().enumerate() {
        if let Some((name, given)) = too_great(share) {
            return Some(Fault::TooGreat(numbers[place], name, given));
        }
    }
    None
}

/// Appends the index where it is a wrong one and does not stand there yet.
fn push_wrong(index: u32, wrong: &[u32], out: &mut Vec<u32>) -> Result<(), AllocError>
    ensures { OnOk result (out.new.items ≡ with_wrong wrong.now out.old.items index) }
{
    if wrong.contains(&index) && !out.contains(&index) {
        out.push(index)?;
    }
    Ok(())
}

/// The indices that are among the wrong ones, each once, in the order in which they stand first.
fn in_order(alloc: Global, indices: &[u32], wrong: &[u32]) -> Result<Vec<u32>, AllocError>
    ensures { IfOk result (λ out. out.items ≡ in_order wrong.now [] indices.now) }
{
    let mut out = Vec::new(alloc);
    for index in indices {
        push_wrong(*index, wrong, &mut out)?;
    }
    Ok(out)
}

/// The fault of a line.
fn fault_of(fault: LineFault) -> Fault
    ensures { (text : List ℕ) → IsDueReading text fault → IsDueFor text result }
{
    match fault.why {
        LineError::Memory(e) => Fault::Memory(e),
        why => Fault::Line(fault.number, why),
    }
}

/// The fault with the line and the index of the share that is meant.
fn fault_in_line(numbers: &[usize], indices: &[u32], error: CombineError) -> Fault
    ensures { IsNamed numbers.now indices.now error result }
{
    let place = match &error {
        CombineError::Unsound(place)
        | CombineError::AnotherDeal(place)
        | CombineError::AnotherThreshold(place)
        | CombineError::AnotherLength(place)
        | CombineError::Repeated(place) => *place,
        _ => return Fault::Combine(error),
    };
    match (numbers.get(place), indices.get(place)) {
        (Some(number), Some(index)) => Fault::Share(*number, *index, error),
        _ => Fault::Combine(error),
    }
}
