//! The line of a share.
//!
//! The check of a line is a value of the polynomial whose coefficients are its characters, dashes
//! too. A slip of the hand is then seen whatever it does to the groups, and the proof says nothing
//! of groups.

ghost use Rattle.std.specs.Prelude.{◌≡◌, ◌≢◌, ◌↔◌, ◌⊎◌, ◌<◌, ◌^◌, ◌++◌, ℕ, List, length, true, codes, alloc_error, IfOk, IfErr, IfSome, IfNone, MatchResult};
ghost use Rattle.math_codec.specs.Faults as Faults;
ghost use Rattle.math_fields.specs.Elements.{number};
ghost use Rattle.secret_bytes.specs.SecretShares.{AdmitsShare, AreSameShares};
ghost use Rattle.secret_bytes.specs.Letters.{grouped};
ghost use Rattle.secret_bytes.specs.LineChecks.{check_bytes, check_value};
ghost use Rattle.secret_bytes.specs.Lines.{body_spelling, line_spelling};
ghost use Rattle.secret_bytes.specs.Refusals.{IsDueRefusal, IsMemory};
ghost use Rattle.secret_bytes.specs.declared.line.LineError.TheVariants.{Memory, NoShare};

use crate::letters::{bytes_in_front, push_grouped, read_groups};
use crate::share::{MOST_VALUES, SecretShare};
use math_codec::codec::{Error, Mem, Read, Write, decode};
use math_fields::goldilocks::F;
use std::alloc::{AllocError, AllocFailed, Global};
use std::fmt;

/// Why a text is no line of a share.
#[derive(Debug, Drop)]
pub enum LineError {
    /// Memory ran out.
    Memory(AllocError),
    /// It is too short, lacks the mark, or has letters that are not those of a share.
    NoShare,
    /// The check does not fit the text before it.
    Mistyped,
    /// Something stands behind a whole share.
    Behind,
}

impl fmt::Display for LineError {
    fn fmt<W: fmt::Write>(&self, f: &mut fmt::Formatter<W>) -> fmt::Result {
        f.write_str(match self {
            LineError::Memory(_) => "out of memory",
            LineError::NoShare => "not a share of this format",
            LineError::Mistyped => "mistyped or cut off, its check does not fit",
            LineError::Behind => {
                "something stands behind a whole share: each begins a line, with S1"
            }
        })
    }
}

impl std::error::Error for LineError {}

impl From<AllocError> for LineError {
    ghost from_gives = { λ x e. e ≡ Memory x };

    fn from(e: AllocError) -> LineError {
        LineError::Memory(e)
    }
}

impl<T: Drop> From<AllocFailed<T>> for LineError {
    ghost from_gives = { λ _ e. e ≡ Memory alloc_error };

    fn from(_e: AllocFailed<T>) -> LineError {
        LineError::Memory(AllocError)
    }
}

/// The mark with the version, which every line begins with.
const MARK: [u8; 2] = *b"S1";

/// The point at which the check is a value.
const CHECK_POINT: u64 = 0x9e37_79b9_7f4a_7c15;

/// The number of characters of the check: eight bytes, in groups of four letters with a dash before
/// each.
const CHECK_SIZE: usize = 20;

/// The value at the check's point of the polynomial whose coefficients are the bytes, by Horner's
/// rule.
///
/// One byte that is changed changes it by a difference of bytes times a power of the point, and two
/// neighbours that are exchanged change it by their difference times a power and the point less
/// one: neither is zero.
fn check_value_of(bytes: &[u8]) -> F
    ensures { number result ≡ number (check_value bytes.now) }
{
    let point = F::from(CHECK_POINT);
    let mut value = F::from(0);
    let mut rest = bytes;
    while let Some((byte, after)) = rest.split_first() {
        value = value * point + F::from(*byte as u64);
        rest = after;
    }
    value
}

/// Appends the check of the text before it, as letters.
fn push_check(alloc: Global, body: &[u8], out: &mut Vec<u8>) -> Mem<()>
    ensures { IfOk result (λ _. out.new.items ≡ out.old.items ++ grouped true (check_bytes body.now)) }
{
    let mut bytes = Vec::new(alloc);
    check_value_of(body).write(alloc, &mut bytes)?;
    push_grouped(&bytes, out)
}

/// What stands before the check.
fn body_of(alloc: Global, share: &SecretShare) -> Mem<Vec<u8>>
    requires { length share.now.values.items < 2 ^ 32 }
    ensures { IfOk result (λ body. body.items ≡ body_spelling share.now) }
{
    let mut bytes = Vec::new(alloc);
    share.write(alloc, &mut bytes)?;
    let mut body = Vec::from_slice(alloc, &MARK)?;
    push_grouped(&bytes, &mut body)?;
    Ok(body)
}

/// Returns the line of the share, which has fewer than 2^32 values.
///
/// ```
/// use secret_bytes::{deal, line_of, share_in};
/// let shares = deal(alloc, b"key", 2, 3, rng)?;
/// let line = line_of(alloc, &shares[0])?;
/// share_in(alloc, &line)?.index; // 1
/// ```
pub fn line_of(alloc: Global, share: &SecretShare) -> Mem<Vec<u8>>
    requires { length share.now.values.items < 2 ^ 32 }
    ensures { IfOk result (λ line. line.items ≡ line_spelling share.now) }
{
    let body = body_of(alloc, share)?;
    let mut line = Vec::from_slice(alloc, &body)?;
    push_check(alloc, &body, &mut line)?;
    Ok(line)
}

/// What follows the mark, where the text begins with it.
fn after_mark(text: &[u8]) -> Option<&[u8]>
    ensures some { IfSome result (λ rest. text.now ≡ codes "S1" ++ rest.now) }
    ensures none { IfNone result ((rest : List ℕ) → text.now ≢ codes "S1" ++ rest) }
{
    let (letter, rest) = text.split_first()?;
    let (digit, rest) = rest.split_first()?;
    if *letter != b'S' || *digit != b'1' {
        return None;
    }
    Some(rest)
}

/// Why the bytes of a line are those of no share.
fn refusal(error: Error) -> LineError
    ensures memory { Faults.IsMemory error ↔ IsMemory result }
    ensures due { IsMemory result ⊎ (result ≡ NoShare) }
{
    match error {
        Error::Memory(e) => LineError::Memory(e),
        _ => LineError::NoShare,
    }
}

/// The share that the letters behind the mark begin with, where they do.
pub(crate) fn share_in_front(alloc: Global, letters: &[u8]) -> Mem<Option<SecretShare>>
    ensures { IfOk result (λ found. IfSome found (AdmitsShare (2 ^ 20))) }
{
    let Some(letters) = letters.get(MARK.len()..) else {
        return Ok(None);
    };
    let bytes = bytes_in_front(alloc, letters)?;
    let mut rest = bytes.as_slice();
    match SecretShare::read_cfg(alloc, &mut rest, &MOST_VALUES) {
        Ok(share) => Ok(Some(share)),
        Err(Error::Memory(e)) => Err(e),
        Err(_) => Ok(None),
    }
}

/// The share whose bytes stand as letters after the mark.
fn share_of_body(alloc: Global, body: &[u8]) -> Result<SecretShare, LineError>
    ensures taken { IfOk result (λ s. body.now ≡ body_spelling s) }
    ensures admitted { IfOk result (AdmitsShare (2 ^ 20)) }
    ensures again { (s : SecretShare) → AdmitsShare (2 ^ 20) s → body.now ≡ body_spelling s
        → MatchResult result (λ u. AreSameShares u s) IsMemory }
    ensures due { IfErr result (λ why. IsMemory why ⊎ (why ≡ NoShare)) }
{
    let Some(letters) = after_mark(body) else {
        return Err(LineError::NoShare);
    };
    let Some(bytes) = read_groups(alloc, letters)? else {
        return Err(LineError::NoShare);
    };
    match decode::<SecretShare>(alloc, &bytes, &MOST_VALUES) {
        Ok(share) => Ok(share),
        Err(error) => Err(refusal(error)),
    }
}

/// Reads the share whose line the text is.
///
/// It refuses a text that is the line of no share: with `Mistyped` if it has the characters of a
/// check, and these are not the check of what stands before them, and with `NoShare` otherwise. It
/// refuses with `Memory` if memory runs out.
///
/// ```
/// use secret_bytes::share_in;
/// share_in(alloc, b"S1"); // Err(NoShare)
/// ```
pub fn share_in(alloc: Global, text: &[u8]) -> Result<SecretShare, LineError>
    ensures taken { IfOk result (λ s. text.now ≡ line_spelling s) }
    ensures admitted { IfOk result (AdmitsShare (2 ^ 20)) }
    ensures again { (s : SecretShare) → AdmitsShare (2 ^ 20) s → text.now ≡ line_spelling s
        → MatchResult result (λ u. AreSameShares u s) IsMemory }
    ensures due { IfErr result (IsDueRefusal text.now) }
{
    if text.len() < CHECK_SIZE {
        return Err(LineError::NoShare);
    }
    let (body, check) = text.split_at(text.len() - CHECK_SIZE);
    let mut due = Vec::new(alloc);
    push_check(alloc, body, &mut due)?;
    if check != due.as_slice() {
        return Err(LineError::Mistyped);
    }
    share_of_body(alloc, body)
}
