//! Lines of shares.
//!
//! If something stands behind a whole share, `read_lines` may also refuse it as `Mistyped`: no
//! clause tells this from `Behind`.

ghost use Rattle.std.specs.Prelude.{◌≡◌, ◌+◌, ◌<◌, ◌≤◌, ◌^◌, ◌∷◌, ◌⊎◌, length, take, alloc_error, All, IfOk, IfErr, IfSome, IfNone};
ghost use Rattle.secret_bytes.specs.declared.line.LineError.TheVariants.{Memory};
ghost use Rattle.secret_bytes.specs.declared.share.SecretShare.{SecretShare};
ghost use Rattle.secret_bytes.specs.Gathered.{AreOwn, IsAtShare, IsNextGoingOn, IsPassed, own_lines};
ghost use Rattle.secret_bytes.specs.Readings.{plain};
ghost use Rattle.secret_bytes.specs.Refusals.{HasLine, IsDueRefusal, IsDueWriting, IsMemory};
ghost use Rattle.secret_bytes.specs.Lines.{lines_spelling};
ghost use Rattle.secret_bytes.specs.Texts.{AreReadAs, IsDueAt, IsDueReading, IsInLine, IsLineOf};
ghost use Rattle.secret_bytes.specs.Texts.{IsOfNone, IsReadAs, all_letters, text_lines};

use crate::line::{LineError, line_of, share_in, share_in_front};
use crate::reading::{has_mark, letters_of, plain};
use crate::share::{MOST_VALUES, SecretShare};
use math_codec::codec::Mem;
use std::alloc::{AllocError, AllocFailed, Global};

/// The shares of a text, and for each the number of the line that it begins with, from 1 on.
#[derive(Drop)]
pub struct Lines {
    pub shares: Vec<SecretShare>,
    pub numbers: Vec<usize>,
}

/// Why a text was refused, and the number of the line that is meant, from 1 on; 0 where memory ran
/// out.
#[derive(Debug, Drop)]
pub struct LineFault {
    pub number: usize,
    pub why: LineError,
}

impl From<AllocError> for LineFault {
    ghost from_gives = { λ x fault. fault.why ≡ Memory x };

    fn from(e: AllocError) -> LineFault {
        let why = LineError::Memory(e);
        LineFault { number: 0, why }
    }
}

impl<T: Drop> From<AllocFailed<T>> for LineFault {
    ghost from_gives = { λ _ fault. fault.why ≡ Memory alloc_error };

    fn from(_e: AllocFailed<T>) -> LineFault {
        LineFault::from(AllocError)
    }
}

/// The bytes up to the first end of a line, and those after it.
fn first_line(text: &[u8]) -> (&[u8], &[u8])
    requires { 0 < length text.now }
    ensures shorter { length result.1.now < length text.now }
    ensures first { text_lines text.now ≡ result.0.now ∷ text_lines result.1.now }
{
    let mut i = 0;
    while i < text.len() {
        if text[i] == b'\n' {
            let (line, rest) = text.split_at(i);
            let (_end, after) = rest.split_at(1);
            return (line, after);
        }
        i += 1;
    }
    text.split_at(text.len())
}

/// The letters of the first line, and what follows it, where there is a line and it begins no
/// share.
fn next_going_on(alloc: Global, text: &[u8]) -> Mem<Option<(Vec<u8>, &[u8])>>
    ensures some { IfOk result (λ next. IfSome next (λ r.
        IsNextGoingOn text.now r.0.items r.1.now)) }
    ensures none { IfOk result (λ next. IfNone next (IsAtShare text.now)) }
{
    if text.is_empty() {
        return Ok(None);
    }
    let (line, after) = first_line(text);
    // A line that is written plainly needs no look at its letters.
    if has_mark(line) {
        return Ok(None);
    }
    let letters = letters_of(alloc, line)?;
    if has_mark(&letters) {
        return Ok(None);
    }
    Ok(Some((letters, after)))
}

/// The number of the first line that begins a share, and the text from there on.
///
/// It refuses with the first line before, where one has letters.
fn first_share(alloc: Global, text: &[u8]) -> Result<(usize, &[u8]), LineFault>
    ensures passed { IfOk result (λ r. IsPassed text.now r.0 r.1.now) }
    ensures at_share { IfOk result (λ r. IsAtShare r.1.now) }
    ensures due { IfErr result (IsDueReading text.now) }
{
    let mut rest = text;
    let mut number: usize = 1;
    while let Some((letters, after)) = next_going_on(alloc, rest)? {
        if !letters.is_empty() {
            let why = LineError::NoShare;
            return Err(LineFault { number, why });
        }
        rest = after;
        number = number.saturating_add(1);
    }
    Ok((number, rest))
}

/// The letters of the first line and of those that go on with it, how many lines these are, and
/// what follows them.
fn letters_of_share(alloc: Global, text: &[u8]) -> Mem<(Vec<u8>, usize, &[u8])>
    requires { 0 < length text.now }
    ensures letters { IfOk result (λ r.
        r.0.items ≡ all_letters (own_lines (text_lines text.now))) }
    ensures own { IfOk result (λ r. AreOwn text.now r.1 r.2.now) }
{
    let (line, after) = first_line(text);
    let mut letters = letters_of(alloc, line)?;
    let mut count: usize = 1;
    let mut rest = after;
    while let Some((more, after)) = next_going_on(alloc, rest)? {
        letters.extend_from_slice(&more)?;
        count = count.saturating_add(1);
        rest = after;
    }
    Ok((letters, count, rest))
}

/// The number of the line in which the letter at this place stands, where the text begins with the
/// line of this number.
fn line_of_letter(alloc: Global, text: &[u8], number: usize, place: usize) -> Mem<usize>
    requires some { 0 < length text.now }
    requires few { number + length text.now < 2 ^ 64 }
    requires within { place < length (all_letters (own_lines (text_lines text.now))) }
    ensures { IfOk result (λ found.
        IsInLine number (own_lines (text_lines text.now)) place found) }
{
    let (line, after) = first_line(text);
    let mut letters = letters_of(alloc, line)?;
    let mut left = place;
    let mut at = number;
    let mut rest = after;
    while left >= letters.len() {
        let Some((more, after)) = next_going_on(alloc, rest)? else {
            return Ok(at);
        };
        left -= letters.len();
        letters = more;
        at = at.saturating_add(1);
        rest = after;
    }
    Ok(at)
}

/// How many letters the share has that the letters begin with, where they begin with one.
fn whole_share(alloc: Global, letters: &[u8]) -> Mem<Option<usize>>
    ensures { IfOk result (λ found. IfSome found (λ k.
        (k ≤ length letters.now) × ((s : SecretShare) × IsLineOf (take k letters.now) s))) }
{
    let Some(share) = share_in_front(alloc, letters)? else {
        return Ok(None);
    };
    let line = line_of(alloc, &share)?;
    let count = letters_of(alloc, &line)?.len();
    if count > letters.len() {
        return Ok(None);
    }
    let first = plain(alloc, &letters[..count])?;
    if first.as_slice() != line.as_slice() {
        return Ok(None);
    }
    Ok(Some(count))
}

/// Why the lines that the text begins with are no share, and which line is meant.
///
/// Where something stands behind a whole share, it is the line in which that stands.
fn fault_of(
    alloc: Global,
    text: &[u8],
    number: usize,
    letters: &[u8],
    why: LineError,
) -> Mem<LineFault>
    requires some { 0 < length text.now }
    requires few { number + length text.now < 2 ^ 64 }
    requires letters { letters.now ≡ all_letters (own_lines (text_lines text.now)) }
    requires due { IsDueRefusal (plain letters.now) why }
    ensures { IfOk result (λ fault.
        IsDueAt number (own_lines (text_lines text.now)) fault.number fault.why) }
{
    let Some(count) = whole_share(alloc, letters)? else {
        return Ok(LineFault { number, why });
    };
    if count == letters.len() {
        return Ok(LineFault { number, why });
    }
    let number = line_of_letter(alloc, text, number, count)?;
    let why = LineError::Behind;
    Ok(LineFault { number, why })
}

/// Reads the share that begins with the first line of the text, which has this number. It answers
/// the share, how many lines it has, and what follows them.
fn read_share(
    alloc: Global,
    text: &[u8],
    number: usize,
) -> Result<(SecretShare, usize, &[u8]), LineFault>
    requires some { 0 < length text.now }
    requires few { number + length text.now < 2 ^ 64 }
    ensures read { IfOk result (λ r.
        IsReadAs (all_letters (own_lines (text_lines text.now))) r.0) }
    ensures own { IfOk result (λ r. AreOwn text.now r.1 r.2.now) }
    ensures due { IfErr result (λ fault. IsMemory fault.why
        ⊎ (IsOfNone (all_letters (own_lines (text_lines text.now)))
        × IsDueAt number (own_lines (text_lines text.now)) fault.number fault.why)) }
{
    let (letters, count, after) = letters_of_share(alloc, text)?;
    let line = plain(alloc, &letters)?;
    let why = match share_in(alloc, &line) {
        Ok(share) => return Ok((share, count, after)),
        Err(why) => why,
    };
    match why {
        LineError::Memory(e) => Err(LineFault::from(e)),
        why => Err(fault_of(alloc, text, number, &letters, why)?),
    }
}

/// Reads the shares of the lines, in order, with the numbers of the lines that they begin with.
///
/// A line begins a share if its letters begin with the mark `S1`. The letters of a line are what is
/// left of it, in capitals, without white space, marks of the byte order and dashes, without marks
/// `>` of a quotation before it, and without a number with a colon. A share goes on in the lines
/// that follow, up to the next line that begins one. Lines without letters are passed over. A share
/// is read if its letters, written plainly as `line_of` does, are the line of one: so all these
/// lines give what plain ones give.
///
/// It refuses with the first line that begins no share and goes on with none, or with the first
/// share that is none: with the number of the line that it begins with, and why, as `share_in`
/// says it; or with `Behind` and the line in which something stands behind a whole share. Or it
/// refuses with `Memory`.
///
/// ```
/// use secret_bytes::{deal, read_lines, text_of};
/// let text = text_of(alloc, &deal(alloc, b"key", 2, 3, rng)?)?;
/// let Ok(lines) = read_lines(alloc, &text) else { return Ok(()) };
/// lines.numbers; // [1, 2, 3]
/// ```
pub fn read_lines(alloc: Global, text: &[u8]) -> Result<Lines, LineFault>
    ensures lines { IfOk result
        (λ lines. AreReadAs text.now lines.shares.items lines.numbers.items) }
    ensures due { IfErr result (IsDueReading text.now) }
{
    let mut lines = Lines {
        shares: Vec::new(alloc),
        numbers: Vec::new(alloc),
    };
    let (mut number, mut rest) = first_share(alloc, text)?;
    while !rest.is_empty() {
        let (share, count, after) = read_share(alloc, rest, number)?;
        lines.shares.push(share)?;
        lines.numbers.push(number)?;
        number = number.saturating_add(count);
        rest = after;
    }
    Ok(lines)
}

/// Returns the lines of the shares, each with its end.
///
/// It refuses with `NoShare` exactly if a share has more than `MOST_VALUES` values, or with
/// `Memory`. `read_lines` reads what it writes as these shares: see `laws::lines_are_read_back`.
///
/// ```
/// use secret_bytes::{combine, deal, read_lines, text_of};
/// let text = text_of(alloc, &deal(alloc, b"key", 2, 3, rng)?)?;
/// let Ok(lines) = read_lines(alloc, &text) else { return Ok(()) };
/// combine(alloc, lines.shares)?.bytes; // [107, 101, 121]
/// ```
pub fn text_of(alloc: Global, shares: &[SecretShare]) -> Result<Vec<u8>, LineError>
    ensures text { IfOk result (λ text. text.items ≡ lines_spelling shares.now) }
    ensures few { IfOk result (λ _. All HasLine shares.now) }
    ensures due { IfErr result (IsDueWriting shares.now) }
{
    let mut text = Vec::new(alloc);
    for share in shares {
        if share.values.len() > MOST_VALUES as usize {
            return Err(LineError::NoShare);
        }
        let line = line_of(alloc, share)?;
        text.extend_from_slice(&line)?;
        text.push(b'\n')?;
    }
    Ok(text)
}
