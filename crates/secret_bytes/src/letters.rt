//! Bytes as letters, and back.
//!
//! There are 16 letters, two for each byte, and not 32: so of letters that are mistaken for each
//! other at most one is among them. Lines are a third longer than they need be.

ghost use Rattle.std.specs.Prelude.{◌≡◌, ◌≢◌, ◌<◌, ◌/◌, ◌%◌, ◌++◌, ◌∷◌, ℕ, List, All, true, IfOk, IfSome, IfNone, OnOk};
ghost use Rattle.secret_bytes.specs.Letters.{letter, gap, grouped};

use std::alloc::{AllocError, Global};

/// The sixteen letters and digits, that for zero first. Of those that are mistaken for each other,
/// as 8 and B or 5 and S, at most one is among them.
const LETTERS: [u8; 16] = *b"34679ACEFHJKMRTX";

/// The letter for a number below 16.
fn letter_of(digit: u8) -> u8
    requires { digit < 16 }
    ensures { result ≡ letter digit }
{
    LETTERS[digit as usize]
}

/// The number that the letter stands for, where it is one.
fn digit_of(byte: u8) -> Option<u8>
    ensures some { IfSome result (λ d. (d < 16) × (byte ≡ letter d)) }
    ensures none { IfNone result ((d : ℕ) → d < 16 → byte ≢ letter d) }
{
    for digit in 0..16 {
        if letter_of(digit) == byte {
            return Some(digit);
        }
    }
    None
}

/// Appends the bytes as letters. What is appended stays where memory runs out.
pub(super) fn push_grouped(bytes: &[u8], out: &mut Vec<u8>) -> Result<(), AllocError>
    ensures { OnOk result (out.new.items ≡ out.old.items ++ grouped true bytes.now) }
{
    let mut rest = bytes;
    let mut first = true;
    while let Some((byte, after)) = rest.split_first() {
        if first {
            out.push(b'-')?;
        }
        out.push(letter_of(*byte / 16))?;
        out.push(letter_of(*byte % 16))?;
        rest = after;
        first = !first;
    }
    Ok(())
}

/// What follows the gap before a byte, where there is one.
fn after_gap(text: &[u8], first: bool) -> Option<&[u8]>
    ensures some { IfSome result (λ rest. text.now ≡ gap first ++ rest.now) }
    ensures none { IfNone result ((rest : List ℕ) → text.now ≢ gap first ++ rest) }
{
    if !first {
        return Some(text);
    }
    let (byte, rest) = text.split_first()?;
    if *byte != b'-' {
        return None;
    }
    Some(rest)
}

/// The byte that two letters in front stand for, and what follows them.
fn byte_in_front(text: &[u8]) -> Option<(u8, &[u8])>
    ensures some { IfSome result (λ r. text.now ≡ letter (r.0 / 16) ∷ letter (r.0 % 16) ∷ r.1.now) }
    ensures byte { IfSome result (λ r. r.0 < 256) }
    ensures none { IfNone result ((b : ℕ) → (rest : List ℕ) → b < 256
        → text.now ≢ letter (b / 16) ∷ letter (b % 16) ∷ rest) }
{
    let (high, rest) = text.split_first()?;
    let (low, rest) = rest.split_first()?;
    let high = digit_of(*high)?;
    let low = digit_of(*low)?;
    Some((high * 16 + low, rest))
}

/// The bytes that the letters in front of the text stand for, two for each, without dashes.
pub(super) fn bytes_in_front(alloc: Global, text: &[u8]) -> Result<Vec<u8>, AllocError> {
    let mut bytes = Vec::with_capacity(alloc, text.len() / 2)?;
    let mut rest = text;
    while let Some((byte, after)) = byte_in_front(rest) {
        bytes.push(byte)?;
        rest = after;
    }
    Ok(bytes)
}

/// The bytes that the text has as letters, where it is so many letters in groups.
pub(super) fn read_groups(alloc: Global, text: &[u8]) -> Result<Option<Vec<u8>>, AllocError>
    ensures some { IfOk result (λ answer. IfSome answer (λ bytes. text.now ≡ grouped true bytes.items)) }
    ensures again { IfOk result (λ answer. (bytes : List ℕ) → All (λ b. b < 256) bytes
        → text.now ≡ grouped true bytes → IfSome answer (λ found. found.items ≡ bytes)) }
    ensures none { IfOk result (λ answer. IfNone answer ((bytes : List ℕ) → All (λ b. b < 256) bytes
        → text.now ≢ grouped true bytes)) }
{
    let mut bytes = Vec::new(alloc);
    let mut rest = text;
    let mut first = true;
    while !rest.is_empty() {
        let Some(letters) = after_gap(rest, first) else {
            return Ok(None);
        };
        let Some((byte, after)) = byte_in_front(letters) else {
            return Ok(None);
        };
        bytes.push(byte)?;
        rest = after;
        first = !first;
    }
    Ok(Some(bytes))
}
