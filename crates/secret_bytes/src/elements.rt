//! Bytes as elements, and these as bytes.
//!
//! The first element is the number of bytes, and each further one is seven of them, the lowest
//! first, with zeros after the last. So every element is below 2^56, and each list of bytes has its
//! own elements.

ghost use Rattle.std.specs.Prelude.{◌≡◌, ◌↔◌, ◌<◌, ◌≤◌, ◌^◌, ◌*◌, ◌++◌, ℕ, List, length, map};
ghost use Rattle.std.specs.Prelude.{IsTrue, IfOk, IfSome, IfNone, IsSomeAnd, OnOk};
ghost use Rattle.math_fields.specs.Elements.{number};
ghost use Rattle.secret_bytes.specs.Packings.{AllFit, ArePackedBytes, lowest_bytes, number_of_bytes, packed, unpacked, without_lowest};

use math_base::algebra::Mem;
use math_fields::goldilocks::F;
use std::alloc::{AllocError, Global};

/// The number of bytes of an element.
const BYTES: usize = 7;

/// The number that at most seven bytes write, the lowest first.
fn number_of_bytes(bytes: &[u8]) -> u64
    requires { length bytes.now ≤ 7 }
    ensures value { result ≡ number_of_bytes bytes.now }
    ensures below { result < 2 ^ 56 }
{
    let mut n = 0;
    let mut i = bytes.len();
    while i > 0 {
        i -= 1;
        n = n * 256 + bytes[i] as u64;
    }
    n
}

/// Returns the elements of the bytes: how many there are, and then seven bytes an element, the lowest
/// first. There are fewer than 2^32 bytes.
///
/// ```
/// use secret_bytes::elements_of;
/// elements_of(alloc, b"abc")?; // [3, 6513249]
/// ```
pub fn elements_of(alloc: Global, bytes: &[u8]) -> Mem<Vec<F>>
    requires { length bytes.now < 2 ^ 32 }
    ensures { IfOk result (λ elements. map number elements.items ≡ packed bytes.now) }
{
    let mut elements = Vec::with_capacity(alloc, bytes.len().div_ceil(BYTES).saturating_add(1))?;
    elements.push(F::from(bytes.len() as u64))?;
    let mut rest = bytes;
    while !rest.is_empty() {
        let (seven, after) = rest.split_at(rest.len().min(BYTES));
        elements.push(F::from(number_of_bytes(seven)))?;
        rest = after;
    }
    Ok(elements)
}

/// Appends so many of the lowest bytes of the number, the lowest first, and says whether it has no
/// more. What is appended stays where memory runs out.
fn push_lowest(n: u64, count: usize, out: &mut Vec<u8>) -> Result<bool, AllocError>
    ensures bytes { OnOk result (out.new.items ≡ out.old.items ++ lowest_bytes count n) }
    ensures whole { IfOk result (λ whole. IsTrue whole ↔ (without_lowest count n ≡ 0)) }
{
    let mut left = n;
    let mut missing = count;
    while missing > 0 {
        out.push((left % 256) as u8)?;
        left /= 256;
        missing -= 1;
    }
    Ok(left == 0)
}

/// So many bytes of the elements, seven of each but the last; `None` where an element has more.
fn unpack(alloc: Global, count: usize, elements: &[F]) -> Mem<Option<Vec<u8>>>
    ensures some { IfOk result (λ answer. IfSome answer (λ bytes.
        (bytes.items ≡ unpacked count (map number elements.now))
        × AllFit count (map number elements.now))) }
    ensures none { IfOk result (λ answer.
        IfNone answer (¬ (AllFit count (map number elements.now)))) }
{
    let mut bytes = Vec::with_capacity(alloc, count)?;
    let mut left = count;
    let mut rest = elements;
    while let Some((element, after)) = rest.split_first() {
        let taken = BYTES.min(left);
        if !push_lowest(element.number(), taken, &mut bytes)? {
            return Ok(None);
        }
        left -= taken;
        rest = after;
    }
    Ok(Some(bytes))
}

/// Returns the bytes whose elements these are, or `None` if they are those of no bytes.
///
/// ```
/// use secret_bytes::bytes_of;
/// bytes_of(alloc, &[F::from(3), F::from(6513249)])?; // Some([97, 98, 99])
/// bytes_of(alloc, &[F::from(2), F::from(6513249)])?; // None
/// ```
pub fn bytes_of(alloc: Global, elements: &[F]) -> Mem<Option<Vec<u8>>>
    ensures some { IfOk result
        (λ answer. IfSome answer (λ bytes. ArePackedBytes elements.now bytes.items)) }
    ensures found { (bytes : List ℕ) → ArePackedBytes elements.now bytes
        → IfOk result (λ answer. IsSomeAnd answer (λ found. found.items ≡ bytes)) }
{
    let Some((count, rest)) = elements.split_first() else {
        return Ok(None);
    };
    let count = count.number();
    if count >= 1 << 32 {
        return Ok(None);
    }
    let count = count as usize;
    if rest.len() != count.div_ceil(BYTES) {
        return Ok(None);
    }
    unpack(alloc, count, rest)
}
