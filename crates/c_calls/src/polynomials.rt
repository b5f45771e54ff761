//! One polynomial by its coefficients, which are words.

ghost use Rattle.std.specs.Prelude.{◌≡◌, ◌↔◌, ◌<◌, ℕ, List, IsTrue, IfOk, IfSome, IfNone, OnErr, length};
ghost use Rattle.std.specs.Int.{to_be_bytes, w64};
ghost use Rattle.std.specs.List.{flat_map};
ghost use Rattle.math_codec.specs.Faults.{Agrees, OnMemory};
ghost use Rattle.c_calls.specs.WordElements.{AreElements};
ghost use Rattle.c_calls.specs.WrittenData.{WritesInFront};
ghost use Rattle.c_calls.specs.WordEncodings.{IsCoefficientCount, IsEncodedBy, StandInFront, polynomial_spelling, scan_polynomial};

use crate::elements::{after_elements, read_words, spell_words};
use commonware_math::codec::{Error, LengthRange, Mem, read_len, write_len};
use std::alloc::Global;

/// Whether a polynomial may have so many coefficients: 1 to 2^32 - 1.
pub fn is_coefficient_count(n: usize) -> bool
    ensures { IsTrue result ↔ IsCoefficientCount n }
{
    0 < n && n <= u32::MAX as usize
}

/// Writes the encoding of the polynomial with these coefficients over the first bytes of `out`, and
/// gives their number: `None` where there is no room for them.
pub fn encode(alloc: Global, coefficients: &[u64], out: &mut [u8]) -> Mem<Option<usize>>
    requires count { IsCoefficientCount (length coefficients.now) }
    requires below { AreElements coefficients.now }
    ensures some { IfOk result (λ answer. IfSome answer
        (λ n. n ≡ length (polynomial_spelling coefficients.now))) }
    ensures written { IfOk result (λ answer. IfSome answer (λ _.
        StandInFront (polynomial_spelling coefficients.now) out.old out.new)) }
    ensures none { IfOk result (λ answer. IfNone answer
        (length out.old < length (polynomial_spelling coefficients.now))) }
    ensures kept { IfOk result (λ answer. IfNone answer (out.new ≡ out.old)) }
    ensures err { OnErr result (out.new ≡ out.old) }
{
    let mut front = Vec::new(alloc);
    write_len(alloc, coefficients.len() as u32, &mut front)?;
    let from = front.len();
    let n = from + 8 * coefficients.len();
    if n > out.len() {
        return Ok(None);
    }
    out[..from].copy_from_slice(&front);
    spell_words(out, from, coefficients);
    Ok(Some(n))
}

/// The number of coefficients of the polynomial that the bytes encode, and these as bytes.
///
/// No list is made of them. It refuses as `codec::decode` does, but never for want of memory.
#[tactic(auto, unfolding(math_codec::specs::Faults::scan_exactly, math_codec::specs::Lists::scan_list))]
fn split_encoding(alloc: Global, bytes: &[u8]) -> Result<(usize, &[u8]), Error>
    ensures taken { IfOk result (λ answer. (p : List ℕ) × IsEncodedBy p bytes.now
        × (answer.0 ≡ length p)
        × (answer.1.now ≡ flat_map (to_be_bytes w64) p)) }
    ensures memory { OnMemory result ⊥ }
    ensures exact { Agrees (λ _. tt) result (scan_polynomial bytes.now) }
{
    let mut coefficients = bytes;
    let count = read_len(alloc, &mut coefficients)?;
    if !LengthRange::new(1, u32::MAX).contains(count) {
        return Err(Error::InvalidLength(count));
    }
    let rest = after_elements(alloc, count, coefficients)?;
    if !rest.is_empty() {
        return Err(Error::ExtraData(rest.len()));
    }
    Ok((count as usize, coefficients))
}

/// Reads the polynomial that the bytes encode, writes its coefficients over the first words of
/// `out`, and gives their number.
///
/// `None` where there is no room for them. It refuses as `codec::decode` does, but never for want of
/// memory. The bytes are gone over before a word is written, so that `out` stays as it was where it
/// refuses.
pub fn decode(alloc: Global, bytes: &[u8], out: &mut [u64]) -> Result<Option<usize>, Error>
    ensures written { WritesInFront (λ p. IsEncodedBy p bytes.now) result out.old out.new }
    ensures memory { OnMemory result ⊥ }
    ensures exact { Agrees (λ _. tt) result (scan_polynomial bytes.now) }
{
    let (n, coefficients) = split_encoding(alloc, bytes)?;
    if n > out.len() {
        return Ok(None);
    }
    read_words(&mut out[..n], coefficients);
    Ok(Some(n))
}
