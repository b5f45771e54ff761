//! Bytes, a key and a check as elements.

ghost use Rattle.std.specs.Prelude.{◌≡◌, ◌<◌, ◌^◌, ℕ, List, length, Some, None};
ghost use Rattle.std.specs.Prelude.{IfOk, IfErr, IfSome, IfNone};
ghost use Rattle.math_fields.specs.Elements.{sample_of};
ghost use Rattle.secret_bytes.specs.declared.error.DealError.TheVariants.{TooManyWords};
ghost use Rattle.secret_bytes.specs.Keyed.{AreKeyed, AreKeyedBy};

use crate::check::{fits, key_check};
use crate::elements::{bytes_of, elements_of};
use crate::error::DealError;
use math_base::algebra::{Mem, Random};
use math_fields::goldilocks::F;
use rand_core::{CryptoRng, Rng};
use std::alloc::Global;

/// An element of the source, or `TooManyWords` where the source gives none.
pub(crate) fn draw<G: Rng + CryptoRng>(alloc: Global, rng: &mut G) -> Result<F, DealError>
    ensures sampled { IfOk result
        (λ a. sample_of (G.stream rng.old) ≡ (Some a, G.stream rng.new)) }
    ensures refused { IfErr result (λ error.
        (error ≡ TooManyWords) × (sample_of (G.stream rng.old) ≡ (None, G.stream rng.new))) }
{
    let a = F::random(alloc, rng)?;
    Ok(a)
}

/// The elements of the bytes, of which there are fewer than 2^32, a key, and their check under it.
pub(crate) fn elements_under_key(alloc: Global, bytes: &[u8], key: F) -> Mem<Vec<F>>
    requires { length bytes.now < 2 ^ 32 }
    ensures { IfOk result (λ all. AreKeyedBy key bytes.now all.items) }
{
    let mut all = elements_of(alloc, bytes)?;
    let check = key_check(&all, key);
    all.push(key)?;
    all.push(check)?;
    Ok(all)
}

/// The bytes whose elements, with a key and a check, these are; `None` exactly where there are no
/// such bytes: the check is not that of the elements under the key, or the elements are those of no
/// bytes.
pub(crate) fn bytes_under_key(alloc: Global, all: &[F]) -> Mem<Option<Vec<u8>>>
    ensures some { IfOk result
        (λ answer. IfSome answer (λ bytes. AreKeyed bytes.items all.now)) }
    ensures none { IfOk result
        (λ answer. IfNone answer ((bytes : List ℕ) → ¬ (AreKeyed bytes all.now))) }
{
    let Some((check, rest)) = all.split_last() else {
        return Ok(None);
    };
    let Some((key, elements)) = rest.split_last() else {
        return Ok(None);
    };
    if !fits(elements, *key, *check) {
        return Ok(None);
    }
    bytes_of(alloc, elements)
}
