//! Verifying of shares.

ghost use Rattle.std.specs.Prelude.{◌↔◌, IfOk, IsTrue};
ghost use Rattle.shared_secret.specs.Shares.{IsVerified};

use crate::shares::{Share, point};
use math_base::algebra::{CryptoGroup, Mem, Object, Space};
use math_poly::poly::Poly;
use std::alloc::Global;

/// Returns whether the share fits the commitment: whether the generator scaled by its value is the
/// same as the commitment's value at the point of its index. Each share that `deal_committed` deals
/// with this commitment fits.
///
/// It says nothing of the index: `combine` refuses the index zero.
///
/// ```
/// use math_samples::quotients::Quotient;
/// use shared_secret::{deal_committed, verify};
/// let (mut shares, commitment) = deal_committed::<Quotient, _>(alloc, Quotient::new(5, 7), 2, 3, rng)?;
/// shares[0].index = 2;
/// verify(alloc, &shares[0], &commitment)?; // false
/// ```
pub fn verify<K: CryptoGroup>(
    alloc: Global,
    share: &Share<K::Scalar>,
    commitment: &Poly<K>,
) -> Mem<bool>
    ensures { IfOk result (λ answer. IsTrue answer
        ↔ IsVerified K.Space K.Scalar.Ring K.generator commitment.now share.now) }
{
    let x = point::<K::Scalar>(alloc, share.index)?;
    let committed = commitment.eval(alloc, &x)?;
    let mut scaled = K::generator(alloc)?;
    scaled.scale_assign(alloc, &share.value)?;
    let answer = scaled.equals(alloc, &committed)?;
    Ok(answer)
}
