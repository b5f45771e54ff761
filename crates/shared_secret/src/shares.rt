//! Shares, and the points of their indices.
//!
//! A share does not hold the threshold. Whoever combines gives it, since all know it, and a changed
//! share must not lower it.
//!
//! In a field of characteristic q the points repeat: in the quotients modulo 97, the indices 1 and
//! 98 have one point, and the share 97 would be the secret itself. So the calls judge points, and
//! not indices.

ghost use Rattle.std.specs.Prelude.{IfOk, IsOk, IsTrue};
ghost use Rattle.shared_secret.specs.Shares.{point};

use math_base::algebra::{Mem, Ring};
use std::alloc::Global;

/// A share: an index from 1 on, and the value at its point. How many shares combine is not written
/// in it.
#[derive(Debug, Drop)]
pub struct Share<F: Drop> {
    /// The index.
    pub index: u32,
    /// The value.
    pub value: F,
}

/// Returns the point of an index: the index-fold sum of one.
///
/// Where the multiples of one repeat after p, as they do in a field of characteristic p, the
/// indices i and i + p have one point, and p has the point zero.
///
/// ```
/// use shared_secret::point;
/// point::<F>(alloc, 3)?; // 3
/// ```
pub fn point<R: Ring>(alloc: Global, index: u32) -> Mem<R>
    ensures ok { IfOk result (λ x. R.same x (point R.Ring index)) }
    ensures never { IsTrue R.NEVER_REFUSES → IsOk result }
{
    let one = R::one(alloc)?;
    let out = one.scale(alloc, &[index as u64])?;
    Ok(out)
}
