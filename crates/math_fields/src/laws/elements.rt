//! Equality of elements of the Goldilocks field, and what the traits' constants are for it.
ghost use Rattle.std.specs.Prelude.{◌≡◌, ◌↔◌, IsTrue};
ghost use Rattle.math_fields.specs.Elements.{same};

use crate::goldilocks::F;
use math_base::algebra::{FieldNTT, Object};
use math_codec::codec::{FixedSize, MaxEncodeSize};

/// Whether `a == b`: exactly where both are the same number.
pub fn equality(a: F, b: F) -> bool
    ensures { IsTrue result ↔ same a b }
{
    a == b
}

/// `NEVER_REFUSES`, `MAX_LG_ROOT_ORDER`, `SIZE` and `MAX_ENCODE_SIZE` of `F`: no call is refused,
/// the greatest order of a root of unity is 2^32, and each element is written in eight bytes. So it
/// is of the ghost members too, which contracts cite.
pub fn constants() -> (bool, u8, usize, usize)
    ensures answer { IsTrue result.0 × (result.1 ≡ 32) × (result.2 ≡ 8) × (result.3 ≡ 8) }
    ensures never { IsTrue ⟦<F as Object>⟧.NEVER_REFUSES }
    ensures order { ⟦<F as FieldNTT>⟧.MAX_LG_ROOT_ORDER ≡ 32 }
    ensures size { ⟦<F as FixedSize>⟧.SIZE ≡ 8 }
    ensures greatest { ⟦<F as MaxEncodeSize>⟧.MAX_ENCODE_SIZE ≡ 8 }
{
    (
        <F as Object>::NEVER_REFUSES,
        <F as FieldNTT>::MAX_LG_ROOT_ORDER,
        <F as FixedSize>::SIZE,
        <F as MaxEncodeSize>::MAX_ENCODE_SIZE,
    )
}
