//! What the traits' constants are for these types.

ghost use Rattle.std.specs.Prelude.{◌≡◌, IsTrue, false};

use crate::boxed::Boxed;
use crate::quotients::Quotient;
use math_base::algebra::{FieldNTT, Object};
use math_fields::goldilocks::F;

/// `NEVER_REFUSES` and `MAX_LG_ROOT_ORDER` of quotients: no call is refused, and the greatest order of a root
/// of unity is 2^5.
pub fn constants_of_quotients() -> (bool, u8)
    ensures answer { IsTrue result.0 × (result.1 ≡ 5) }
    ensures never { IsTrue ⟦<Quotient as Object>⟧.NEVER_REFUSES }
    ensures order { ⟦<Quotient as FieldNTT>⟧.MAX_LG_ROOT_ORDER ≡ 5 }
{
    (
        <Quotient as Object>::NEVER_REFUSES,
        <Quotient as FieldNTT>::MAX_LG_ROOT_ORDER,
    )
}

/// The same of boxed elements: calls may be refused, and the greatest order is 2^32.
pub fn constants_of_boxed_elements() -> (bool, u8)
    ensures answer { (result.0 ≡ false) × (result.1 ≡ 32) }
    ensures may_refuse { ⟦<Boxed<F> as Object>⟧.NEVER_REFUSES ≡ false }
    ensures order { ⟦<Boxed<F> as FieldNTT>⟧.MAX_LG_ROOT_ORDER ≡ 32 }
{
    (
        <Boxed<F> as Object>::NEVER_REFUSES,
        <Boxed<F> as FieldNTT>::MAX_LG_ROOT_ORDER,
    )
}
