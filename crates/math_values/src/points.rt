//! The points of a domain: the powers of a root of unity.

ghost use Rattle.std.specs.Prelude.{◌≡◌, ◌≤◌};
ghost use Rattle.math_theory.specs.Powers.{power};
ghost use Rattle.math_fields.specs.Elements.{product, residue, root_of};

use math_base::algebra::Ring;
use math_fields::goldilocks::F;
use std::alloc::Global;

/// Returns power `index` of the root of order 2^lg. Takes no memory.
pub fn point_of(alloc: Global, lg: u8, index: u32) -> F
    requires { lg ≤ 32 }
    ensures { result ≡ power (residue 1) product (root_of lg) index }
{
    let Some(root) = F::root_of_unity(lg) else {
        unreachable!()
    };
    let Ok(point) = root.exp(alloc, &[index as u64]) else {
        unreachable!()
    };
    point
}
