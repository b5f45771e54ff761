//! The points of indices.

ghost use Rattle.std.specs.Prelude.{◌≡◌, ◌≤◌, ◌^◌, IfOk};
ghost use Rattle.std.specs.Int.{IsNextPowerOfTwo};
ghost use Rattle.math_fields.specs.Elements.{goldilocks, root_of};
ghost use Rattle.math_transforms.specs.RootWeights.{powers_at};

use math_base::algebra::Mem;
use math_fields::goldilocks::F;
use math_values::points::point_of;
use std::alloc::Global;

/// Returns the lg of the number rounded up to a power of two.
pub fn lg_above(count: u32) -> u8
    requires { 1 ≤ count }
    ensures value { IsNextPowerOfTwo count (2 ^ result) }
    ensures small { result ≤ 32 }
{
    (32 - (count - 1).leading_zeros()) as u8
}

/// Returns the powers of the root of order 2^lg with these exponents.
pub fn points_of(alloc: Global, lg: u8, indices: &[u32]) -> Mem<Vec<F>>
    requires { lg ≤ 32 }
    ensures { IfOk result (λ v. v.items ≡ powers_at goldilocks (root_of lg) indices.now) }
{
    let mut out = Vec::with_capacity(alloc, indices.len())?;
    for index in indices {
        out.push(point_of(alloc, lg, *index))?;
    }
    Ok(out)
}
