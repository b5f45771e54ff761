//! Geometric progressions.

ghost use Rattle.std.specs.Prelude.{◌≡◌, None, Some};
ghost use Rattle.math_base.specs.Progressions.{GivesPower};

use super::{Mem, Ring};
use std::alloc::Global;

/// The powers of a base in a ring, from a first value on: see `powers`.
#[derive(Drop)]
pub struct Powers<'a, R: Ring> {
    alloc: Global,
    next_power: Option<R>,
    base: &'a R,
}

impl<'a, R: Ring> Powers<'a, R> {
    pub(super) fn new(alloc: Global, shift: R, base: &'a R) -> Powers<'a, R>
        ensures next_power { result.next_power ≡ Some shift }
        ensures base { result.base.now ≡ base.now }
    {
        Powers {
            alloc,
            next_power: Some(shift),
            base,
        }
    }

    /// A copy of `power`, which leaves its product with the base for the next call.
    fn step(&mut self, mut power: R) -> Mem<R>
        requires { self.old.next_power ≡ None }
        ensures gives { GivesPower R.same R.product self.old.base.now (Some power)
            (Some result) self.new.next_power }
        ensures base { self.new.base.now ≡ self.old.base.now }
    {
        let item = power.clone(self.alloc)?;
        power.mul_assign(self.alloc, self.base)?;
        self.next_power = Some(power);
        Ok(item)
    }
}

impl<'a, R: Ring> Iterator for Powers<'a, R> {
    type Item = Mem<R>;

    ghost next_gives = { λ s r t. GivesPower R.same R.product s.base.now s.next_power r t.next_power
        × (t.base.now ≡ s.base.now) };

    fn next(&mut self) -> Option<Mem<R>> {
        let power = self.next_power.take()?;
        Some(self.step(power))
    }
}
