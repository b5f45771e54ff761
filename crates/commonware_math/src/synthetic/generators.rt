//! Single free generators.

ghost use Rattle.std.specs.Prelude.{◌≤◌, ◌<◌, ◌^◌, ℕ, IfOk};
ghost use Rattle.std.specs.Iterator.{YieldsThen, at_most};
ghost use Rattle.std.specs.List.{HoldsAt};
ghost use Rattle.commonware_math.specs.SyntheticGenerators.{IsGenerator, GivesGenerator, AreGenerators, indices_left};

use super::Synthetic;
use math_base::algebra::{Mem, Ring, Space};
use std::alloc::Global;
use std::array;
use std::marker::PhantomData;

/// The free generators by rising index: see `Synthetic::generators`.
#[derive(Drop)]
pub struct Generators<F: Ring, G: Space<F>> {
    alloc: Global,
    next_index: Option<u32>,
    of: PhantomData<(F, G)>,
}

impl<F: Ring, G: Space<F>> Synthetic<F, G> {
    /// The free generator of an index, with weight one.
    fn generator(alloc: Global, index: u32) -> Mem<Self>
        ensures { IfOk result (λ c. IsGenerator F.same F.zero F.sum F.one G.same G.zero index c) }
    {
        let mut free = Vec::new(alloc);
        free.push((index, F::one(alloc)?))?;
        Ok(Synthetic {
            free,
            concrete: Vec::new(alloc),
        })
    }

    /// Gives the free generators of index 0, 1, and so on, each in an `Ok` and with weight one.
    ///
    /// It ends after index `u32::MAX`, and after an `Err`.
    ///
    /// ```
    /// let mut generators = Synthetic::<F, F>::generators(alloc);
    /// let Some(x) = generators.next() else { return Ok(()) };
    /// x?.max_free_index(); // Some(0)
    /// ```
    pub fn generators(alloc: Global) -> Generators<F, G>
        ensures { (items : _) (last : _) (rest : _)
            → YieldsThen ⟦<Generators<F, G> as Iterator>⟧.next_gives result items last rest
            → AreGenerators (IsGenerator F.same F.zero F.sum F.one G.same G.zero) 0 items last }
    {
        Generators {
            alloc,
            next_index: Some(0),
            of: PhantomData,
        }
    }

    /// Makes the free generators of the indices below N, each with weight one. N is at most 2^32.
    ///
    /// ```
    /// let [x, y] = Synthetic::<F, F>::generators_array::<2>(alloc)?;
    /// x.sub(alloc, &y)?.eval(alloc, &[F::from(6), F::from(4)])?; // 2
    /// ```
    pub fn generators_array<const N: usize>(alloc: Global) -> Mem<[Self; N]>
        requires { N ≤ 2 ^ 32 }
        ensures { IfOk result (λ cs.
            (i : ℕ) → i < N
            → HoldsAt (IsGenerator F.same F.zero F.sum F.one G.same G.zero i) cs i) }
    {
        let out = array::try_from_fn(
            |i: usize| -> Mem<Self>
                requires { i < 2 ^ 32 }
                ensures { IfOk result
                    (λ c. IsGenerator F.same F.zero F.sum F.one G.same G.zero i c) }
            { Self::generator(alloc, i as u32) },
        )?;
        Ok(out)
    }
}

impl<F: Ring, G: Space<F>> Iterator for Generators<F, G> {
    type Item = Mem<Synthetic<F, G>>;

    ghost next_gives = { λ s r t.
        GivesGenerator (IsGenerator F.same F.zero F.sum F.one G.same G.zero)
        s.next_index r t.next_index };

    ghost remaining = { λ s. at_most (indices_left s.next_index) };

    fn next(&mut self) -> Option<Mem<Synthetic<F, G>>> {
        let index = self.next_index.take()?;
        let item = Synthetic::generator(self.alloc, index);
        if item.is_ok() {
            self.next_index = index.checked_add(1);
        }
        Some(item)
    }
}
