//! Combinations as a space: their equality, sums and multiples.

ghost use Rattle.std.specs.Prelude.{◌≡◌, ◌<◌, ◌⊎◌, false, IfOk, Ok, OnOk, OnErr, [], length, take};
ghost use Rattle.std.specs.Fn.{FnReturnsAt};
ghost use Rattle.std.specs.Map.{keys_of};
ghost use Rattle.math_theory.specs.Powers.{multiple};
ghost use Rattle.math_theory.specs.Sums.{number_of_limbs, weighted_sum};
ghost use Rattle.commonware_math.specs.Synthetics.{HasTerm, IsRising, HasIndices, IsMapOfCombinations, AnyHasTerm};
ghost use Rattle.commonware_math.specs.Synthetics.{AreSameCombinations, map_weights, combination_zero};
ghost use Rattle.commonware_math.specs.Synthetics.{combination_sum, combination_difference, combination_negative};
ghost use Rattle.commonware_math.specs.Synthetics.{combination_multiple};
ghost use Rattle.commonware_math.specs.SyntheticLaws.{combinations_equality, combinations_group, combinations_module};

use super::Synthetic;
use super::merging::merge;
use math_base::algebra::{Additive, Mem, Object, Ring, Space};
use std::alloc::Global;

impl<F: Ring, G: Space<F>> Synthetic<F, G> {
    /// The same indices and points, with f's answer at each weight in its place.
    ///
    /// Where the answers are those of an additive map, the sum of the points goes through the map
    /// that belongs to it on points.
    fn with_weights<A: Fn(&F) -> Mem<F>>(&self, alloc: Global, f: A) -> Mem<Self>
        requires { A.IsAlwaysCallable f }
        ensures rising { IfOk result (λ c. IsRising c.0) }
        ensures indices { IfOk result (λ c. keys_of c.0 ≡ keys_of self.now.0) }
        ensures ok { IfOk result (λ c.
            (on_weights : F → F) (on_points : G → G)
            → IsMapOfCombinations F.same F.sum G.same G.sum G.scaling on_weights on_points
            → ((w x : F) → FnReturnsAt A.Fn f w (Ok x) → F.same x (on_weights w))
            → AreSameCombinations F.same F.zero F.sum G.same c
            (map_weights on_weights self.now.0, on_points self.now.1)) }
    {
        let mut free = Vec::new(alloc);
        for term in &self.free {
            free.push((term.0, f(&term.1)?))?;
        }
        let mut concrete = Vec::new(alloc);
        for term in &self.concrete {
            let weight = f(&term.0)?;
            concrete.push((weight, term.1.clone(alloc)?))?;
        }
        Ok(Synthetic { free, concrete })
    }

    /// The negative of each weight.
    fn negative(&self, alloc: Global) -> Mem<Self>
        ensures indices { IfOk result (λ c. keys_of c.0 ≡ keys_of self.now.0) }
        ensures ok { IfOk result (λ c.
            AreSameCombinations F.same F.zero F.sum G.same c
            (combination_negative F.negative G.negative self.now)) }
    {
        let out = self.with_weights(
            alloc,
            |w: &F| -> Mem<F>
                ensures { IfOk result (λ x. F.same x (F.negative w.now)) }
            {
                let copy = w.clone(alloc)?;
                let negative = copy.neg(alloc)?;
                Ok(negative)
            },
        )?;
        Ok(out)
    }

    /// Each weight times `r`.
    fn times(&self, alloc: Global, r: &F) -> Mem<Self>
        ensures rising { IfOk result (λ c. IsRising c.0) }
        ensures indices { IfOk result (λ c. keys_of c.0 ≡ keys_of self.now.0) }
        ensures ok { IfOk result (λ c.
            AreSameCombinations F.same F.zero F.sum G.same c
            (combination_multiple F.product G.scaling self.now r.now)) }
    {
        let out = self.with_weights(
            alloc,
            |w: &F| -> Mem<F>
                ensures { IfOk result (λ x. F.same x (F.product w.now r.entry.now)) }
            {
                let copy = w.clone(alloc)?;
                let product = copy.mul(alloc, r)?;
                Ok(product)
            },
        )?;
        Ok(out)
    }

    /// The sum, whose terms are moved.
    fn into_sum(self, alloc: Global, other: Self) -> Mem<Self>
        ensures indices { IfOk result
            (λ c. HasIndices c.0 (λ i. HasTerm self.0 i ⊎ HasTerm other.0 i)) }
        ensures ok { IfOk result (λ c.
            AreSameCombinations F.same F.zero F.sum G.same c (combination_sum G.sum self other)) }
    {
        let Synthetic { free, mut concrete } = self;
        let Synthetic {
            free: other_free,
            concrete: mut other_concrete,
        } = other;
        let free = merge(alloc, free, other_free)?;
        concrete.append(&mut other_concrete)?;
        Ok(Synthetic { free, concrete })
    }
}

/// The sum of combination i times scalar i. Halves of the list are summed apart and joined, so each
/// term is moved as often as the list can be halved.
fn weighted_sum_by_halves<F: Ring, G: Space<F>>(
    alloc: Global,
    combinations: &[Synthetic<F, G>],
    scalars: &[F],
) -> Mem<Synthetic<F, G>>
    requires { length combinations.now ≡ length scalars.now }
    ensures indices { IfOk result (λ c. HasIndices c.0 (AnyHasTerm combinations.now)) }
    ensures ok { IfOk result (λ c.
        AreSameCombinations F.same F.zero F.sum G.same c
        (weighted_sum (combination_zero G.zero) (combination_sum G.sum)
        (combination_multiple F.product G.scaling) combinations.now scalars.now)) }
{
    let count = combinations.len();
    if count == 0 {
        return Ok(Synthetic::default(alloc));
    }
    if count == 1 {
        let out = combinations[0].times(alloc, &scalars[0])?;
        return Ok(out);
    }
    let (low, high) = combinations.split_at(count / 2);
    let (low_scalars, high_scalars) = scalars.split_at(count / 2);
    let sum = weighted_sum_by_halves(alloc, low, low_scalars)?;
    let other_sum = weighted_sum_by_halves(alloc, high, high_scalars)?;
    let out = sum.into_sum(alloc, other_sum)?;
    Ok(out)
}

/// Combinations are the same where the weights at each index are, those that are not stored being
/// zero, and the sums of their points.
impl<F: Ring, G: Space<F>> Object for Synthetic<F, G> {
    ghost same = { AreSameCombinations F.same F.zero F.sum G.same };

    ghost NEVER_REFUSES = { false };

    const NEVER_REFUSES: bool = false;

    /// A combination with the same indices.
    fn clone(&self, alloc: Global) -> Mem<Self>
        ensures ok { IfOk result
            (λ copy. AreSameCombinations F.same F.zero F.sum G.same copy self.now) }
        ensures indices { IfOk result (λ copy. keys_of copy.0 ≡ keys_of self.now.0) }
    {
        let copy = self.with_weights(
            alloc,
            |w: &F| -> Mem<F>
                ensures { IfOk result (λ x. F.same x w.now) }
            { w.clone(alloc) },
        )?;
        Ok(copy)
    }

    /// Whether both have the same weights and the same sum of their points: whether each weight of
    /// the difference is zero, and the sum of its points, which is one `msm`.
    fn equals(&self, alloc: Global, other: &Self) -> Mem<bool> {
        let difference = self.clone(alloc)?.sub(alloc, other)?;
        let zero = F::zero(alloc)?;
        for term in &difference.free {
            if !term.1.equals(alloc, &zero)? {
                return Ok(false);
            }
        }
        let Synthetic { free: _, concrete } = difference;
        let points = Synthetic {
            free: Vec::new(alloc),
            concrete,
        };
        let sum = points.eval(alloc, &[])?;
        let zero = G::zero(alloc)?;
        let answer = sum.equals(alloc, &zero)?;
        Ok(answer)
    }

    ghost equality = { combinations_equality F.zero F.sum F.equality G.equality };
}

/// Combinations are added index by index.
impl<F: Ring, G: Space<F>> Additive for Synthetic<F, G> {
    ghost zero = { combination_zero G.zero };

    ghost sum = { combination_sum G.sum };

    ghost negative = { combination_negative F.negative G.negative };

    /// Zero, without a term.
    fn zero(alloc: Global) -> Mem<Self>
        ensures ok { IfOk result (λ answer.
            AreSameCombinations F.same F.zero F.sum G.same answer (combination_zero G.zero)) }
        ensures indices { IfOk result (λ answer. answer.0 ≡ []) }
    {
        Ok(Self::default(alloc))
    }

    /// Adds `rhs` to this combination, which then stores the indices of both. Where it is refused,
    /// the combination is as it was.
    fn add_assign(&mut self, alloc: Global, rhs: &Self) -> Mem<()>
        ensures ok { OnOk result
            (AreSameCombinations F.same F.zero F.sum G.same self.new
            (combination_sum G.sum self.old rhs.now)) }
        ensures indices { OnOk result
            (HasIndices self.new.0 (λ i. HasTerm self.old.0 i ⊎ HasTerm rhs.now.0 i)) }
        ensures err { OnErr result (self.new ≡ self.old) }
    {
        let terms = rhs.clone(alloc)?;
        *self = self.clone(alloc)?.into_sum(alloc, terms)?;
        Ok(())
    }

    /// Takes `rhs` from this combination, which then stores the indices of both, also where a
    /// weight became zero. Where it is refused, the combination is as it was.
    fn sub_assign(&mut self, alloc: Global, rhs: &Self) -> Mem<()>
        ensures ok { OnOk result
            (AreSameCombinations F.same F.zero F.sum G.same self.new
            (combination_difference F.negative G.sum G.negative self.old rhs.now)) }
        ensures indices { OnOk result
            (HasIndices self.new.0 (λ i. HasTerm self.old.0 i ⊎ HasTerm rhs.now.0 i)) }
        ensures err { OnErr result (self.new ≡ self.old) }
    {
        let terms = rhs.negative(alloc)?;
        *self = self.clone(alloc)?.into_sum(alloc, terms)?;
        Ok(())
    }

    /// The negative, with the same indices.
    fn neg(self, alloc: Global) -> Mem<Self>
        ensures ok { IfOk result (λ answer.
            AreSameCombinations F.same F.zero F.sum G.same answer
            (combination_negative F.negative G.negative self)) }
        ensures indices { IfOk result (λ answer. keys_of answer.0 ≡ keys_of self.0) }
    {
        let out = self.negative(alloc)?;
        Ok(out)
    }

    /// The sum, with the indices of both.
    fn add(self, alloc: Global, rhs: &Self) -> Mem<Self>
        ensures ok { IfOk result (λ answer.
            AreSameCombinations F.same F.zero F.sum G.same answer
            (combination_sum G.sum self rhs.now)) }
        ensures indices { IfOk result
            (λ answer. HasIndices answer.0 (λ i. HasTerm self.0 i ⊎ HasTerm rhs.now.0 i)) }
    {
        let terms = rhs.clone(alloc)?;
        let out = self.into_sum(alloc, terms)?;
        Ok(out)
    }

    /// The difference, with the indices of both, also where a weight became zero.
    fn sub(self, alloc: Global, rhs: &Self) -> Mem<Self>
        ensures ok { IfOk result (λ answer.
            AreSameCombinations F.same F.zero F.sum G.same answer
            (combination_difference F.negative G.sum G.negative self rhs.now)) }
        ensures indices { IfOk result
            (λ answer. HasIndices answer.0 (λ i. HasTerm self.0 i ⊎ HasTerm rhs.now.0 i)) }
    {
        let terms = rhs.negative(alloc)?;
        let out = self.into_sum(alloc, terms)?;
        Ok(out)
    }

    /// Doubles each weight, so indices and points stay. Where it is refused, the combination is as
    /// it was.
    fn double(&mut self, alloc: Global) -> Mem<()>
        ensures ok { OnOk result
            (AreSameCombinations F.same F.zero F.sum G.same self.new
            (combination_sum G.sum self.old self.old)) }
        ensures indices { OnOk result (keys_of self.new.0 ≡ keys_of self.old.0) }
        ensures err { OnErr result (self.new ≡ self.old) }
    {
        let twice = self.with_weights(
            alloc,
            |w: &F| -> Mem<F>
                ensures { IfOk result (λ x. F.same x (F.sum w.now w.now)) }
            {
                let mut out = w.clone(alloc)?;
                out.double(alloc)?;
                Ok(out)
            },
        )?;
        *self = twice;
        Ok(())
    }

    /// The n-fold sum, n being the number that the limbs write, the lowest limb first. If n is 0,
    /// it has no term. Otherwise it has the indices and points of this combination, with n-fold
    /// weights.
    fn scale(&self, alloc: Global, bits_le: &[u64]) -> Mem<Self>
        ensures ok { IfOk result (λ answer.
            AreSameCombinations F.same F.zero F.sum G.same answer
            (multiple (combination_zero G.zero) (combination_sum G.sum) self.now
            (number_of_limbs bits_le.now))) }
        ensures indices { IfOk result (λ answer.
            0 < number_of_limbs bits_le.now → keys_of answer.0 ≡ keys_of self.now.0) }
        ensures indices_of_zero { IfOk result
            (λ answer. number_of_limbs bits_le.now ≡ 0 → answer.0 ≡ []) }
    {
        if bits_le.iter().all(|limb| *limb == 0) {
            return Ok(Self::default(alloc));
        }
        let out = self.with_weights(
            alloc,
            |w: &F| -> Mem<F>
                ensures { IfOk result (λ x.
                    F.same x (multiple F.zero F.sum w.now (number_of_limbs bits_le.entry.now))) }
            { w.scale(alloc, bits_le) },
        )?;
        Ok(out)
    }

    ghost group = { combinations_group F.equality F.group G.equality G.group };
}

/// Combinations are scaled weight by weight.
impl<F: Ring, G: Space<F>> Space<F> for Synthetic<F, G> {
    ghost scaling = { combination_multiple F.product G.scaling };

    /// Scales each weight by `r`, so indices and points stay. Where it is refused, the combination
    /// is as it was.
    fn scale_assign(&mut self, alloc: Global, r: &F) -> Mem<()>
        ensures ok { OnOk result
            (AreSameCombinations F.same F.zero F.sum G.same self.new
            (combination_multiple F.product G.scaling self.old r.now)) }
        ensures indices { OnOk result (keys_of self.new.0 ≡ keys_of self.old.0) }
        ensures err { OnErr result (self.new ≡ self.old) }
    {
        *self = self.times(alloc, r)?;
        Ok(())
    }

    /// The combination scaled by `r`, with the same indices and points.
    fn scaled(self, alloc: Global, r: &F) -> Mem<Self>
        ensures ok { IfOk result (λ answer.
            AreSameCombinations F.same F.zero F.sum G.same answer
            (combination_multiple F.product G.scaling self r.now)) }
        ensures indices { IfOk result (λ answer. keys_of answer.0 ≡ keys_of self.0) }
    {
        let out = self.times(alloc, r)?;
        Ok(out)
    }

    /// The sum of combination i scaled by scalar i, over the shorter of both slices; zero for none.
    /// It has the indices of all combinations that have a scalar.
    fn msm(alloc: Global, points: &[Self], scalars: &[F]) -> Mem<Self>
        ensures ok { IfOk result (λ answer.
            AreSameCombinations F.same F.zero F.sum G.same answer
            (weighted_sum (combination_zero G.zero) (combination_sum G.sum)
            (combination_multiple F.product G.scaling) points.now scalars.now)) }
        ensures indices { IfOk result (λ answer.
            HasIndices answer.0 (AnyHasTerm (take (length scalars.now) points.now))) }
    {
        let count = points.len().min(scalars.len());
        let out = weighted_sum_by_halves(alloc, &points[..count], &scalars[..count])?;
        Ok(out)
    }

    ghost spans = { combinations_module F.equality F.group F.commutes F.ring G.spans };
}
