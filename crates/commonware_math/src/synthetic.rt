//! Linear combinations of free generators and points.
//!
//! A combination over a ring F and a space G is a formal sum: a weight of F for each of finitely
//! many free generators, which are known by their indices alone, and points of G, each with a
//! weight. The weight of a generator that is not stored is zero. Of the points only their sum, each
//! scaled by its weight, has a meaning. Combinations are themselves a space over F: weights are
//! added and scaled index by index, and so are the sums of the points.
//!
//! Once points are known for the generators, `eval` puts them in. Combinations that are equal have
//! equal values under all generators, so an equation between commitments may be worked out on
//! combinations, and costs one `msm` in the end.
//!
//! Laws need no order of the terms. A clause of its own says that the indices of an answer rise,
//! and which they are.

ghost use Rattle.std.specs.Prelude.{◌≡◌, ◌<◌, ℕ, List, [], length, IfOk, IfSome, IfNone};
ghost use Rattle.std.specs.Iterator.{IsFiniteIterable, Drains};
ghost use Rattle.commonware_math.specs.Synthetics.{HasTerm, IsGreatestIndex, combination_zero, concrete_sum};
ghost use Rattle.commonware_math.specs.Synthetics.{value_under};

mod algebra;
mod generators;
pub mod laws;
mod merging;

pub use generators::Generators;
use math_base::algebra::{Mem, Ring, Space};
use merging::last_index;
use std::alloc::Global;
use std::marker::Model;

/// A linear combination of free generators, by their indices, and of points.
///
/// ```
/// let [x, y] = Synthetic::<F, F>::generators_array::<2>(alloc)?;
/// let sum = x.scaled(alloc, &F::from(2))?.add(alloc, &y)?;
/// sum.eval(alloc, &[F::from(4), F::from(6)])?; // 14
/// ```
#[derive(Debug, Drop)]
pub struct Synthetic<F: Ring, G: Space<F>> {
    /// The weights of the free generators, by rising index.
    free: Vec<(u32, F)>,
    /// Points, each with its weight.
    concrete: Vec<(F, G)>,
}

/// Contracts see a combination as the list of its free terms (index, weight), by rising index, and
/// the sum of its points, each scaled by its weight.
impl<F: Ring, G: Space<F>> Model for Synthetic<F, G> {
    ghost use Rattle.std.specs.Prelude.{List, ℕ};

    ghost Value = { List (ℕ × F) × G };

    ghost use Rattle.commonware_math.specs.Synthetics.{IsRising, concrete_sum};

    ghost view = { λ s. (s.free.items, concrete_sum G.zero G.sum G.scaling s.concrete.items) };

    ghost invariant = { λ s. IsRising s.free.items };
}

impl<F: Ring, G: Space<F>> Synthetic<F, G> {
    /// Makes the combination of no terms, which is zero.
    ///
    /// ```
    /// Synthetic::<F, F>::default(alloc).eval(alloc, &[])?; // 0
    /// ```
    pub fn default(alloc: Global) -> Self
        ensures { result ≡ combination_zero G.zero }
    {
        Synthetic {
            free: Vec::new(alloc),
            concrete: Vec::new(alloc),
        }
    }

    /// Makes the combination of the given pairs of a weight and a point, with no free term.
    ///
    /// ```
    /// let sum = Synthetic::concrete(alloc, vec![in alloc; (F::from(2), F::from(5))]?)?;
    /// sum.max_free_index(); // None
    /// sum.eval(alloc, &[])?; // 10
    /// ```
    pub fn concrete<P: IntoIterator<Item = (F, G)>>(alloc: Global, weighted_points: P) -> Mem<Self>
    where
        P::IntoIter: Drop,
        requires { IsFiniteIterable P.into_iter_gives P.IntoIter.can_next
            P.IntoIter.remaining weighted_points }
        ensures { IfOk result (λ c.
            (it : P.IntoIter) × (xs : List (F × G)) × P.into_iter_gives weighted_points it
            × Drains P.IntoIter.next_gives it xs
            × (c ≡ ([], concrete_sum G.zero G.sum G.scaling xs))) }
    {
        let mut concrete = Vec::new(alloc);
        for weighted_point in weighted_points {
            concrete.push(weighted_point)?;
        }
        Ok(Synthetic {
            free: Vec::new(alloc),
            concrete,
        })
    }

    /// Returns the greatest index that is stored, even if its weight is zero. It is `None` if none
    /// is stored.
    ///
    /// ```
    /// let [_, _, x] = Synthetic::<F, F>::generators_array::<3>(alloc)?;
    /// x.max_free_index(); // Some(2)
    /// ```
    pub fn max_free_index(&self) -> Option<u32>
        ensures none { IfNone result (self.now.0 ≡ []) }
        ensures some { IfSome result (λ i. IsGreatestIndex self.now.0 i) }
    {
        last_index(&self.free)
    }

    /// Returns the value under the generators, by one `msm` over all terms.
    ///
    /// It is the sum of each generator scaled by the weight at its index, plus the sum of the
    /// points, each scaled by its weight. Each stored index has to be below the number of
    /// generators.
    ///
    /// ```
    /// let [x] = Synthetic::<F, F>::generators_array::<1>(alloc)?;
    /// x.scaled(alloc, &F::from(2))?.eval(alloc, &[F::from(4)])?; // 8
    /// ```
    pub fn eval(self, alloc: Global, generators: &[G]) -> Mem<G>
        requires { (i : ℕ) → HasTerm self.0 i → i < length generators.now }
        ensures { IfOk result (λ answer.
            G.same answer (value_under F.zero F.sum G.zero G.sum G.scaling generators.now self)) }
    {
        let mut points = Vec::new(alloc);
        let mut weights = Vec::new(alloc);
        for (index, weight) in self.free {
            points.push(generators[index as usize].clone(alloc)?)?;
            weights.push(weight)?;
        }
        for (weight, point) in self.concrete {
            points.push(point)?;
            weights.push(weight)?;
        }
        let out = G::msm(alloc, &points, &weights)?;
        Ok(out)
    }
}
