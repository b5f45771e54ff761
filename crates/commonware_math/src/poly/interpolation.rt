//! Interpolation of values at keyed points.
//!
//! The pairs that an interpolator is made of may be dropped, since it may be refused before it
//! looks at them.

ghost use Rattle.std.specs.Prelude.{◌≡◌, ◌≤◌, ◌↔◌, List, length, map, IsTrue, IsSome, IsOk, IfOk, IfSome};
ghost use Rattle.std.specs.Iterator.{IsFiniteIterable, Drains};
ghost use Rattle.std.specs.List.{AllZip};
ghost use Rattle.std.specs.Map.{values_of};
ghost use Rattle.math_theory.specs.Sums.{weighted_sum};
ghost use Rattle.math_codec.specs.Iterables.{ItemsMeet};
ghost use Rattle.math_base.specs.Members.{value};
ghost use Rattle.math_base.specs.Polynomials.{AreWeightsAt};
ghost use Rattle.commonware_math.specs.Interpolators.{InterpolatesAt, HaveEqualKeys};

mod roots;

use math_base::algebra::{Field, Mem, Space};
use math_codec::ordered::Map;
use math_poly::weights::weights_at;
use std::alloc::Global;
use std::marker::Model;

/// Gives the value of a polynomial at one point from its values at others.
///
/// It makes its weights once, from the points.
///
/// ```
/// let points = vec![in alloc; ('a', F::from(1)), ('b', F::from(2))]?;
/// let interpolator = Interpolator::new(alloc, points)?;
/// let values = vec![in alloc; ('a', F::from(10)), ('b', F::from(16))]?;
/// interpolator.interpolate(alloc, &Map::try_from_iter(alloc, values)?)?; // Some(4)
/// ```
#[derive(Debug, Drop)]
pub struct Interpolator<I: Ord + Drop, F: Drop> {
    weights: Map<I, F>,
}

/// An interpolator is the list of its weights with their keys, which strictly rise.
impl<I: Ord + Drop, F: Drop> Model for Interpolator<I, F> {
    ghost Value = { List (I × F) };

    ghost view = { λ m. m.weights };
}

impl<I: Ord + Drop, F: Field> Interpolator<I, F> {
    /// Makes the interpolator for the value at zero, which is the constant coefficient. It is the
    /// one that `at` makes with zero as x.
    ///
    /// ```
    /// let points = vec![in alloc; ('a', F::from(1)), ('b', F::from(2))]?;
    /// let interpolator = Interpolator::new(alloc, points)?;
    /// interpolator.weights().values(); // [2, 18446744069414584320]
    /// ```
    pub fn new<P: IntoIterator<Item = (I, F)> + Drop>(alloc: Global, pairs: P) -> Mem<Self>
    where
        P::IntoIter: Drop,
        requires { IsFiniteIterable P.into_iter_gives P.IntoIter.can_next
            P.IntoIter.remaining pairs }
        ensures { IfOk result (λ m. ItemsMeet P.into_iter_gives (Drains P.IntoIter.next_gives) pairs
            (λ xs. InterpolatesAt I.cmp F.Ring F.zero xs m)) }
    {
        let zero = F::zero(alloc)?;
        let out = Self::at(alloc, pairs, &zero)?;
        Ok(out)
    }

    /// Makes the interpolator for the value at x. Each pair is a key and a point; the first of each
    /// key counts.
    ///
    /// If no two points are the same, the weights are the only ones by which the values of each
    /// polynomial of at most as many coefficients give its value at x. If a point is the same as x,
    /// the first such key, in the order of the keys, has weight one and every other key zero.
    /// Otherwise, if two points are the same, all weights are zero. No pairs give no weights.
    ///
    /// ```
    /// let points = vec![in alloc; ('a', F::from(1)), ('b', F::from(2))]?;
    /// let interpolator = Interpolator::at(alloc, points, &F::from(3))?;
    /// interpolator.weights().values(); // [18446744069414584320, 2]
    /// ```
    pub fn at<P: IntoIterator<Item = (I, F)> + Drop>(alloc: Global, pairs: P, x: &F) -> Mem<Self>
    where
        P::IntoIter: Drop,
        requires { IsFiniteIterable P.into_iter_gives P.IntoIter.can_next
            P.IntoIter.remaining pairs }
        ensures { IfOk result (λ m. ItemsMeet P.into_iter_gives (Drains P.IntoIter.next_gives) pairs
            (λ xs. InterpolatesAt I.cmp F.Ring x.now xs m)) }
    {
        let points = Map::from_iter_dedup(alloc, pairs)?;
        let weights = weights_at(alloc, points.values(), x)?;
        let weights = points.with_values(weights);
        Ok(Interpolator { weights })
    }

    /// Returns the weight of each key.
    pub fn weights(&self) -> &Map<I, F>
        ensures { result.now ≡ self.now }
    {
        &self.weights
    }

    /// Returns the sum of the values, each scaled by the weight of its key. No values give zero.
    ///
    /// It answers `None` exactly if the keys of `evals` are not those of the weights. If the values
    /// are those of a polynomial of at most as many coefficients as points, the sum is its value at
    /// the point that the weights are for.
    ///
    /// ```
    /// let interpolator = Interpolator::new(alloc, vec![in alloc; ('a', F::from(1))]?)?;
    /// let values = Map::from_parts(vec![in alloc; 'a']?, vec![in alloc; F::from(4)]?);
    /// interpolator.interpolate(alloc, &values)?; // Some(4)
    /// let others = Map::from_parts(vec![in alloc; 'b']?, vec![in alloc; F::from(4)]?);
    /// interpolator.interpolate(alloc, &others)?; // None
    /// ```
    pub fn interpolate<K: Space<F>>(&self, alloc: Global, evals: &Map<I, K>) -> Mem<Option<K>>
        ensures keys { IfOk result
            (λ answer. IsSome answer ↔ HaveEqualKeys I.cmp evals.now self.now) }
        ensures sum { IfOk result (λ answer. IfSome answer
            (λ v. K.same v (weighted_sum K.zero K.sum K.scaling (values_of evals.now)
            (values_of self.now)))) }
        ensures value { IfOk result
            (λ answer. IfSome answer (λ v. (x : F) (points : List F) (a : List K)
            → AreWeightsAt F.Ring x points (values_of self.now) → length a ≤ length points
            → AllZip K.same (values_of evals.now) (map (λ p. value K.Space F.Ring a p) points)
            → K.same v (value K.Space F.Ring a x))) }
        ensures never { IsTrue K.NEVER_REFUSES → IsOk result }
    {
        if evals.keys().cmp(self.weights.keys()).is_ne() {
            return Ok(None);
        }
        let out = K::msm(alloc, evals.values(), self.weights.values())?;
        Ok(Some(out))
    }
}
