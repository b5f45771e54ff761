//! Laws of combinations, each the contract of a function that does nothing.

ghost use Rattle.commonware_math.specs.SyntheticValues.{HaveSameValues, HaveValuesOfSums, HaveValuesOfMultiples};

use math_base::algebra::{Ring, Space};

/// Under all generators, combinations that are the same have values that are the same, the value of
/// a sum is the sum of the values, and the value of a multiple is the multiple of the value.
pub fn values_of_combinations<F: Ring, G: Space<F>>()
    ensures same { HaveSameValues G.Space F.Ring }
    ensures sums { HaveValuesOfSums G.Space F.Ring }
    ensures multiples { HaveValuesOfMultiples G.Space F.Ring }
{}
