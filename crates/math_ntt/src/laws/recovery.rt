//! What was evaluated is recovered.
ghost use Rattle.math_ntt.specs.RecoveredValues.{RecoversFromSome, RecoversFromAll};

use math_base::algebra::FieldNTT;

/// Recovery gives polynomials back from all of their values. If each has at most m coefficients, it
/// gives them back from the values in any m rows, whatever the other rows hold.
pub fn recovered_values<F: FieldNTT>()
    ensures all { RecoversFromAll F.Ring F.root F.MAX_LG_ROOT_ORDER }
    ensures some { RecoversFromSome F.Ring F.root F.MAX_LG_ROOT_ORDER }
{}
