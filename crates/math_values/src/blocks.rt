//! The value of a block of coefficients.
//!
//! Words of P or more are counted only if the caller asks for it: the count costs a third of the
//! loop, and elements are never so large.

ghost use Rattle.std.specs.Prelude.{◌≡◌, ◌↔◌, ◌<◌, ◌≤◌, IsTrue, All, length, map};
ghost use Rattle.math_numbers.specs.Goldilocks.{P};
ghost use Rattle.math_fields.specs.Elements.{residue, goldilocks};
ghost use Rattle.math_base.specs.Polynomials.{value_in_ring};
ghost use Rattle.math_values.specs.Values.{ArePowersOf};

use crate::products::products;
use crate::words::Word;
use math_fields::goldilocks::F;

/// The value at x of the polynomial with these coefficients, with a table of powers of x, and,
/// where they are `COUNTED`, how many of the words are P or more.
pub fn block_value<W: Word, const COUNTED: bool>(words: &[W], powers: &[F]) -> (F, u64)
    requires { length words.now ≤ length powers.now }
    ensures value { (x : F) → ArePowersOf x powers.now
        → result.0 ≡ value_in_ring goldilocks (map (λ w. residue (W.word w)) words.now) x }
    ensures few { result.1 ≤ length words.now }
    ensures above { IsTrue COUNTED → (result.1 ≡ 0) ↔ All (λ w. W.word w < P) words.now }
{
    let (sum, above) = products::<W, COUNTED>(words, powers);
    (sum.remainder(), above)
}
