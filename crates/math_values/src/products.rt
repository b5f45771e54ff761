//! Sums of products of words and elements.
//!
//! Two sums take one product each in turn, so that no carry waits for the product before it, and
//! are joined in the end. In a block of a long list they take the products of the lower and of the
//! upper half: it is read at two places at once, and more words are under way from the memory. In a
//! short list they take two products that are one behind the other: then one place is counted on.

ghost use Rattle.std.specs.Prelude.{◌≡◌, ◌↔◌, ◌<◌, ◌≤◌, IsTrue, All, length, map};
ghost use Rattle.math_numbers.specs.Goldilocks.{P};
ghost use Rattle.math_fields.specs.Elements.{number};
ghost use Rattle.math_values.specs.Products.{total, products};

use crate::wide::WideSum;
use crate::words::Word;
use math_fields::goldilocks::{F, MODULUS};

/// The sum of each word times its weight, and, where they are `COUNTED`, how many of the words are
/// P or more.
pub(crate) fn products<W: Word, const COUNTED: bool>(words: &[W], weights: &[F]) -> (WideSum, u64)
    requires { length words.now ≤ length weights.now }
    ensures sum { total result.0 ≡ products (map W.word words.now) weights.now }
    ensures few { result.1 ≤ length words.now }
    ensures above { IsTrue COUNTED → (result.1 ≡ 0) ↔ All (λ w. W.word w < P) words.now }
{
    let half = words.len() / 2;
    let mut lower = WideSum::zero();
    let mut upper = WideSum::zero();
    let mut lower_above = 0u64;
    let mut upper_above = 0u64;
    for i in 0..half {
        let first = words[i].word();
        lower_above += u64::from(COUNTED & (first >= MODULUS));
        lower = lower.plus_product(first, weights[i].word());
        let second = words[half + i].word();
        upper_above += u64::from(COUNTED & (second >= MODULUS));
        upper = upper.plus_product(second, weights[half + i].word());
    }
    let sum = lower.sum_with(upper);
    let above = lower_above + upper_above;
    if words.len() % 2 == 0 {
        (sum, above)
    } else {
        let last = words.len() - 1;
        let word = words[last].word();
        let more = u64::from(COUNTED & (word >= MODULUS));
        (sum.plus_product(word, weights[last].word()), above + more)
    }
}

/// The sum of each element times its weight.
pub(crate) fn paired_products(elements: &[F], weights: &[F]) -> WideSum
    requires { length elements.now ≤ length weights.now }
    ensures { total result ≡ products (map number elements.now) weights.now }
{
    let mut even = WideSum::zero();
    let mut odd = WideSum::zero();
    for pair in 0..elements.len() / 2 {
        let i = 2 * pair;
        even = even.plus_product(elements[i].word(), weights[i].word());
        odd = odd.plus_product(elements[i + 1].word(), weights[i + 1].word());
    }
    let sum = even.sum_with(odd);
    if elements.len() % 2 == 0 {
        return sum;
    }
    let last = elements.len() - 1;
    sum.plus_product(elements[last].word(), weights[last].word())
}
