//! Values of polynomials at one point, block by block.
//!
//! A table has the first powers of a point. The coefficients are taken in blocks of as many as
//! these. A block has the value w_0 p_0 + w_1 p_1 + .., w_i being its words and p_i power i of the
//! point. The products are summed as whole numbers, with the carries past 128 bits counted, so that
//! only the sum is reduced modulo P, once a block. The value of each block is multiplied by the
//! power of the point at which the block begins, and added to those before it: the words are gone
//! over once, block after block.
//!
//! A table keeps its point, so that contracts can name it, and serves any number of lists.

ghost use Rattle.std.specs.Prelude.{◌≡◌, ◌↔◌, ◌<◌, IfOk, IfSome, IsTrue, None, All, length, map};
ghost use Rattle.math_numbers.specs.Goldilocks.{P};
ghost use Rattle.math_theory.specs.Powers.{power};
ghost use Rattle.math_fields.specs.Elements.{residue, product, goldilocks};
ghost use Rattle.math_base.specs.Polynomials.{value_in_ring};
ghost use Rattle.math_values.specs.Values.{elements, AreElements, ArePowersOf};

use crate::blocks::block_value;
use crate::words::Word;
use math_base::algebra::Mem;
use math_fields::goldilocks::F;
use std::alloc::Global;

/// The greatest number of powers in a table.
const BLOCK: usize = 2048;

/// A table of the first powers of a point. It gives values at the point by sums that are reduced
/// once a block.
#[derive(Drop)]
pub struct PowerTable {
    point: F,
    powers: Vec<F>,
    next: F,
    ghost some: { 0 < length powers.items },
    ghost are_powers: { ArePowersOf point powers.items },
    ghost next_power: { next ≡ power (residue 1) product point (length powers.items) },
}

/// The first n powers of x, and the next one.
fn powers_of(alloc: Global, x: F, n: usize) -> Mem<(Vec<F>, F)>
    ensures count { IfOk result (λ answer. length answer.0.items ≡ n) }
    ensures powers { IfOk result (λ answer. ArePowersOf x answer.0.items) }
    ensures next { IfOk result (λ answer. answer.1 ≡ power (residue 1) product x n) }
{
    let mut out = Vec::with_capacity(alloc, n)?;
    let mut power = F::from(1);
    for _done in 0..n {
        out.push(power)?;
        power = power * x;
    }
    Ok((out, power))
}

impl PowerTable {
    ghost use Rattle.math_values.specs.Tables.{point};

    /// Makes the table of the first `count` powers of x, but of one at least and of 2,048 at most.
    ///
    /// ```
    /// use math_values::values::PowerTable;
    /// let table = PowerTable::new(alloc, F::from(5), 3)?;
    /// table.value(&[F::from(4), F::from(6), F::from(8)]); // 234
    /// ```
    pub fn new(alloc: Global, x: F, count: usize) -> Mem<PowerTable>
        ensures { IfOk result (λ table. point table ≡ x) }
    {
        let (powers, next) = powers_of(alloc, x, count.clamp(1, BLOCK))?;
        Ok(PowerTable {
            point: x,
            powers,
            next,
        })
    }

    /// Makes the table for one list of so many coefficients. It is shorter for a short list, since
    /// each power takes a product too. In a long list the two halves of a block have to lie pages
    /// apart, since both are read at once.
    pub fn for_list(alloc: Global, x: F, coefficients: usize) -> Mem<PowerTable>
        ensures { IfOk result (λ table. point table ≡ x) }
    {
        let count = if coefficients < 0x1000 {
            64
        } else if coefficients < 0x8000 {
            128
        } else if coefficients < 0x20000 {
            512
        } else {
            BLOCK
        };
        PowerTable::new(alloc, x, count.min(coefficients))
    }

    /// The value at the point, and, where they are `COUNTED`, how many of the words are P or more.
    fn value_and_count<W: Word, const COUNTED: bool>(&self, words: &[W]) -> (F, u64)
        ensures value { result.0
            ≡ value_in_ring goldilocks (map (λ w. residue (W.word w)) words.now) (point self.now) }
        ensures above { IsTrue COUNTED
            → (result.1 ≡ 0) ↔ All (λ w. W.word w < P) words.now }
    {
        let size = self.powers.len();
        let mut sum = F::from(0);
        let mut factor = F::from(1);
        let mut above = 0u64;
        let mut from = 0;
        while words.len() - from > size {
            let (value, more) = block_value::<W, COUNTED>(&words[from..from + size], &self.powers);
            sum = sum + factor * value;
            factor = factor * self.next;
            above += more;
            from += size;
        }
        let (value, more) = block_value::<W, COUNTED>(&words[from..], &self.powers);
        (sum + factor * value, above + more)
    }

    /// Returns the value at the point of the polynomial with these coefficients, from the constant
    /// upwards.
    pub fn value(&self, coefficients: &[F]) -> F
        ensures { result ≡ value_in_ring goldilocks coefficients.now (point self.now) }
    {
        self.value_and_count::<F, false>(coefficients).0
    }

    /// Returns the value at the point of the polynomial whose coefficients are the words, from the
    /// constant upwards, or `None` if a word is P or more. It goes over the words once.
    ///
    /// ```
    /// use math_values::values::PowerTable;
    /// let table = PowerTable::for_list(alloc, F::from(5), 2)?;
    /// table.value_of_words_below(&[4, 6]); // Some(34)
    /// table.value_of_words_below(&[4, MODULUS + 6]); // None
    /// ```
    pub fn value_of_words_below(&self, coefficients: &[u64]) -> Option<F>
        ensures value { IfSome result (λ v.
            v ≡ value_in_ring goldilocks (elements coefficients.now) (point self.now)) }
        ensures some { IfSome result (λ _. AreElements coefficients.now) }
        ensures none { result ≡ None → ¬ (AreElements coefficients.now) }
    {
        let (value, above) = self.value_and_count::<u64, true>(coefficients);
        if above == 0 { Some(value) } else { None }
    }
}
