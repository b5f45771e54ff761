//! The fingerprint of many words, by blocks.
//!
//! The first powers of the key are put into a table, and as many words are a block. A block has the
//! fingerprint w_0 p_0 + w_1 p_1 + .., w_i being its words and p_i power i of the key: a sum of
//! products that is reduced once. The blocks are joined by Horner's rule from the last one to the
//! first, so that one product of each block waits for the block after it.

ghost use Rattle.std.specs.Prelude.{◌≡◌, length};
ghost use Rattle.math_values.specs.Values.{ArePowersOf};
ghost use Rattle.shard_fingerprints.specs.Fingerprints.{fingerprint};

use math_fields::goldilocks::F;
use math_values::sums::sum_of_products;

/// How many words are a block.
pub(crate) const BLOCK: usize = 32;

/// The first powers of the key. Power 2 i is the square of power i, and power 2 i + 1 once more the
/// key, so that no product waits for many others.
fn powers_of(key: F) -> [F; BLOCK]
    ensures count { length result ≡ 32 }
    ensures powers { ArePowersOf key result }
{
    let mut powers = [F::from(1); BLOCK];
    powers[1] = key;
    for i in 1..BLOCK / 2 {
        let square = powers[i] * powers[i];
        powers[2 * i] = square;
        powers[2 * i + 1] = square * key;
    }
    powers
}

/// The fingerprint of the words under the key.
pub(crate) fn by_blocks(words: &[F], key: F) -> F
    ensures { result ≡ fingerprint words.now key }
{
    let powers = powers_of(key);
    let next = powers[BLOCK / 2] * powers[BLOCK / 2];
    let mut index = words.len() / BLOCK;
    let mut value = sum_of_products(&words[index * BLOCK..], &powers);
    while index > 0 {
        index -= 1;
        let from = index * BLOCK;
        let block = sum_of_products(&words[from..from + BLOCK], &powers);
        value = block + next * value;
    }
    value
}
