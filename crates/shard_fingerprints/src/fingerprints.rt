//! The fingerprint of a list of words.

ghost use Rattle.std.specs.Prelude.{◌≡◌, [], ◌∷◌};
ghost use Rattle.math_fields.specs.Elements.{number};
ghost use Rattle.shard_fingerprints.specs.FourWords.{AreKeyPowers, words_before};
ghost use Rattle.shard_fingerprints.specs.Fingerprints.{fingerprint};

use crate::blocks::{BLOCK, by_blocks};
use math_fields::goldilocks::F;

/// From so many words on the powers of a key for blocks take less time than they save.
const LONG: usize = 3 * BLOCK;

/// A key, its square, and the square of that.
#[derive(Clone, Copy)]
struct Powers {
    key: F,
    square: F,
    fourth: F,
}

impl Powers {
    /// Those of a key.
    fn of(key: F) -> Powers
        ensures { AreKeyPowers key result }
    {
        let square = key * key;
        Powers {
            key,
            square,
            fourth: square * square,
        }
    }

    /// The fingerprint of the words a, b, c, d and of those after them, from the fingerprint of
    /// these.
    ///
    /// It is (a + b k) + (c + d k) k^2, and the fingerprint of the words after times k^4. So one
    /// product of each four words waits for those of the four after them.
    fn before(&self, a: F, b: F, c: F, d: F, value: F) -> F
        requires { AreKeyPowers self.now.key self.now }
        ensures { number result
            ≡ number (words_before self.now.key (a ∷ b ∷ c ∷ d ∷ []) value) }
    {
        let low = a + b * self.key;
        let high = c + d * self.key;
        low + high * self.square + value * self.fourth
    }
}

/// The fingerprint of the words under the key, by Horner's rule, four words at a time.
fn fingerprint_by_horner(words: &[F], key: F) -> F
    ensures { number result ≡ number (fingerprint words.now key) }
{
    let powers = Powers::of(key);
    let mut value = F::from(0);
    let mut i = words.len();
    while i >= 4 {
        i -= 4;
        value = powers.before(words[i], words[i + 1], words[i + 2], words[i + 3], value);
    }
    while i > 0 {
        i -= 1;
        value = words[i] + value * key;
    }
    value
}

/// Returns the fingerprint of the words under the key: the sum of word i times the key to the power
/// i. It takes no memory.
///
/// Two different lists of n words have one fingerprint under at most n - 1 keys, and two that
/// differ in one word under none but zero: see `laws::changes_are_seen`.
pub fn fingerprint(words: &[F], key: F) -> F
    ensures { number result ≡ number (fingerprint words.now key) }
{
    if words.len() < LONG {
        fingerprint_by_horner(words, key)
    } else {
        by_blocks(words, key)
    }
}
