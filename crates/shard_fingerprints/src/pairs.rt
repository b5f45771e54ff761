//! Two keys, and the two fingerprints under them.

ghost use Rattle.std.specs.Prelude.{◌≡◌, ◌↔◌, IsTrue};
ghost use Rattle.math_fields.specs.Elements.{number};
ghost use Rattle.shard_fingerprints.specs.Fingerprints.{AreSameFingerprints, cell_words, fingerprint};

use crate::fingerprints::fingerprint;
use math_fields::goldilocks::F;

/// Two keys: any two elements, of which neither is zero where they are drawn for a split.
#[derive(Clone, Copy, Debug)]
pub struct Keys {
    /// The first key.
    pub first: F,
    /// The second key.
    pub second: F,
}

/// The fingerprints of one list of words under two keys.
#[derive(Clone, Copy, Debug)]
pub struct Fingerprints {
    /// The one under the first key.
    pub first: F,
    /// The one under the second key.
    pub second: F,
}

impl Fingerprints {
    /// Returns whether both are the same.
    pub fn is_same(&self, other: &Fingerprints) -> bool
        ensures { IsTrue result ↔ AreSameFingerprints self.now other.now }
    {
        self.first == other.first && self.second == other.second
    }
}

/// Returns the fingerprints of a list of words.
pub fn words_fingerprints(keys: &Keys, words: &[F]) -> Fingerprints
    ensures first { number result.first ≡ number (fingerprint words.now keys.now.first) }
    ensures second { number result.second ≡ number (fingerprint words.now keys.now.second) }
{
    Fingerprints {
        first: fingerprint(words, keys.first),
        second: fingerprint(words, keys.second),
    }
}

/// Returns the fingerprints of a shard of a block: those of the block's number, the index, the
/// number of cells, and the cells. It takes no memory.
pub fn cells_fingerprints(keys: &Keys, block: u64, index: u32, cells: &[F]) -> Fingerprints
    ensures first { number result.first
        ≡ number (fingerprint (cell_words block index cells.now) keys.now.first) }
    ensures second { number result.second
        ≡ number (fingerprint (cell_words block index cells.now) keys.now.second) }
{
    Fingerprints {
        first: cells_fingerprint(keys.first, block, index, cells),
        second: cells_fingerprint(keys.second, block, index, cells),
    }
}

/// The fingerprint of a shard of a block under one key.
fn cells_fingerprint(key: F, block: u64, index: u32, cells: &[F]) -> F
    ensures { number result ≡ number (fingerprint (cell_words block index cells.now) key) }
{
    let counted = F::from(cells.len() as u64) + fingerprint(cells, key) * key;
    let indexed = F::from(u64::from(index)) + counted * key;
    F::from(block) + indexed * key
}
