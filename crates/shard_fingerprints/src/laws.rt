//! Laws of fingerprints, each the contract of a function that does nothing.

ghost use Rattle.shard_fingerprints.specs.Fingerprints.{FewKeysAgree, OneChangeIsSeen};
ghost use Rattle.shard_fingerprints.specs.KeyPairs.{ChangesAreMissedRarely, DamageIsMissedRarely};
ghost use Rattle.shard_fingerprints.specs.KeyPairs.{FewPairsAgree, FewPairsFit, ShardsHaveTheirWords};

use math_base::algebra::Field;

/// Two lists of n words that differ have one fingerprint under at most n - 1 keys; where they
/// differ in one word alone, under none but zero.
pub fn changes_are_seen<R: Field>()
    ensures keys { FewKeysAgree R.Ring }
    ensures one { OneChangeIsSeen R.Ring }
{}

/// Two lists of n words that differ have the same two fingerprints under at most (n - 1)^2 pairs of
/// keys. If n is at most 2^18, that is at most one of 2^90 of all pairs of keys other than zero.
/// Shards that differ in the block, the index or a cell have lists of words that differ.
///
/// The same holds if the fingerprints are damaged too, or they alone, by what does not depend on
/// the keys, as long as the first word is not damaged (`stored`, `stored_rare`). The reader of a
/// record knows the number of its block, and the reader of a header the mark. A change that adds as
/// much to the first word as to both fingerprints would not be seen.
pub fn damage_is_missed_rarely()
    ensures pairs { FewPairsAgree }
    ensures rare { DamageIsMissedRarely }
    ensures stored { FewPairsFit }
    ensures stored_rare { ChangesAreMissedRarely }
    ensures shards { ShardsHaveTheirWords }
{}
