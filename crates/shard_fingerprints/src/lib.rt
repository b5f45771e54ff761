//! Fingerprints of lists of words, by which accidental damage to shards is seen.
//!
//! The words are the coefficients of a polynomial over the Goldilocks field, and their fingerprint
//! is its value at a key. Two different lists of n words have one fingerprint under at most n - 1
//! keys, since their difference has no more roots. So damage that does not depend on the key is
//! missed under at most n - 1 of the P - 1 keys other than zero, and under two keys by at most
//! (n - 1)^2 of the (P - 1)^2 pairs of these.
#![tactic(auto)]

mod blocks;
mod fingerprints;
pub mod laws;
mod pairs;

pub use fingerprints::fingerprint;
pub use pairs::{Fingerprints, Keys, cells_fingerprints, words_fingerprints};
