//! The digests of leaves and nodes.

ghost use Rattle.std.specs.Prelude.{◌≡◌};
ghost use Rattle.hash_trees.specs.Trees.{leaf_message, node_message};
ghost use Rattle.sha2.specs.Sha512.{sha512_256};

use crate::Digest;
use sha2::{Digest as Hasher, Sha512_256};

/// Returns the digest of the leaf of a record: that of a byte of 0 and the bytes of the record.
///
/// ```
/// use hash_trees::leaf_digest;
/// &leaf_digest(b"one")[..8]; // [90, 152, 82, 99, 73, 169, 130, 100]
/// ```
pub fn leaf_digest(content: &[u8]) -> Digest
    ensures { result ≡ sha512_256 (leaf_message content.now) }
{
    let mut hasher = Sha512_256::new();
    hasher.update(&[0u8]);
    hasher.update(content);
    hasher.finalize()
}

/// Returns the digest of a node from the digests of its two children: that of a byte of 1 and
/// the two digests, the left one first.
///
/// ```
/// use hash_trees::{leaf_digest, node_digest};
/// let node = node_digest(&leaf_digest(b"one"), &leaf_digest(b"two"));
/// &node[..8]; // [239, 169, 60, 82, 67, 79, 128, 234]
/// ```
pub fn node_digest(left: &Digest, right: &Digest) -> Digest
    ensures { result ≡ sha512_256 (node_message left.now right.now) }
{
    let mut hasher = Sha512_256::new();
    hasher.update(&[1u8]);
    hasher.update(left);
    hasher.update(right);
    hasher.finalize()
}
