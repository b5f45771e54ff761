//! The root of a tree.

ghost use Rattle.std.specs.Prelude.{◌≡◌, ◌↔◌, ◌≤◌, ◌<◌, length, map, IfOk, IsTrue};
ghost use Rattle.hash_trees.specs.Binding.{leaves, records_root};
ghost use Rattle.hash_trees.specs.Trees.{above, root};
ghost use Rattle.sha2.specs.Sha512.{sha512_256};

use crate::Digest;
use crate::digests::{leaf_digest, node_digest};
use std::alloc::{AllocError, Global};

/// Returns the level above the one with these nodes: a node for each two of them, and the last one
/// as it is where it has no neighbour.
///
/// ```
/// use hash_trees::{above, leaf_digest, node_digest};
/// let leaves = [leaf_digest(b"one"), leaf_digest(b"two"), leaf_digest(b"three")];
/// let nodes = above(alloc, &leaves)?;
/// nodes.len(); // 2
/// nodes[0] == node_digest(&leaves[0], &leaves[1]); // true
/// nodes[1] == leaves[2]; // true
/// ```
pub fn above(alloc: Global, level: &[Digest]) -> Result<Vec<Digest>, AllocError>
    ensures { IfOk result (λ nodes. nodes.items ≡ above sha512_256 level.now) }
{
    let mut nodes = Vec::new(alloc);
    let mut rest = level;
    while let [left, right, tail @ ..] = rest {
        nodes.push(node_digest(left, right))?;
        rest = tail;
    }
    if let [last] = rest {
        nodes.push(*last)?;
    }
    Ok(nodes)
}

/// Returns the root of the tree with these leaves, of which there is at least one.
///
/// It takes memory for two levels of the tree.
///
/// ```
/// use hash_trees::{leaf_digest, root};
/// let leaves = [leaf_digest(b"one"), leaf_digest(b"two"), leaf_digest(b"three")];
/// &root(alloc, &leaves)?[..8]; // [92, 185, 105, 131, 47, 161, 180, 42]
/// root(alloc, &leaves[..1])? == leaves[0]; // true
/// ```
pub fn root(alloc: Global, leaves: &[Digest]) -> Result<Digest, AllocError>
    requires { 1 ≤ length leaves.now }
    ensures { IfOk result (λ top. top ≡ root sha512_256 leaves.now) }
{
    let mut level = above(alloc, leaves)?;
    while level.len() > 1 {
        level = above(alloc, &level)?;
    }
    Ok(level[0])
}

/// The digests of the leaves of records.
fn leaf_digests(alloc: Global, records: &[Vec<u8>]) -> Result<Vec<Digest>, AllocError>
    ensures { IfOk result
        (λ digests. digests.items ≡ leaves sha512_256 (map (λ v. v.items) records.now)) }
{
    let mut digests = Vec::new(alloc);
    for content in records {
        digests.push(leaf_digest(content))?;
    }
    Ok(digests)
}

/// Returns whether this is the root of the records, of which there is at least one.
///
/// ```
/// use hash_trees::{is_root_of, leaf_digest, root};
/// let records = vec![in alloc; vec![in alloc; 1_u8]?, vec![in alloc; 2_u8]?]?;
/// let top = root(alloc, &[leaf_digest(&[1]), leaf_digest(&[2])])?;
/// is_root_of(alloc, &records, &top)?; // true
/// is_root_of(alloc, &records[..1], &top)?; // false
/// ```
pub fn is_root_of(alloc: Global, records: &[Vec<u8>], top: &Digest) -> Result<bool, AllocError>
    requires { 1 ≤ length records.now }
    ensures { IfOk result (λ is. IsTrue is
        ↔ (records_root sha512_256 (map (λ v. v.items) records.now) ≡ top.now)) }
{
    let digests = leaf_digests(alloc, records)?;
    let found = root(alloc, &digests)?;
    Ok(found.as_slice() == top.as_slice())
}
