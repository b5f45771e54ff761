//! Paths from a leaf up to the root.

ghost use Rattle.std.specs.Prelude.{◌≡◌, ◌↔◌, ◌<◌, ◌++◌, ℕ, List, length};
ghost use Rattle.std.specs.Prelude.{IfNone, IfOk, IfSome, IsTrue, OnOk};
ghost use Rattle.hash_trees.specs.Binding.{IsLeafUnder, IsUnder};
ghost use Rattle.hash_trees.specs.Trees.{LeadsTo, half, is_alone, neighbour, path, step_message};
ghost use Rattle.sha2.specs.Sha512.{sha512_256};

use crate::Digest;
use crate::digests::{leaf_digest, node_digest};
use crate::trees::above;
use std::alloc::{AllocError, Global};

/// How many nodes the level above has.
pub(crate) fn half(n: usize) -> usize
    ensures { result ≡ half n }
{
    n / 2 + n % 2
}

/// Whether the node at place `i` of `n` has no neighbour.
pub(crate) fn is_alone(n: usize, i: usize) -> bool
    requires { i < n }
    ensures { result ≡ is_alone n i }
{
    i % 2 == 0 && i + 1 == n
}

/// The place of the neighbour of the node at place `i` of `n`.
pub(crate) fn neighbour(n: usize, i: usize) -> usize
    requires { i < n }
    ensures { result ≡ neighbour i }
{
    if i % 2 == 0 { i + 1 } else { i - 1 }
}

/// The digest of the node above the one at place `i`, from its digest and that of its neighbour.
fn step_digest(i: usize, digest: &Digest, other: &Digest) -> Digest
    ensures { result ≡ sha512_256 (step_message i digest.now other.now) }
{
    if i % 2 == 0 {
        node_digest(digest, other)
    } else {
        node_digest(other, digest)
    }
}

/// Adds the path from place `i` of a level up to the root.
fn add_path(
    alloc: Global,
    level: &[Digest],
    i: usize,
    out: &mut Vec<Digest>,
) -> Result<(), AllocError>
    requires { i < length level.now }
    ensures { OnOk result (out.new.items ≡ out.old.items ++ path sha512_256 level.now i) }
{
    if level.len() == 1 {
        return Ok(());
    }
    if !is_alone(level.len(), i) {
        out.push(level[neighbour(level.len(), i)])?;
    }
    let nodes = above(alloc, level)?;
    add_path(alloc, &nodes, i / 2, out)
}

/// Returns the path of the leaf at this index up to the root: the digests of the neighbours on the
/// way, from below.
///
/// It hashes the whole tree, and takes memory for as many digests as there are leaves.
///
/// ```
/// use hash_trees::{leaf_digest, path};
/// let leaves = [leaf_digest(b"one"), leaf_digest(b"two"), leaf_digest(b"three")];
/// path(alloc, &leaves, 0)?.len(); // 2
/// path(alloc, &leaves, 2)?.len(); // 1
/// ```
pub fn path(alloc: Global, leaves: &[Digest], index: usize) -> Result<Vec<Digest>, AllocError>
    requires { index < length leaves.now }
    ensures { IfOk result (λ others. others.items ≡ path sha512_256 leaves.now index) }
{
    let mut others = Vec::new(alloc);
    add_path(alloc, leaves, index, &mut others)?;
    Ok(others)
}

/// The root that a path leads up to from the digest at place `i` of `n` nodes, if its length fits.
fn top_above(n: usize, i: usize, digest: Digest, others: &[Digest]) -> Option<Digest>
    requires { i < n }
    ensures { (top : List ℕ) → LeadsTo sha512_256 n i digest others.now top ↔ (result ≡ Some top) }
{
    if n == 1 {
        return if others.is_empty() {
            Some(digest)
        } else {
            None
        };
    }
    if is_alone(n, i) {
        return top_above(half(n), i / 2, digest, others);
    }
    let [other, rest @ ..] = others else {
        return None;
    };
    top_above(half(n), i / 2, step_digest(i, &digest, other), rest)
}

/// Returns the only root that the leaf at this index of `total` is under by this path. A leaf may
/// be any digest, as the root of another tree.
///
/// There is none if the index is `total` or more, or if the path has a digest too few or too many.
///
/// ```
/// use hash_trees::{leaf_digest, path, root, root_by_path};
/// let leaves = [leaf_digest(b"one"), leaf_digest(b"two"), leaf_digest(b"three")];
/// let others = path(alloc, &leaves, 1)?;
/// &root_by_path(3, 1, &leaves[1], &others).unwrap_or([0; 32])[..4]; // [92, 185, 105, 131]
/// root_by_path(3, 1, &leaves[1], &others) == Some(root(alloc, &leaves)?); // true
/// root_by_path(3, 1, &leaves[0], &others) == Some(root(alloc, &leaves)?); // false
/// root_by_path(3, 2, &leaves[1], &others); // None
/// root_by_path(3, 3, &leaves[1], &others); // None
/// ```
pub fn root_by_path(total: usize, index: usize, leaf: &Digest, others: &[Digest]) -> Option<Digest>
    ensures some { IfSome result
        (λ top. IsLeafUnder sha512_256 total index leaf.now others.now top) }
    ensures only { IfSome result (λ top. (other : List ℕ)
        → IsLeafUnder sha512_256 total index leaf.now others.now other → other ≡ top) }
    ensures none { IfNone result ((other : List ℕ)
        → IsLeafUnder sha512_256 total index leaf.now others.now other → ⊥) }
{
    if index >= total {
        return None;
    }
    top_above(total, index, *leaf, others)
}

/// Returns whether the leaf at this index of `total` is under the root `top` by this path. A leaf
/// may be any digest, as the root of another tree.
///
/// It answers no if the index is `total` or more, or if the path has a digest too few or too many.
///
/// ```
/// use hash_trees::{is_leaf_under, leaf_digest, path, root};
/// let leaves = [leaf_digest(b"one"), leaf_digest(b"two"), leaf_digest(b"three")];
/// let top = root(alloc, &leaves)?;
/// let others = path(alloc, &leaves, 2)?;
/// is_leaf_under(&top, 3, 2, &leaves[2], &others); // true
/// is_leaf_under(&top, 3, 2, &leaves[1], &others); // false
/// is_leaf_under(&top, 3, 3, &leaves[2], &others); // false
/// ```
pub fn is_leaf_under(
    top: &Digest,
    total: usize,
    index: usize,
    leaf: &Digest,
    others: &[Digest],
) -> bool
    ensures { IsTrue result ↔ IsLeafUnder sha512_256 total index leaf.now others.now top.now }
{
    match root_by_path(total, index, leaf, others) {
        Some(found) => found.as_slice() == top.as_slice(),
        None => false,
    }
}

/// Returns whether the record at this index of `total` is under the root `top` by this path.
///
/// It answers no if the index is `total` or more, or if the path has a digest too few or too many.
///
/// ```
/// use hash_trees::{is_under, leaf_digest, path, root};
/// let leaves = [leaf_digest(b"one"), leaf_digest(b"two"), leaf_digest(b"three")];
/// let top = root(alloc, &leaves)?;
/// let others = path(alloc, &leaves, 1)?;
/// is_under(&top, 3, 1, b"two", &others); // true
/// is_under(&top, 3, 2, b"two", &others); // false
/// is_under(&top, 3, 1, b"one", &others); // false
/// is_under(&top, 3, 1, b"two", &others[..1]); // false
/// ```
pub fn is_under(top: &Digest, total: usize, index: usize, content: &[u8], others: &[Digest]) -> bool
    ensures { IsTrue result ↔ IsUnder sha512_256 total index content.now others.now top.now }
{
    is_leaf_under(top, total, index, &leaf_digest(content), others)
}
