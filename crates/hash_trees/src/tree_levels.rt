//! A tree that is kept with all its levels.

ghost use Rattle.std.specs.Prelude.{◌≡◌, ◌↔◌, ◌≤◌, ◌<◌, ◌++◌, ℕ, List, length, map};
ghost use Rattle.std.specs.Prelude.{IfOk, IfSome, IsSome, OnOk};
ghost use Rattle.hash_trees.specs.TreeLevels.{AreChildrenOf, AreLevels, HasChildren, lowest};
ghost use Rattle.hash_trees.specs.Trees.{path, root};
ghost use Rattle.sha2.specs.Sha512.{sha512_256};

use crate::Digest;
use crate::paths::{is_alone, neighbour};
use crate::trees::above;
use std::alloc::{AllocError, Global};
use std::marker::Model;

/// A tree over leaves, which gives the path of each of them without hashing again.
///
/// In clauses it is the list of its leaves.
///
/// ```
/// use hash_trees::{Tree, is_under, leaf_digest};
/// let leaves = vec![in alloc; leaf_digest(b"one"), leaf_digest(b"two"), leaf_digest(b"three")]?;
/// let tree = Tree::new(alloc, leaves)?;
/// let others = tree.path(alloc, 2)?;
/// is_under(&tree.root(), 3, 2, b"three", &others); // true
/// ```
#[derive(Drop)]
pub struct Tree {
    levels: Vec<Vec<Digest>>,
    top: Digest,
}

impl Model for Tree {
    ghost Value = { List (List ℕ) };

    ghost view = { λ t. lowest (map (λ level. level.items) t.levels.items) };

    ghost invariant = { λ t. AreLevels sha512_256 (map (λ level. level.items) t.levels.items)
        × (t.top ≡ root sha512_256 (lowest (map (λ level. level.items) t.levels.items))) };
}

/// Adds the path from place `i` of the lowest of these levels up to the root.
fn add_path_by_levels(
    levels: &[Vec<Digest>],
    i: usize,
    out: &mut Vec<Digest>,
) -> Result<(), AllocError>
    requires levels { AreLevels sha512_256 (map (λ level. level.items) levels.now) }
    requires within { i < length (lowest (map (λ level. level.items) levels.now)) }
    ensures { OnOk result (out.new.items ≡ out.old.items
        ++ path sha512_256 (lowest (map (λ level. level.items) levels.now)) i) }
{
    let [level, higher @ ..] = levels else {
        return Ok(());
    };
    if level.len() == 1 {
        return Ok(());
    }
    if !is_alone(level.len(), i) {
        out.push(level[neighbour(level.len(), i)])?;
    }
    add_path_by_levels(higher, i / 2, out)
}

impl Tree {
    /// Makes the tree with these leaves, of which there is at least one.
    ///
    /// It takes memory for twice as many digests as there are leaves.
    pub fn new(alloc: Global, leaves: Vec<Digest>) -> Result<Tree, AllocError>
        requires { 1 ≤ length leaves.items }
        ensures { IfOk result (λ tree. tree ≡ leaves.items) }
    {
        let mut levels = Vec::new(alloc);
        let mut level = leaves;
        while level.len() > 1 {
            let next = above(alloc, &level)?;
            levels.push(level)?;
            level = next;
        }
        let top = level[0];
        levels.push(level)?;
        Ok(Tree { levels, top })
    }

    /// Returns the root.
    pub fn root(&self) -> Digest
        ensures { result ≡ root sha512_256 self.now }
    {
        self.top
    }

    /// Returns the path of the leaf at this index: the digests of the neighbours on the way up to
    /// the root, from below.
    pub fn path(&self, alloc: Global, index: usize) -> Result<Vec<Digest>, AllocError>
        requires { index < length self.now }
        ensures { IfOk result (λ others. others.items ≡ path sha512_256 self.now index) }
    {
        let mut others = Vec::new(alloc);
        add_path_by_levels(&self.levels, index, &mut others)?;
        Ok(others)
    }
    /// Returns the digests of the children of the node at this place of this level, the left one
    /// first. There are none if it has not two children: at level 0 are the leaves, and a node
    /// without a neighbour goes up as it is.
    ///
    /// Places are counted from the left.
    ///
    /// ```
    /// use hash_trees::{Tree, leaf_digest, node_digest};
    /// let leaves = vec![in alloc; leaf_digest(b"1"), leaf_digest(b"2"), leaf_digest(b"3")]?;
    /// let tree = Tree::new(alloc, leaves)?;
    /// tree.pair(1, 0) == Some((leaf_digest(b"1"), leaf_digest(b"2"))); // true
    /// let (left, right) = tree.pair(2, 0).unwrap_or(([0; 32], [0; 32]));
    /// node_digest(&left, &right) == tree.root(); // true
    /// tree.pair(1, 1); // None
    /// tree.pair(0, 0); // None
    /// ```
    pub fn pair(&self, level: usize, place: usize) -> Option<(Digest, Digest)>
        ensures some { IsSome result ↔ HasChildren sha512_256 self.now level place }
        ensures pair { IfSome result
            (λ pair. AreChildrenOf sha512_256 self.now level place pair.0 pair.1) }
    {
        if level == 0 || level > self.levels.len() {
            return None;
        }
        let below = &self.levels[level - 1];
        if place >= below.len() / 2 {
            return None;
        }
        Some((below[2 * place], below[2 * place + 1]))
    }
}
