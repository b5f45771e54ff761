//! The way down a tree, by pairs of digests.

ghost use Rattle.std.specs.Prelude.{◌≡◌, ◌↔◌, ◌+◌, ◌-◌, ◌*◌, ◌^◌, ◌<◌, ◌≤◌, ℕ, List, length};
ghost use Rattle.std.specs.Prelude.{if◌then◌else◌, IfNone, IfOk, IfSome, IsTrue, OnErr, slice_get};
ghost use Rattle.hash_trees.specs.Binding.{IsLeafUnder};
ghost use Rattle.hash_trees.specs.Descents.{AreChildren, IsNodeUnder, IsWay, Stands};
ghost use Rattle.hash_trees.specs.Descents.{entered, first_leaf, first_leaves, from_top, height};
ghost use Rattle.hash_trees.specs.Descents.{leaves_below, left_child, lowered, pair_place, passed};
ghost use Rattle.hash_trees.specs.Descents.{right_child};
ghost use Rattle.hash_trees.specs.Trees.{node_message};
ghost use Rattle.sha2.specs.Sha512.{sha512_256};

use crate::Digest;
use crate::digests::node_digest;
use std::alloc::{AllocError, Global};
use std::marker::Model;

/// A node of a tree that has two children, or a leaf.
#[derive(Clone, Copy)]
pub struct Node {
    /// How many levels above the leaves it is.
    pub level: usize,
    /// Which node of its level it is, from the left.
    pub place: usize,
    /// How many leaves are below it; 1 at a leaf.
    pub leaves: usize,
    /// Its digest.
    pub digest: Digest,
}

/// A way down a tree from its top to its leaves, by pairs: the digests of the two children of each
/// node.
///
/// It begins with the top of a tree and the number of its leaves, and asks for the pair of the node
/// that it stands at. It takes a pair only if the digest of that node is made of it, so each node
/// and each leaf that it comes to is under the top. Pairs come in the order in which a file has
/// them: the pair of the root, then all pairs below its left child, then all pairs below its right
/// child. If the pair of a node is lost, it passes over all leaves below that node, and goes on
/// with the others.
///
/// It stands at nodes with two children and at leaves alone, since a node without a neighbour goes
/// up as it is. In memory it has at most as many nodes as the tree has levels.
///
/// In clauses it is a `Way`: how many leaves the tree has, its top, and the nodes that are still to
/// come.
///
/// ```
/// use hash_trees::{Descent, leaf_digest, node_digest};
/// let leaves = [leaf_digest(b"one"), leaf_digest(b"two"), leaf_digest(b"three")];
/// let node = node_digest(&leaves[0], &leaves[1]);
/// let top = node_digest(&node, &leaves[2]);
/// let mut descent = Descent::new(alloc, top, 3)?;
/// descent.next().map(|node| (node.level, node.place, node.leaves)); // Some((2, 0, 3))
/// descent.enter(&leaves[0], &leaves[1])?; // false
/// descent.enter(&node, &leaves[2])?; // true
/// descent.next().map(|node| (node.level, node.place, node.leaves)); // Some((1, 0, 2))
/// descent.enter(&leaves[0], &leaves[1])?; // true
/// descent.next().map(|leaf| (leaf.level, leaf.place)); // Some((0, 0))
/// descent.next().map(|leaf| leaf.digest == leaves[0]); // Some(true)
/// descent.pass();
/// descent.next().map(|leaf| leaf.digest == leaves[1]); // Some(true)
/// descent.pass();
/// descent.next().map(|leaf| leaf.digest == leaves[2]); // Some(true)
/// descent.pass();
/// descent.next().is_none(); // true
/// ```
#[derive(Drop)]
pub struct Descent {
    count: usize,
    top: Digest,
    first: usize,
    waiting: Vec<Node>,
}

impl Model for Descent {
    ghost use Rattle.std.specs.Prelude.{◌≡◌, ◌<◌, ◌^◌, reverse};
    ghost use Rattle.hash_trees.specs.Descents.{Way, IsWay, first_of};
    ghost use Rattle.sha2.specs.Sha512.{sha512_256};

    ghost Value = { Way };

    ghost view = { λ d. record { count = d.count; top = d.top; nodes = reverse d.waiting.items } };

    ghost invariant = { λ d. IsWay sha512_256
        (record { count = d.count; top = d.top; nodes = reverse d.waiting.items })
        × (d.first ≡ first_of d.count (reverse d.waiting.items)) × (d.count < 2 ^ 64) };
}

/// The node over so many leaves at this place of this level, at the level where it has two
/// children, or is a leaf.
fn lower(level: usize, place: usize, leaves: usize, digest: Digest) -> Node
    requires level { level ≤ 64 }
    requires place { place * 2 ^ level < 2 ^ 64 }
    ensures { result ≡ lowered leaves level place digest }
{
    let mut level = level;
    let mut place = place;
    while level > 0 && leaves <= 1 << (level - 1) {
        level -= 1;
        place *= 2;
    }
    Node {
        level,
        place,
        leaves,
        digest,
    }
}

/// Whether a node has children, and these are their digests.
fn are_children(node: Node, left: &Digest, right: &Digest) -> bool
    ensures { IsTrue result ↔ ((0 < node.level)
        × (sha512_256 (node_message left.now right.now) ≡ node.digest)) }
{
    node.level > 0 && node_digest(left, right).as_slice() == node.digest.as_slice()
}

/// The left child of a node.
fn left_child(node: Node, digest: Digest) -> Node
    requires some { 0 < node.level }
    requires level { node.level ≤ 64 }
    requires place { 2 * node.place < 2 ^ 64 }
    ensures { result ≡ left_child node digest }
{
    Node {
        level: node.level - 1,
        place: 2 * node.place,
        leaves: 1 << (node.level - 1),
        digest,
    }
}

/// The right child of a node.
fn right_child(node: Node, digest: Digest) -> Node
    requires some { 0 < node.level }
    requires level { node.level ≤ 64 }
    requires two { 2 ^ (node.level - 1) < node.leaves }
    requires place { (2 * node.place + 1) * 2 ^ (node.level - 1) < 2 ^ 64 }
    ensures { result ≡ right_child node digest }
{
    let half = 1 << (node.level - 1);
    lower(
        node.level - 1,
        2 * node.place + 1,
        node.leaves - half,
        digest,
    )
}

impl Descent {
    /// Begins at the top of a tree with this many leaves, of which there is at least one.
    ///
    /// ```
    /// use hash_trees::{Descent, leaf_digest};
    /// let descent = Descent::new(alloc, leaf_digest(b"one"), 1)?;
    /// descent.next().map(|leaf| (leaf.level, leaf.place, leaf.leaves)); // Some((0, 0, 1))
    /// ```
    pub fn new(alloc: Global, top: Digest, count: usize) -> Result<Descent, AllocError>
        requires { 1 ≤ count }
        ensures top { IfOk result (λ descent. descent ≡ from_top top count) }
        ensures leaf { IfOk result (λ descent. first_leaf descent ≡ 0) }
        ensures pair { IfOk result (λ descent. pair_place descent ≡ 0) }
    {
        let mut waiting = Vec::new(alloc);
        waiting.push(lower(64, 0, count, top))?;
        Ok(Descent {
            count,
            top,
            first: 0,
            waiting,
        })
    }

    /// Returns what it stands at: a node with two children, or a leaf. At the end there is none.
    ///
    /// The node is under the top by some path, and so is the leaf (`leaf`). Nodes and leaves that
    /// are still to come have all leaves from the first one on, in order (`way`).
    ///
    /// ```
    /// use hash_trees::Descent;
    /// let mut descent = Descent::new(alloc, [7; 32], 5)?;
    /// descent.next().map(|node| (node.level, node.place, node.leaves)); // Some((3, 0, 5))
    /// descent.next().map(|node| node.digest == [7; 32]); // Some(true)
    /// descent.pass();
    /// descent.next().is_none(); // true
    /// ```
    pub fn next(&self) -> Option<Node>
        ensures node { result ≡ slice_get self.now.nodes 0 }
        ensures under { IfSome result (λ node. IsNodeUnder sha512_256
            self.now.count node.level node.place node.digest self.now.top) }
        ensures leaf { IfSome result (λ node. node.level ≡ 0 → (others : List (List ℕ))
            × IsLeafUnder sha512_256 self.now.count node.place node.digest others self.now.top) }
        ensures index { IfSome result (λ node. node.level ≡ 0
            → (node.place ≡ first_leaf self.now) × (node.leaves ≡ 1)) }
        ensures stands { IfSome result
            (λ node. Stands sha512_256 self.now.count self.now.top node) }
        ensures first { IfSome result (λ node. node.place * 2 ^ node.level ≡ first_leaf self.now) }
        ensures below { IfSome result (λ node. node.leaves ≡ first_leaves self.now.nodes) }
        // Of what it stands at neither the leaves nor the pairs end past all of the tree.
        ensures leaves { IfSome result (λ node. (1 ≤ node.leaves)
            × (first_leaf self.now + node.leaves ≤ self.now.count)) }
        ensures pairs { IfSome result (λ node. pair_place self.now + node.leaves ≤ self.now.count) }
        ensures end { IfNone result (first_leaf self.now ≡ self.now.count) }
        ensures way { IsWay sha512_256 self.now }
        ensures few { length self.now.nodes ≤ height self.now.count + 1 }
    {
        self.waiting.last().copied()
    }

    /// Returns how many leaves are below what it stands at: 1 at a leaf, and 0 at the end.
    ///
    /// ```
    /// use hash_trees::Descent;
    /// let mut descent = Descent::new(alloc, [7; 32], 5)?;
    /// descent.leaves(); // 5
    /// descent.pass();
    /// descent.leaves(); // 0
    /// ```
    pub fn leaves(&self) -> usize
        ensures node { result ≡ first_leaves self.now.nodes }
        ensures below { IfSome (slice_get self.now.nodes 0)
            (λ node. result ≡ leaves_below self.now.count node.level node.place) }
    {
        match self.waiting.last() {
            Some(node) => node.leaves,
            None => 0,
        }
    }

    /// Returns the index of the first leaf that is still to come. At the end it is the number of
    /// leaves.
    ///
    /// ```
    /// use hash_trees::{Descent, leaf_digest, node_digest};
    /// let leaves = [leaf_digest(b"one"), leaf_digest(b"two"), leaf_digest(b"three")];
    /// let node = node_digest(&leaves[0], &leaves[1]);
    /// let top = node_digest(&node, &leaves[2]);
    /// let mut descent = Descent::new(alloc, top, 3)?;
    /// descent.enter(&node, &leaves[2])?; // true
    /// descent.first_leaf(); // 0
    /// descent.pass();
    /// descent.first_leaf(); // 2
    /// descent.pass();
    /// descent.first_leaf(); // 3
    /// ```
    pub fn first_leaf(&self) -> usize
        ensures { result ≡ first_leaf self.now }
    {
        self.first
    }

    /// Returns the place of the pair of the node that it stands at: how many pairs come before it
    /// in a file that has all pairs of the tree. A tree has a pair less than it has leaves.
    ///
    /// ```
    /// use hash_trees::{Descent, leaf_digest, node_digest};
    /// let leaves = [leaf_digest(b"1"), leaf_digest(b"2"), leaf_digest(b"3"), leaf_digest(b"4")];
    /// let left = node_digest(&leaves[0], &leaves[1]);
    /// let right = node_digest(&leaves[2], &leaves[3]);
    /// let mut descent = Descent::new(alloc, node_digest(&left, &right), 4)?;
    /// descent.pair_place(); // 0
    /// descent.enter(&left, &right)?; // true
    /// descent.pair_place(); // 1
    /// descent.pass();
    /// descent.pair_place(); // 2
    /// ```
    pub fn pair_place(&self) -> usize
        ensures { result ≡ pair_place self.now }
    {
        self.first + self.waiting.len() - 1
    }

    /// Goes to the left child of the node that it stands at, and after that to the right child, if
    /// these are the digests of the two, and returns whether they are. If they are not, or if it
    /// stands at a leaf or at the end, it stays as it was; so it does if no memory is left.
    ///
    /// ```
    /// use hash_trees::{Descent, leaf_digest, node_digest};
    /// let (left, right) = (leaf_digest(b"one"), leaf_digest(b"two"));
    /// let mut descent = Descent::new(alloc, node_digest(&left, &right), 2)?;
    /// descent.enter(&right, &left)?; // false
    /// descent.enter(&left, &right)?; // true
    /// descent.next().map(|leaf| leaf.digest == left); // Some(true)
    /// descent.enter(&left, &right)?; // false
    /// ```
    pub fn enter(&mut self, left: &Digest, right: &Digest) -> Result<bool, AllocError>
        ensures taken { IfOk result (λ taken. IsTrue taken
            ↔ AreChildren sha512_256 self.old.nodes left.now right.now) }
        ensures way { IfOk result (λ taken. self.new
            ≡ (if taken then entered self.old left.now right.now else self.old)) }
        ensures leaf { first_leaf self.new ≡ first_leaf self.old }
        ensures pair { IfOk result (λ taken. pair_place self.new
            ≡ pair_place self.old + (if taken then 1 else 0)) }
        ensures err { OnErr result (self.new ≡ self.old) }
    {
        let Some(node) = self.next() else {
            return Ok(false);
        };
        if !are_children(node, left, right) {
            return Ok(false);
        }
        let last = self.waiting.len() - 1;
        self.waiting.push(left_child(node, *left))?;
        self.waiting[last] = right_child(node, *right);
        Ok(true)
    }

    /// Passes over the leaf that it stands at, or over all leaves below the node. At the end it
    /// does nothing.
    ///
    /// ```
    /// use hash_trees::{Descent, leaf_digest, node_digest};
    /// let leaves = [leaf_digest(b"one"), leaf_digest(b"two"), leaf_digest(b"three")];
    /// let node = node_digest(&leaves[0], &leaves[1]);
    /// let mut descent = Descent::new(alloc, node_digest(&node, &leaves[2]), 3)?;
    /// descent.enter(&node, &leaves[2])?; // true
    /// descent.pass();
    /// descent.next().map(|leaf| (leaf.level, leaf.place)); // Some((0, 2))
    /// ```
    pub fn pass(&mut self)
        ensures way { self.new ≡ passed self.old }
        ensures leaves { first_leaf self.new ≡ first_leaf self.old + first_leaves self.old.nodes }
        ensures pairs { pair_place self.new
            ≡ pair_place self.old + (first_leaves self.old.nodes - 1) }
    {
        if let Some(node) = self.waiting.pop() {
            self.first += node.leaves;
        }
    }
}
