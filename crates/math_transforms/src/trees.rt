//! Trees of square roots.
//!
//! Let x^2 be c at some points, and r a square root of c: then x is r or -r. So the points at which
//! x^(2^lg) is one number lie below a tree: at place 1 stands a square root of that number, at
//! place 2 j a square root of what stands at place j, and at place 2 j + 1 one of minus that, which
//! is the first one times the root of order four. At the points below place j, where they are 2^h,
//! x^(2^h) is the class of the place: entry j / 2, or minus it where j is odd.
//!
//! For the points s w^i, w being the root of order 2^lg, the entry at place 2^d + b is the power
//! 2^(lg - d - 1) of s times a power of the root of order 2^(d + 1): the exponent has the d bits of
//! b in the opposite order. So, where s is one, the first half of each level is the level before
//! it, and the second half is the first half times the root of the level. No product waits for the
//! one before it.

ghost use Rattle.std.specs.Prelude.{◌≡◌, ◌+◌, ◌<◌, ◌≤◌, ◌^◌, ℕ, IfOk, IsOk, IsTrue, OnOk, length, if◌then◌else◌};
ghost use Rattle.math_transforms.specs.Domains.{IsDomain};
ghost use Rattle.math_transforms.specs.RootTrees.{IsTreeOf};
ghost use Rattle.math_transforms.specs.TreeLevels.{AddsLevel, AddsMade, AreLevelsScaled};

use super::row_products::multiply_row;
use super::transform::size_of;
use math_base::algebra::{Field, FieldNTT, Mem, Multiplicative, Object, Ring};
use std::alloc::Global;

/// The root of order 2^lg, or its inverse for the way back.
pub(super) fn level_root<F: FieldNTT, const FORWARD: bool>(alloc: Global, lg: u8) -> Mem<F>
    requires { lg ≤ F.MAX_LG_ROOT_ORDER }
    ensures { IfOk result (λ r. F.same r (if FORWARD then F.root lg else F.inverse (F.root lg))) }
{
    let Some(root) = F::root_of_unity(alloc, lg)? else {
        unreachable!()
    };
    if FORWARD {
        return Ok(root);
    }
    let out = root.inv(alloc)?;
    Ok(out)
}

/// Entry 0 of a tree of 2^lg entries.
fn first_entry<F: FieldNTT, const FORWARD: bool>(alloc: Global, lg: u8) -> Mem<F>
    requires { lg ≤ F.MAX_LG_ROOT_ORDER }
    ensures { IfOk result (λ r. 2 ≤ lg
        → F.same r (if FORWARD then F.root 2 else F.inverse (F.root 2))) }
{
    if lg < 2 {
        let one = F::one(alloc)?;
        return Ok(one);
    }
    let root = level_root::<F, FORWARD>(alloc, 2)?;
    Ok(root)
}

/// Adds copies of `count` entries, from the place `from` on.
fn add_copies<F: Ring>(alloc: Global, tree: &mut Vec<F>, from: usize, count: usize) -> Mem<()>
    requires { from + count ≤ length tree.old.items }
    ensures { OnOk result (AddsMade F.Ring (λ x. x) from count tree.old.items tree.new.items) }
{
    for i in from..from + count {
        let copy = tree[i].clone(alloc)?;
        tree.push(copy)?;
    }
    Ok(())
}

/// Adds the products of `count` entries, from the place `from` on, with the root.
fn add_products<F: Ring>(
    alloc: Global,
    tree: &mut Vec<F>,
    from: usize,
    count: usize,
    root: &F,
) -> Mem<()>
    requires { from + count ≤ length tree.old.items }
    ensures { OnOk result (AddsMade F.Ring (λ x. F.product x root.now) from count
        tree.old.items tree.new.items) }
{
    for i in from..from + count {
        let mut product = tree[i].clone(alloc)?;
        product.mul_assign(alloc, root)?;
        tree.push(product)?;
    }
    Ok(())
}

/// Adds a level by its root, after the levels below it, of which the last has `count` entries. They
/// are written where they stand, so that no further list is taken.
fn add_level<F: Ring>(alloc: Global, tree: &mut Vec<F>, count: usize, root: &F) -> Mem<()>
    requires { length tree.old.items ≡ count + count }
    ensures { OnOk result (AddsLevel F.Ring count root.now tree.old.items tree.new.items) }
{
    add_copies(alloc, tree, count, count)?;
    add_products(alloc, tree, count, count, root)?;
    Ok(())
}

/// The tree of the powers of the root of order 2^lg, or of its inverse for the way back.
pub(super) fn domain_tree<F: FieldNTT, const FORWARD: bool>(alloc: Global, lg: u8) -> Mem<Vec<F>>
    requires domain { IsDomain F.MAX_LG_ROOT_ORDER lg }
    ensures { IfOk result (λ tree. IsTreeOf F.Ring
        (λ l. if FORWARD then F.root l else F.inverse (F.root l)) F.one lg tree.items) }
{
    let mut tree = Vec::with_capacity(alloc, size_of(lg))?;
    let first = first_entry::<F, FORWARD>(alloc, lg)?;
    tree.push(first)?;
    if lg == 0 {
        return Ok(tree);
    }
    tree.push(F::one(alloc)?)?;
    for l in 1..lg {
        let root = level_root::<F, FORWARD>(alloc, l + 1)?;
        add_level(alloc, &mut tree, size_of(l - 1), &root)?;
    }
    Ok(tree)
}

/// Multiplies the last of lg levels by the start, the one before it by the square of it, and so on.
fn scale_levels<F: Ring>(alloc: Global, tree: &mut [F], start: &F, lg: u8) -> Mem<()>
    requires small { lg < 64 }
    requires size { length tree.old ≡ 2 ^ lg }
    ensures scaled { OnOk result (AreLevelsScaled F.Ring start.now lg tree.old tree.new) }
    ensures never { IsTrue F.NEVER_REFUSES → IsOk result }
{
    if lg == 0 {
        return Ok(());
    }
    let (below, level) = tree.split_at_mut(size_of(lg - 1));
    multiply_row(alloc, level, start)?;
    let mut square = start.clone(alloc)?;
    square.square(alloc)?;
    scale_levels(alloc, below, &square, lg - 1)?;
    Ok(())
}

/// Turns the tree of the powers of a root of order 2^lg, or of its inverse, into that of the start
/// times these powers. Where it is refused, the entries have some values.
pub fn start_at<F: Ring>(alloc: Global, tree: &mut [F], start: &F, lg: u8) -> Mem<()>
    requires small { lg < 64 }
    requires size { length tree.old ≡ 2 ^ lg }
    ensures size { length tree.new ≡ length tree.old }
    ensures tree { OnOk result ((root : ℕ → F) (s : F) → F.same start.now s
        → IsTreeOf F.Ring root F.one lg tree.old → IsTreeOf F.Ring root s lg tree.new) }
    ensures never { IsTrue F.NEVER_REFUSES → IsOk result }
{
    scale_levels(alloc, tree, start, lg)?;
    Ok(())
}

/// The tree of the points that are `start` times the powers of the root of order 2^lg.
pub fn root_tree<F: FieldNTT>(alloc: Global, start: &F, lg: u8) -> Mem<Vec<F>>
    requires domain { IsDomain F.MAX_LG_ROOT_ORDER lg }
    ensures { IfOk result (λ tree. IsTreeOf F.Ring F.root start.now lg tree.items) }
{
    let mut tree = domain_tree::<F, true>(alloc, lg)?;
    start_at(alloc, &mut tree, start, lg)?;
    Ok(tree)
}

/// The tree of the inverses of the points of `root_tree`, where `start` is the inverse of its
/// start.
pub fn inverse_tree<F: FieldNTT>(alloc: Global, start: &F, lg: u8) -> Mem<Vec<F>>
    requires domain { IsDomain F.MAX_LG_ROOT_ORDER lg }
    ensures { IfOk result
        (λ tree. IsTreeOf F.Ring (λ l. F.inverse (F.root l)) start.now lg tree.items) }
{
    let mut tree = domain_tree::<F, false>(alloc, lg)?;
    start_at(alloc, &mut tree, start, lg)?;
    Ok(tree)
}
