//! Which file a root means, and which roots shard files claim.

ghost use Rattle.std.specs.Prelude.{◌≡◌, Option, List, ℕ, IfOk, IfSome};
ghost use Rattle.shard_files.specs.Roots.{root_of};

use crate::fault::Fault;
use crate::gathering::{forget_numbers, gather, no_shard, note_length, open_files};
use crate::sources::ShardFile;
use crate::split::Split;
pub use crate::tree::BlockTree;
use crate::tree::{Claim, claim_of, majority_of};
use crate::wanted::WantedFiles;
use hash_trees::Digest;
use partial_files::fault::copy_of;
use shard_format::header::Header;

/// How shard files are read.
#[derive(Clone, Copy)]
pub struct Reading {
    /// The root of the file that is wanted, if one is asked for.
    pub root: Option<Digest>,
    /// Whether their last blocks may be missing.
    pub may_end_before: bool,
    /// Whether the pairs of all files are compared.
    pub compares_pairs: bool,
    /// Whether the tree is looked at that files claim, where no root is asked for.
    pub follows_claim: bool,
}

/// Adds the shard files that are meant, and gives the split that they are of, and the tree over its
/// blocks, if a root is asked for or the one that files claim is looked at.
///
/// Without a root it is the split that `gather` finds. With one it is that of the file with this
/// root: which it is, is decided by the numbers and the tree that hash to the root, and not by how
/// many files there are.
pub fn gather_split(
    rt: &HostRuntime,
    wanted: &WantedFiles,
    reading: &Reading,
    files: &mut Vec<ShardFile>,
) -> Result<(Split, Option<BlockTree>), Fault>
    ensures { IfOk result (λ found. IfSome reading.now.root
        (λ root. (top : Option (List ℕ)) × (root ≡ root_of found.0.header top))) }
{
    if let Some(root) = &reading.root {
        let claim = gather_under(rt, wanted, root, files)?;
        let split = claim.split;
        let tree = BlockTree::new(rt.alloc(), &split, claim.top, true, reading.compares_pairs)?;
        return Ok((split, tree));
    }
    let split = gather(rt, wanted, files, reading.may_end_before)?;
    if !reading.follows_claim {
        return Ok((split, None));
    }
    let top = claimed_top(rt, files)?;
    let tree = BlockTree::new(rt.alloc(), &split, top, false, reading.compares_pairs)?;
    Ok((split, tree))
}

/// Adds the shard files that are meant, leaves out those that are not of the file with this root,
/// and gives what the others claim.
fn gather_under(
    rt: &HostRuntime,
    wanted: &WantedFiles,
    root: &Digest,
    files: &mut Vec<ShardFile>,
) -> Result<Claim, Fault>
    ensures { IfOk result (λ claim. claim.root ≡ root.now) }
{
    open_files(rt, wanted, files)?;
    let Some(claim) = first_claim(rt, root, files)? else {
        return Err(no_claimant(rt, wanted, files, "this root")?);
    };
    for shard in files.iter_mut() {
        leave_out_others(shard, &claim.split.header);
    }
    forget_numbers(wanted, files);
    for shard in files.iter_mut() {
        note_length(shard, true);
    }
    Ok(claim)
}

/// What the first of the files claims that claims this root.
fn first_claim(rt: &HostRuntime, root: &Digest, files: &[ShardFile]) -> Result<Option<Claim>, Fault>
    ensures { IfOk result (λ found. IfSome found (λ claim. claim.root ≡ root.now)) }
{
    for file in files {
        if let Some(claim) = claim_of(rt, file)? {
            if claim.root == *root {
                return Ok(Some(claim));
            }
        }
    }
    Ok(None)
}

/// The fault of files of which none claims the root that is meant.
fn no_claimant(
    rt: &HostRuntime,
    wanted: &WantedFiles,
    files: &[ShardFile],
    root: &'static str,
) -> Result<Fault, Fault> {
    let mut is_used = false;
    let mut has_paths = false;
    for file in files {
        if let Some(header) = file.header() {
            is_used = true;
            has_paths = has_paths || header.format.has_paths();
        }
    }
    if !is_used {
        return no_shard(rt, wanted);
    }
    let label = copy_of(rt.alloc(), wanted.label())?;
    if has_paths {
        Ok(Fault::NoRoot(label, root))
    } else {
        Ok(Fault::NoPaths(label))
    }
}

/// Leaves out a file that has not the numbers of the file with the root, or no paths. Its keys may
/// be others.
fn leave_out_others(file: &mut ShardFile, split: &Header) {
    let Some(header) = file.header() else {
        return;
    };
    if !header.format.has_paths() {
        file.leave_out("has no paths, by which a root is checked");
    } else if !are_of_one_file(&header, split) {
        file.leave_out("has the numbers of another file than the root");
    }
}

/// Whether both headers have the numbers of one file.
fn are_of_one_file(one: &Header, other: &Header) -> bool {
    one.min == other.min
        && one.total == other.total
        && one.block == other.block
        && one.length == other.length
}

/// The top of the tree that more than half of the files claim that claim one.
fn claimed_top(rt: &HostRuntime, files: &[ShardFile]) -> Result<Option<Digest>, Fault> {
    let mut tops = Vec::new(rt.alloc());
    for file in files {
        if let Some(Claim { top: Some(top), .. }) = claim_of(rt, file)? {
            tops.push(top)?;
        }
    }
    Ok(majority_of(&tops))
}

/// The roots that the shard files claim that are meant, each once, in the order of the files.
pub fn claimed_roots(
    rt: &HostRuntime,
    wanted: &WantedFiles,
    files: &mut Vec<ShardFile>,
) -> Result<Vec<Digest>, Fault> {
    open_files(rt, wanted, files)?;
    let mut roots = Vec::new(rt.alloc());
    for file in files.iter() {
        if let Some(claim) = claim_of(rt, file)? {
            if !roots.contains(&claim.root) {
                roots.push(claim.root)?;
            }
        }
    }
    if roots.is_empty() {
        return Err(no_claimant(rt, wanted, files, "a root")?);
    }
    Ok(roots)
}
